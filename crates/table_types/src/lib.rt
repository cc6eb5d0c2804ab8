// The section of types of the linked table.
#![tactic(auto)]

ghost use Rattle.std.specs.Prelude.{◌≡◌, [], ◌+◌, ◌*◌, ◌≤◌, ◌<◌, length};
ghost use Rattle.reader.specs.Reader.{encode_list};
ghost use Rattle.sheet.specs.Module.{dyn, coroutine, type_at};
ghost use Rattle.sheet.specs.Decode.{value_type, type_def};
ghost use Rattle.types.specs.Types.{value_faults, type_faults, types_faults};
ghost use Rattle.region.specs.Region.{Frame};
ghost use Rattle.open_sheet.specs.Ready.{Ready, sheet_words, module_of};
ghost use Rattle.table.specs.Records.{type_record};
ghost use Rattle.writing.specs.Writing.{written};
ghost use Rattle.table_structs.specs.StructParts.{Sound};
ghost use Rattle.table_types.specs.TypeParts.{one_at, two_at, body_at};

use blocks::word;
use error::TypeId;
use open_sheet::{Opened, type_at};
use rule6_registers::canon_at;
use table_structs::write_struct;
use writing::push;

// The canonical word of the value type at position q.
fn write_one(sheet: &[u8], work: &[u32], o: Opened, q: usize, table: &mut [u32], at: usize) -> usize
    requires ready { Ready (sheet_words sheet.now o) work.now o }
    requires sound { Sound value_type dyn value_faults (sheet_words sheet.now o) q }
    requires q_in_bounds { at + length (one_at (sheet_words sheet.now o) q) ≤ length table.old }
    ensures table_after { table.new ≡ written table.old at (one_at (sheet_words sheet.now o) q) }
    ensures value { result ≡ at + length (one_at (sheet_words sheet.now o) q) }
{
    let canon = canon_at(sheet, work, o, q);
    push(table, at, canon)
}

// Key before value.
fn write_two(sheet: &[u8], work: &[u32], o: Opened, q: usize, table: &mut [u32], at: usize) -> usize
    requires ready { Ready (sheet_words sheet.now o) work.now o }
    requires sound { Sound value_type dyn value_faults (sheet_words sheet.now o) q }
    requires sound_2 { Sound value_type dyn value_faults (sheet_words sheet.now o) (q + 1) }
    requires q_in_bounds { at + length (two_at (sheet_words sheet.now o) q) ≤ length table.old }
    ensures table_after { table.new ≡ written table.old at (two_at (sheet_words sheet.now o) q) }
    ensures value { result ≡ at + length (two_at (sheet_words sheet.now o) q) }
{
    let p = write_one(sheet, work, o, q, table, at);
    write_one(sheet, work, o, q + 1, table, p)
}

// What follows the kind word of the type at position q.
fn write_body(
    sheet: &[u8],
    work: &mut [u32],
    o: Opened,
    q: usize,
    table: &mut [u32],
    at: usize,
) -> usize
    requires ready { Ready (sheet_words sheet.now o) work.old o }
    requires sound { Sound type_def coroutine type_faults (sheet_words sheet.now o) q }
    requires q_in_bounds { at + length (body_at (sheet_words sheet.now o) q) ≤ length table.old }
    ensures table_after { table.new ≡ written table.old at (body_at (sheet_words sheet.now o) q) }
    ensures value { result ≡ at + length (body_at (sheet_words sheet.now o) q) }
    ensures frame { Frame (λ k. k < 6 * o.layout.words) work.old work.new }
{
    match word(sheet, q) {
        1 => write_struct(sheet, work, o, q + 1, table, at),
        2 => write_one(sheet, work, o, q + 1, table, at),
        3 => write_two(sheet, work, o, q + 1, table, at),
        4 => write_one(sheet, work, o, q + 1, table, at),
        5 => write_two(sheet, work, o, q + 1, table, at),
        _ => at,
    }
}

// The record of type t.
fn write_type(
    sheet: &[u8],
    work: &mut [u32],
    o: Opened,
    t: TypeId,
    table: &mut [u32],
    at: usize,
) -> usize
    requires ready { Ready (sheet_words sheet.now o) work.old o }
    requires o_value { types_faults (module_of sheet.now o) ≡ [] }
    requires t_lt_types { t.0 < o.counts.types }
    requires t_in_bounds { at + length (type_record (module_of sheet.now o) (type_at (module_of sheet.now o).types t.0)) ≤ length table.old }
    ensures table_after { table.new ≡ written table.old at (type_record (module_of sheet.now o) (type_at (module_of sheet.now o).types t.0)) }
    ensures value { result ≡ at + length (type_record (module_of sheet.now o) (type_at (module_of sheet.now o).types t.0)) }
    ensures frame { Frame (λ k. k < 6 * o.layout.words) work.old work.new }
{
    let q = type_at(work, o, t);
    let kind = word(sheet, q);
    let p = push(table, at, kind);
    write_body(sheet, work, o, q, table, p)
}

// The count, then the record of each type. Words of work below 6 * words stay as they are.
pub fn write_types(sheet: &[u8], work: &mut [u32], o: Opened, table: &mut [u32], at: usize) -> usize
    requires ready { Ready (sheet_words sheet.now o) work.old o }
    requires o_value { types_faults (module_of sheet.now o) ≡ [] }
    requires o_in_bounds { at + length (encode_list (type_record (module_of sheet.now o)) (module_of sheet.now o).types) ≤ length table.old }
    ensures table_after { table.new ≡ written table.old at (encode_list (type_record (module_of sheet.now o)) (module_of sheet.now o).types) }
    ensures value { result ≡ at + length (encode_list (type_record (module_of sheet.now o)) (module_of sheet.now o).types) }
    ensures frame { Frame (λ k. k < 6 * o.layout.words) work.old work.new }
{
    let mut p = push(table, at, o.counts.types);
    for i in 0..o.counts.types {
        p = write_type(sheet, work, o, TypeId(i), table, p);
    }
    p
}
