// The record of a struct: parent + 1, fields, reference fields, then the names of fields and of methods.
#![tactic(auto)]

ghost use Rattle.std.specs.Prelude.{◌≡◌, ◌+◌, ◌*◌, ◌≤◌, ◌<◌, length};
ghost use Rattle.sheet.specs.Module.{coroutine};
ghost use Rattle.sheet.specs.Decode.{struct_type};
ghost use Rattle.types.specs.Types.{type_faults};
ghost use Rattle.region.specs.Region.{Frame};
ghost use Rattle.open_sheet.specs.Ready.{Ready, sheet_words, module_of};
ghost use Rattle.table.specs.Records.{struct_record};
ghost use Rattle.writing.specs.Writing.{written};
ghost use Rattle.table_structs.specs.StructParts.{Sound, struct_at, field_words, name_words};

use blocks::word;
use open_sheet::Opened;
use table_names::{write_field_names, write_method_names};
use table_values::{write_references, write_values};
use writing::push;

// Parent + 1, the fields' types, the slots of reference fields, none above 65,535.
fn write_fields(
    sheet: &[u8],
    work: &[u32],
    o: Opened,
    at_struct: usize,
    table: &mut [u32],
    at: usize,
) -> usize
    requires ready { Ready (sheet_words sheet.now o) work.now o }
    requires sound { Sound struct_type coroutine type_faults (sheet_words sheet.now o) at_struct }
    requires at_struct_in_bounds { at + length (field_words (module_of sheet.now o) (struct_at (sheet_words sheet.now o) at_struct)) ≤ length table.old }
    ensures table_after { table.new ≡ written table.old at (field_words (module_of sheet.now o) (struct_at (sheet_words sheet.now o) at_struct)) }
    ensures value { result ≡ at + length (field_words (module_of sheet.now o) (struct_at (sheet_words sheet.now o) at_struct)) }
{
    let fields = at_struct + 2;
    let count = word(sheet, fields);
    let parent = word(sheet, at_struct + 1);
    let p = push(table, at, parent);
    let q = write_values(sheet, work, o, fields + 2, 2, count, table, p);
    write_references(sheet, o.layout.words, fields + 2, 2, count, 65535, table, q)
}

// The names of fields before those of methods.
fn write_names(
    sheet: &[u8],
    work: &mut [u32],
    o: Opened,
    at_struct: usize,
    table: &mut [u32],
    at: usize,
) -> usize
    requires ready { Ready (sheet_words sheet.now o) work.old o }
    requires sound { Sound struct_type coroutine type_faults (sheet_words sheet.now o) at_struct }
    requires at_struct_in_bounds { at + length (name_words (module_of sheet.now o) (struct_at (sheet_words sheet.now o) at_struct)) ≤ length table.old }
    ensures table_after { table.new ≡ written table.old at (name_words (module_of sheet.now o) (struct_at (sheet_words sheet.now o) at_struct)) }
    ensures value { result ≡ at + length (name_words (module_of sheet.now o) (struct_at (sheet_words sheet.now o) at_struct)) }
    ensures frame { Frame (λ k. k < 6 * o.layout.words) work.old work.new }
{
    let fields = at_struct + 2;
    let count = word(sheet, fields);
    let methods = fields + 1 + 2 * count as usize;
    let p = write_field_names(sheet, work, o, fields, table, at);
    write_method_names(sheet, work, o, methods, table, p)
}

// What follows a struct's kind word.
pub fn write_struct(
    sheet: &[u8],
    work: &mut [u32],
    o: Opened,
    at_struct: usize,
    table: &mut [u32],
    at: usize,
) -> usize
    requires ready { Ready (sheet_words sheet.now o) work.old o }
    requires sound { Sound struct_type coroutine type_faults (sheet_words sheet.now o) at_struct }
    requires at_struct_in_bounds { at + length (struct_record (module_of sheet.now o) (struct_at (sheet_words sheet.now o) at_struct)) ≤ length table.old }
    ensures table_after { table.new ≡ written table.old at (struct_record (module_of sheet.now o) (struct_at (sheet_words sheet.now o) at_struct)) }
    ensures value { result ≡ at + length (struct_record (module_of sheet.now o) (struct_at (sheet_words sheet.now o) at_struct)) }
    ensures frame { Frame (λ k. k < 6 * o.layout.words) work.old work.new }
{
    let p = write_fields(sheet, work, o, at_struct, table, at);
    write_names(sheet, work, o, at_struct, table, p)
}
