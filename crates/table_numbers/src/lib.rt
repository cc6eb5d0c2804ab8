// Lists of canonical numbers of the linked table: names, type refs.
#![tactic(auto)]

ghost use Rattle.std.specs.Prelude.{◌≡◌, [], map, ◌+◌, ◌≤◌, ◌<◌, length, get_or};
ghost use Rattle.error.specs.declared.What.TheVariants.{Types};
ghost use Rattle.error.specs.Answer.{in_range};
ghost use Rattle.reader.specs.Reader;
ghost use Rattle.reader.specs.Reader.{list_of, encode_words};
ghost use Rattle.reader.specs.Value.{Whole, value_of};
ghost use Rattle.canon.specs.Canon.{canon_string, canon_type};
ghost use Rattle.open_sheet.specs.Ready.{Ready, sheet_words, module_of};
ghost use Rattle.types.specs.Types.{string_faults};
ghost use Rattle.law_judging.specs.Judging.{list_faults};
ghost use Rattle.writing.specs.Writing.{written};

use blocks::word;
use error::{StrId, TypeId};
use open_sheet::{Opened, canon_string, canon_type};
use writing::write_list;

// The canonical number of name i.
fn name_at(sheet: &[u8], work: &[u32], o: Opened, names_at: usize, i: u32) -> u32
    requires ready { Ready (sheet_words sheet.now o) work.now o }
    requires whole { Whole (list_of Reader.word (sheet_words sheet.now o) names_at) }
    requires names_at_value { list_faults (string_faults (module_of sheet.now o)) (list_of Reader.word (sheet_words sheet.now o) names_at) ≡ [] }
    requires i_in_bounds { i < length (value_of [] (list_of Reader.word (sheet_words sheet.now o) names_at)) }
    ensures { result ≡ canon_string (module_of sheet.now o).strings (get_or (value_of [] (list_of Reader.word (sheet_words sheet.now o) names_at)) i 0) }
{
    let s = StrId(word(sheet, names_at + 1 + i as usize));
    let name = canon_string(work, o, s);
    name.0
}

// The count, then each name's canonical number.
pub fn write_names(
    sheet: &[u8],
    work: &[u32],
    o: Opened,
    names_at: usize,
    table: &mut [u32],
    at: usize,
) -> usize
    requires ready { Ready (sheet_words sheet.now o) work.now o }
    requires whole { Whole (list_of Reader.word (sheet_words sheet.now o) names_at) }
    requires names_at_value { list_faults (string_faults (module_of sheet.now o)) (list_of Reader.word (sheet_words sheet.now o) names_at) ≡ [] }
    requires names_at_in_bounds { at + 1 + length (value_of [] (list_of Reader.word (sheet_words sheet.now o) names_at)) ≤ length table.old }
    ensures table_after { table.new ≡ written table.old at (encode_words (map (canon_string (module_of sheet.now o).strings) (value_of [] (list_of Reader.word (sheet_words sheet.now o) names_at)))) }
    ensures value { result ≡ at + length (encode_words (map (canon_string (module_of sheet.now o).strings) (value_of [] (list_of Reader.word (sheet_words sheet.now o) names_at)))) }
{
    let count = word(sheet, names_at);
    write_list(table, at, count, |i| name_at(sheet, work, o, names_at, i))
}

// The canonical number of type ref i.
fn type_ref_at(sheet: &[u8], work: &[u32], o: Opened, refs_at: usize, i: u32) -> u32
    requires ready { Ready (sheet_words sheet.now o) work.now o }
    requires whole { Whole (list_of Reader.word (sheet_words sheet.now o) refs_at) }
    requires refs_at_value { list_faults (in_range Types (length (module_of sheet.now o).types)) (list_of Reader.word (sheet_words sheet.now o) refs_at) ≡ [] }
    requires i_in_bounds { i < length (value_of [] (list_of Reader.word (sheet_words sheet.now o) refs_at)) }
    ensures { result ≡ canon_type (module_of sheet.now o).types (get_or (value_of [] (list_of Reader.word (sheet_words sheet.now o) refs_at)) i 0) }
{
    let t = TypeId(word(sheet, refs_at + 1 + i as usize));
    let canon = canon_type(work, o, t);
    canon.0
}

// The count, then each type ref's canonical number.
pub fn write_type_refs(
    sheet: &[u8],
    work: &[u32],
    o: Opened,
    refs_at: usize,
    table: &mut [u32],
    at: usize,
) -> usize
    requires ready { Ready (sheet_words sheet.now o) work.now o }
    requires whole { Whole (list_of Reader.word (sheet_words sheet.now o) refs_at) }
    requires refs_at_value { list_faults (in_range Types (length (module_of sheet.now o).types)) (list_of Reader.word (sheet_words sheet.now o) refs_at) ≡ [] }
    requires refs_at_in_bounds { at + 1 + length (value_of [] (list_of Reader.word (sheet_words sheet.now o) refs_at)) ≤ length table.old }
    ensures table_after { table.new ≡ written table.old at (encode_words (map (canon_type (module_of sheet.now o).types) (value_of [] (list_of Reader.word (sheet_words sheet.now o) refs_at)))) }
    ensures value { result ≡ at + length (encode_words (map (canon_type (module_of sheet.now o).types) (value_of [] (list_of Reader.word (sheet_words sheet.now o) refs_at)))) }
{
    let count = word(sheet, refs_at);
    write_list(
        table,
        at,
        count,
        |i| type_ref_at(sheet, work, o, refs_at, i),
    )
}
