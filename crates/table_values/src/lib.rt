// Lists of value types of the linked table, and the places of references.
#![tactic(auto)]

ghost use Rattle.std.specs.Prelude.{◌≡◌, map, ◌+◌, ◌*◌, ◌≤◌, ◌<◌, min, length};
ghost use Rattle.blocks.specs.Frame.{first_words};
ghost use Rattle.reader.specs.Reader.{encode_words};
ghost use Rattle.reader.specs.Value.{Whole, value_of};
ghost use Rattle.sheet.specs.Module.{dyn};
ghost use Rattle.sheet.specs.Decode.{value_type};
ghost use Rattle.canon.specs.Canon.{canon_word};
ghost use Rattle.open_sheet.specs.Ready.{Ready, sheet_words, module_of};
ghost use Rattle.table.specs.Records.{references};
ghost use Rattle.writing.specs.Writing.{written};
ghost use Rattle.table_values.specs.Values.{values_at, Values, Present, place_words};

use blocks::word;
use open_sheet::Opened;
use rule6_registers::canon_at;
use writing::{push, write_list};

// The count, then each value type's canonical word.
pub fn write_values(
    sheet: &[u8],
    work: &[u32],
    o: Opened,
    first: usize,
    stride: usize,
    n: u32,
    table: &mut [u32],
    at: usize,
) -> usize
    requires ready { Ready (sheet_words sheet.now o) work.now o }
    requires values { Values (sheet_words sheet.now o) first stride n }
    requires n_in_bounds { at + 1 + n ≤ length table.old }
    ensures table_after { table.new ≡ written table.old at (encode_words (map (canon_word (module_of sheet.now o).types) (values_at (sheet_words sheet.now o) first stride n))) }
    ensures value { result ≡ at + length (encode_words (map (canon_word (module_of sheet.now o).types) (values_at (sheet_words sheet.now o) first stride n))) }
{
    write_list(table, at, n, |i| {
        canon_at(sheet, work, o, first + stride * i as usize)
    })
}

// A place, or the greatest that is listed.
fn capped(most: u32, i: u32) -> u32
    ensures { result ≡ min most i }
{
    most.min(i)
}

// Place i where a reference stands: str, dyn and all that names a type.
fn write_place(
    sheet: &[u8],
    n_words: usize,
    q: usize,
    most: u32,
    i: u32,
    table: &mut [u32],
    p: usize,
) -> usize
    requires whole { Whole (value_type (first_words sheet.now n_words) q) }
    requires q_in_bounds { p + length (place_words most i (value_of dyn (value_type (first_words sheet.now n_words) q))) ≤ length table.old }
    ensures table_after { table.new ≡ written table.old p (place_words most i (value_of dyn (value_type (first_words sheet.now n_words) q))) }
    ensures value { result ≡ p + length (place_words most i (value_of dyn (value_type (first_words sheet.now n_words) q))) }
{
    if word(sheet, q) < 11 {
        return p;
    }
    push(table, p, capped(most, i))
}

// The count, then the places of the references, none above `most`. The count is known last.
pub fn write_references(
    sheet: &[u8],
    n_words: usize,
    first: usize,
    stride: usize,
    n: u32,
    most: u32,
    table: &mut [u32],
    at: usize,
) -> usize
    requires present { Present (first_words sheet.now n_words) first stride n }
    requires n_in_bounds { at + length (encode_words (map (min most) (references (values_at (first_words sheet.now n_words) first stride n)))) ≤ length table.old }
    ensures table_after { table.new ≡ written table.old at (encode_words (map (min most) (references (values_at (first_words sheet.now n_words) first stride n)))) }
    ensures value { result ≡ at + length (encode_words (map (min most) (references (values_at (first_words sheet.now n_words) first stride n)))) }
{
    let mut p = at + 1;
    for i in 0..n {
        let q = first + stride * i as usize;
        p = write_place(sheet, n_words, q, most, i, table, p);
    }
    let count = (p - at - 1) as u32;
    push(table, at, count);
    p
}
