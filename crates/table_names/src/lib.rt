// The names of a struct's fields and methods, by rising canonical number, the first of equals kept.
#![tactic(auto)]

ghost use Rattle.std.specs.Prelude.{◌≡◌, [], ◌+◌, ◌*◌, ◌≤◌, ◌<◌, length, get_or};
ghost use Rattle.blocks.specs.Blocks.{words};
ghost use Rattle.reader.specs.Reader.{list_of, encode_list};
ghost use Rattle.reader.specs.Value.{Whole, value_of};
ghost use Rattle.sheet.specs.Decode.{field_of, method_of};
ghost use Rattle.sheet.specs.Encode.{encode_pair};
ghost use Rattle.canon.specs.Canon.{canon_string};
ghost use Rattle.region.specs.Region.{Frame};
ghost use Rattle.writing.specs.Writing.{written, words_of};
ghost use Rattle.open_sheet.specs.Ready.{Ready, sheet_words, module_of};
ghost use Rattle.table.specs.Records.{by_name};
ghost use Rattle.table_name_sort.specs.Merge.{pairs_at};
ghost use Rattle.table_name_sort.specs.Steps.{Paired, Room, Gathered};
ghost use Rattle.table_names.specs.Names.{named_fields, slot_pairs, method_pairs, field_list, method_list, pair_words, name_faults, methods_faults};

use blocks::word;
use error::StrId;
use open_sheet::{Opened, canon_string};
use region::{least, put};
use table_name_sort::sort_names;
use writing::{push, push_all};

fn push_pair(work: &[u32], a: usize, table: &mut [u32], at: usize) -> usize
    requires { (a + 1 < length work.now) × (at + 1 < length table.old) }
    ensures table_after { table.new ≡ written table.old at (encode_pair (get_or work.now a 0, get_or work.now (a + 1) 0)) }
    ensures value { result ≡ at + 2 }
{
    push_all(table, at, [work[a], work[a + 1]])
}

fn push_pairs(work: &[u32], a: usize, n: usize, table: &mut [u32], at: usize) -> usize
    requires n_in_bounds { a + 2 * n ≤ length work.now }
    requires n_in_bounds_2 { at + 2 * n ≤ length table.old }
    ensures table_after { table.new ≡ written table.old at (words_of encode_pair (pairs_at work.now a n)) }
    ensures value { result ≡ at + 2 * n }
{
    let mut p = at;
    for i in 0..n {
        p = push_pair(work, a + 2 * i, table, p);
    }
    p
}

// Write n pairs after their count.
fn write_pairs(work: &[u32], a: usize, n: usize, table: &mut [u32], at: usize) -> usize
    requires n_in_bounds { (a + 2 * n ≤ length work.now) × (n < 4294967296) }
    requires n_in_bounds_2 { at + 1 + 2 * n ≤ length table.old }
    ensures table_after { table.new ≡ written table.old at (pair_words (pairs_at work.now a n)) }
    ensures value { result ≡ at + 1 + 2 * n }
{
    let p = push(table, at, n as u32);
    push_pairs(work, a, n, table, p)
}

// Sort the n pairs at a, with scratch at b, and write them.
fn write_sorted(
    work: &mut [u32],
    a: usize,
    n: usize,
    b: usize,
    table: &mut [u32],
    at: usize,
) -> usize
    requires room { Room work.old a n b }
    requires n_bound { (n < 4294967296) × (a ≤ b) }
    requires n_in_bounds { at + length (pair_words (by_name (pairs_at work.old a n))) ≤ length table.old }
    ensures table_after { table.new ≡ written table.old at (pair_words (by_name (pairs_at work.old a n))) }
    ensures value { result ≡ at + length (pair_words (by_name (pairs_at work.old a n))) }
    ensures frame { Frame (λ k. k < a) work.old work.new }
{
    let kept = sort_names(work, a, n, b);
    write_pairs(work, a, kept, table, at)
}

// Write the canonical number of the name at word p of the sheet, and its value, at `to`.
fn put_name(sheet: &[u8], work: &mut [u32], o: Opened, p: usize, to: usize, value: u32)
    requires ready { Ready (sheet_words sheet.now o) work.old o }
    requires p_in_bounds { get_or (words sheet.now) p 0 < length (module_of sheet.now o).strings }
    requires to_in_bounds { to + 1 < length work.old }
    ensures { Paired work.old work.new to (canon_string (module_of sheet.now o).strings (get_or (words sheet.now) p 0)) value }
{
    let name = canon_string(work, o, StrId(word(sheet, p)));
    put(work, to, name.0 as usize);
    put(work, to + 1, value as usize);
}

// Canonical name and slot of the first count fields, in the free words.
fn gather_fields(sheet: &[u8], work: &mut [u32], o: Opened, at: usize, count: usize)
    requires ready { Ready (sheet_words sheet.now o) work.old o }
    requires whole { Whole (list_of field_of (sheet_words sheet.now o) at) }
    requires at_value { name_faults (module_of sheet.now o) (value_of [] (list_of field_of (sheet_words sheet.now o) at)) ≡ [] }
    requires count_value { count ≡ length (named_fields (value_of [] (list_of field_of (sheet_words sheet.now o) at))) }
    ensures { Gathered work.old work.new (6 * o.layout.words) (slot_pairs (module_of sheet.now o) (named_fields (value_of [] (list_of field_of (sheet_words sheet.now o) at)))) }
{
    let to = 6 * o.layout.words;
    for slot in 0..count {
        let p = at + 1 + 2 * slot;
        put_name(sheet, work, o, p, to + 2 * slot, slot as u32);
    }
}

// Canonical name and function of count methods, in the free words.
fn gather_methods(sheet: &[u8], work: &mut [u32], o: Opened, at: usize, count: usize)
    requires ready { Ready (sheet_words sheet.now o) work.old o }
    requires whole { Whole (list_of method_of (sheet_words sheet.now o) at) }
    requires at_value { methods_faults (module_of sheet.now o) (value_of [] (list_of method_of (sheet_words sheet.now o) at)) ≡ [] }
    requires count_value { count ≡ length (value_of [] (list_of method_of (sheet_words sheet.now o) at)) }
    ensures { Gathered work.old work.new (6 * o.layout.words) (method_pairs (module_of sheet.now o) (value_of [] (list_of method_of (sheet_words sheet.now o) at))) }
{
    let to = 6 * o.layout.words;
    for i in 0..count {
        let p = at + 1 + 2 * i;
        put_name(sheet, work, o, p, to + 2 * i, word(sheet, p + 1));
    }
}

// Write the fields' names; slots from 65,536 on have none.
pub fn write_field_names(
    sheet: &[u8],
    work: &mut [u32],
    o: Opened,
    at_fields: usize,
    table: &mut [u32],
    at: usize,
) -> usize
    requires ready { Ready (sheet_words sheet.now o) work.old o }
    requires whole { Whole (list_of field_of (sheet_words sheet.now o) at_fields) }
    requires at_fields_value { name_faults (module_of sheet.now o) (value_of [] (list_of field_of (sheet_words sheet.now o) at_fields)) ≡ [] }
    requires at_fields_in_bounds { at + length (encode_list encode_pair (field_list (module_of sheet.now o) (value_of [] (list_of field_of (sheet_words sheet.now o) at_fields)))) ≤ length table.old }
    ensures table_after { table.new ≡ written table.old at (encode_list encode_pair (field_list (module_of sheet.now o) (value_of [] (list_of field_of (sheet_words sheet.now o) at_fields)))) }
    ensures value { result ≡ at + length (encode_list encode_pair (field_list (module_of sheet.now o) (value_of [] (list_of field_of (sheet_words sheet.now o) at_fields)))) }
    ensures frame { Frame (λ k. k < 6 * o.layout.words) work.old work.new }
{
    let n = o.layout.words;
    let count = least(65536, word(sheet, at_fields) as usize);
    gather_fields(sheet, work, o, at_fields, count);
    write_sorted(work, 6 * n, count, 7 * n, table, at)
}

// Write the methods' names.
pub fn write_method_names(
    sheet: &[u8],
    work: &mut [u32],
    o: Opened,
    at_methods: usize,
    table: &mut [u32],
    at: usize,
) -> usize
    requires ready { Ready (sheet_words sheet.now o) work.old o }
    requires whole { Whole (list_of method_of (sheet_words sheet.now o) at_methods) }
    requires at_methods_value { methods_faults (module_of sheet.now o) (value_of [] (list_of method_of (sheet_words sheet.now o) at_methods)) ≡ [] }
    requires at_methods_in_bounds { at + length (encode_list encode_pair (method_list (module_of sheet.now o) (value_of [] (list_of method_of (sheet_words sheet.now o) at_methods)))) ≤ length table.old }
    ensures table_after { table.new ≡ written table.old at (encode_list encode_pair (method_list (module_of sheet.now o) (value_of [] (list_of method_of (sheet_words sheet.now o) at_methods)))) }
    ensures value { result ≡ at + length (encode_list encode_pair (method_list (module_of sheet.now o) (value_of [] (list_of method_of (sheet_words sheet.now o) at_methods)))) }
    ensures frame { Frame (λ k. k < 6 * o.layout.words) work.old work.new }
{
    let n = o.layout.words;
    let count = word(sheet, at_methods) as usize;
    gather_methods(sheet, work, o, at_methods, count);
    write_sorted(work, 6 * n, count, 7 * n, table, at)
}
