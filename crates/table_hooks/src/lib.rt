// The section of hooks of the linked table: 31 words, 0 where none is bound.
#![tactic(auto)]

ghost use Rattle.std.specs.Prelude.{◌≡◌, ℕ, ◌+◌, ◌*◌, ◌≤◌, ◌<◌, length, get_or, set};
ghost use Rattle.blocks.specs.Blocks.{words};
ghost use Rattle.region.specs.Region.{Off, Frame, word_at};
ghost use Rattle.writing.specs.Writing.{written};
ghost use Rattle.table.specs.Records.{hook_word};
ghost use Rattle.table.specs.Table.{hook_section};
ghost use Rattle.open_sheet.specs.Ready.{Opens, sheet_words, module_of};
ghost use Rattle.table_imports.specs.Sections.{BindingsFit};
ghost use Rattle.table_hooks.specs.Bound.{bound_word, BindingAt};

use blocks::word;
use open_sheet::Opened;
use region::{fill, put, widen};
use writing::push;

// A binding is a hook, whether it is to an import, and the number: its word goes to its hook's place.
fn put_binding(sheet: &[u8], o: Opened, at: usize, table: &mut [u32], first: usize)
    requires binding_at { BindingAt sheet.now o.layout.words at }
    requires first_in_bounds { first + 31 ≤ length table.old }
    ensures { table.new ≡ set table.old (first + get_or (words sheet.now) at 0) (bound_word sheet.now at) }
{
    let hook = widen(word(sheet, at));
    let kind = widen(word(sheet, at + 1));
    let index = widen(word(sheet, at + 2));
    put(table, first + hook, 1 + kind + 2 * index);
}

// Bindings in order, three words each: the last one of a hook stays.
fn put_bindings(sheet: &[u8], o: Opened, table: &mut [u32], first: usize)
    requires opens { Opens (sheet_words sheet.now o) o }
    requires bindings_fit { BindingsFit (module_of sheet.now o) }
    requires first_in_bounds { first + 31 ≤ length table.old }
    requires by_index { (h : ℕ) → h < 31 → word_at table.old first h ≡ 0 }
    ensures frame { Frame (Off first (first + 31)) table.old table.new }
    ensures by_index_2 { (h : ℕ) → h < 31 → word_at table.new first h ≡ hook_word h 0 (module_of sheet.now o).hooks }
{
    let from = o.layout.hooks;
    let mut p = from + 1;
    for _ in 0..word(sheet, from) {
        put_binding(sheet, o, p, table, first);
        p += 3;
    }
}

// The hook section, from word at of the table on; the answer is the place after it.
pub fn write_hooks(sheet: &[u8], o: Opened, table: &mut [u32], at: usize) -> usize
    requires opens { Opens (sheet_words sheet.now o) o }
    requires bindings_fit { BindingsFit (module_of sheet.now o) }
    requires at_in_bounds { at + 32 ≤ length table.old }
    ensures table_after { table.new ≡ written table.old at (hook_section (module_of sheet.now o)) }
    ensures value { result ≡ at + 32 }
{
    let first = push(table, at, 31);
    fill(table, first, 31, 0);
    put_bindings(sheet, o, table, first);
    first + 31
}
