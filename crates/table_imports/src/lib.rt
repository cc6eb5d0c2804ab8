// Two sections of the linked table: imports with the places that stand in work, canonical numbers.
#![tactic(auto)]

ghost use Rattle.std.specs.Prelude.{◌≡◌, ◌+◌, ◌*◌, ◌≤◌, ◌<◌, length, get_or};
ghost use Rattle.writing.specs.Writing.{written};
ghost use Rattle.table.specs.Table.{canon_section};
ghost use Rattle.open_sheet.specs.Ready.{Ready, sheet_words, module_of};
ghost use Rattle.table_imports.specs.Sections.{each_of, linked_import, linked_imports, SigsInside, canon_of};

use error::TypeId;
use open_sheet::{Opened, canon_type};
use rule5_imports::import_sig;
use writing::{push, push_all};

// The place of import i in the host list, as it stands in work.
fn host_entry(work: &[u32], o: Opened, i: u32) -> u32
    requires { 5 * o.layout.words + i < length work.now }
    ensures { result ≡ get_or work.now (5 * o.layout.words + i) 0 }
{
    work[5 * o.layout.words + i as usize]
}

// Canonical signature, host entry.
fn write_import(
    sheet: &[u8],
    work: &[u32],
    o: Opened,
    i: u32,
    table: &mut [u32],
    at: usize,
) -> usize
    requires ready { Ready (sheet_words sheet.now o) work.now o }
    requires sigs_inside { SigsInside (module_of sheet.now o) }
    requires i_lt_imports { i < o.counts.imports }
    requires at_in_bounds { at + 2 ≤ length table.old }
    ensures table_after { table.new ≡ written table.old at (linked_import (sheet_words sheet.now o) work.now o i) }
    ensures value { result ≡ at + 2 }
{
    let stored = import_sig(sheet, work, o, i);
    let sig = canon_type(work, o, stored);
    let host = host_entry(work, o, i);
    push_all(table, at, [sig.0, host])
}

// Imports in order.
fn write_each_import(sheet: &[u8], work: &[u32], o: Opened, table: &mut [u32], at: usize) -> usize
    requires ready { Ready (sheet_words sheet.now o) work.now o }
    requires sigs_inside { SigsInside (module_of sheet.now o) }
    requires imports_in_bounds { at + length (each_of (linked_import (sheet_words sheet.now o) work.now o) o.counts.imports) ≤ length table.old }
    ensures table_after { table.new ≡ written table.old at (each_of (linked_import (sheet_words sheet.now o) work.now o) o.counts.imports) }
    ensures value { result ≡ at + length (each_of (linked_import (sheet_words sheet.now o) work.now o) o.counts.imports) }
{
    let mut p = at;
    for i in 0..o.counts.imports {
        p = write_import(sheet, work, o, i, table, p);
    }
    p
}

// The import section, from word at of the table on; the answer is the place after it.
pub fn write_imports(sheet: &[u8], work: &[u32], o: Opened, table: &mut [u32], at: usize) -> usize
    requires ready { Ready (sheet_words sheet.now o) work.now o }
    requires sigs_inside { SigsInside (module_of sheet.now o) }
    requires o_in_bounds { at + length (linked_imports (sheet_words sheet.now o) work.now o) ≤ length table.old }
    ensures table_after { table.new ≡ written table.old at (linked_imports (sheet_words sheet.now o) work.now o) }
    ensures value { result ≡ at + length (linked_imports (sheet_words sheet.now o) work.now o) }
{
    let first = push(table, at, o.counts.imports);
    write_each_import(sheet, work, o, table, first)
}

// Types in order: the canonical number of each.
fn write_each_canon(sheet: &[u8], work: &[u32], o: Opened, table: &mut [u32], at: usize) -> usize
    requires ready { Ready (sheet_words sheet.now o) work.now o }
    requires types_in_bounds { at + length (each_of (canon_of (module_of sheet.now o).types) o.counts.types) ≤ length table.old }
    ensures table_after { table.new ≡ written table.old at (each_of (canon_of (module_of sheet.now o).types) o.counts.types) }
    ensures value { result ≡ at + length (each_of (canon_of (module_of sheet.now o).types) o.counts.types) }
{
    let mut p = at;
    for i in 0..o.counts.types {
        let t = canon_type(work, o, TypeId(i));
        p = push(table, p, t.0);
    }
    p
}

// The canonical numbers of all types, from word at of the table on; the answer is the place after them.
pub fn write_canon(sheet: &[u8], work: &[u32], o: Opened, table: &mut [u32], at: usize) -> usize
    requires ready { Ready (sheet_words sheet.now o) work.now o }
    requires o_in_bounds { at + 1 + length (module_of sheet.now o).types ≤ length table.old }
    ensures table_after { table.new ≡ written table.old at (canon_section (module_of sheet.now o)) }
    ensures value { result ≡ at + 1 + length (module_of sheet.now o).types }
{
    let first = push(table, at, o.counts.types);
    write_each_canon(sheet, work, o, table, first)
}
