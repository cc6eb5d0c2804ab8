// The sections of globals of the linked table.
#![tactic(auto)]

ghost use Rattle.std.specs.Prelude.{◌≡◌, [], ◌+◌, ◌≤◌, length};
ghost use Rattle.imports.specs.Imports.{globals_faults};
ghost use Rattle.open_sheet.specs.Ready.{Opens, Ready, sheet_words, module_of};
ghost use Rattle.table.specs.Table.{global_section, reference_section};
ghost use Rattle.writing.specs.Writing.{written};

use open_sheet::Opened;
use table_values::{write_references, write_values};

// The count, then the canonical word of each global's type.
pub fn write_globals(sheet: &[u8], work: &[u32], o: Opened, table: &mut [u32], at: usize) -> usize
    requires ready { Ready (sheet_words sheet.now o) work.now o }
    requires o_value { globals_faults (module_of sheet.now o) ≡ [] }
    requires o_in_bounds { at + length (global_section (module_of sheet.now o)) ≤ length table.old }
    ensures table_after { table.new ≡ written table.old at (global_section (module_of sheet.now o)) }
    ensures value { result ≡ at + length (global_section (module_of sheet.now o)) }
{
    let globals = o.layout.globals;
    let count = o.counts.globals;
    write_values(sheet, work, o, globals + 1, 2, count, table, at)
}

// The count, then the numbers of the globals that hold a reference.
pub fn write_global_references(sheet: &[u8], o: Opened, table: &mut [u32], at: usize) -> usize
    requires opens { Opens (sheet_words sheet.now o) o }
    requires o_in_bounds { at + length (reference_section (module_of sheet.now o)) ≤ length table.old }
    ensures table_after { table.new ≡ written table.old at (reference_section (module_of sheet.now o)) }
    ensures value { result ≡ at + length (reference_section (module_of sheet.now o)) }
{
    let globals = o.layout.globals;
    let count = o.counts.globals;
    write_references(
        sheet,
        o.layout.words,
        globals + 1,
        2,
        count,
        4294967295,
        table,
        at,
    )
}
