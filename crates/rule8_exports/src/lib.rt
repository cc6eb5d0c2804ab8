// Rule 8 in code, after start: exports.
// In edition 2 a mark for each canonical string, from word 6 * words of work on, tells which names the exports before have.
#![tactic(auto)]

ghost use Rattle.std.specs.Prelude.{◌≡◌, ◌+◌, ◌*◌, ◌<◌, length};
ghost use Rattle.error.specs.Verdict.{verdict_of, judged_of};
ghost use Rattle.hooks.specs.Hooks.{export_at, index_faults, name_faults, export_faults, exports_faults};
ghost use Rattle.open_sheet.specs.Ready.{Opens, Ready, Above, sheet_words, module_of};
ghost use Rattle.rule8_exports.specs.Exports.{broken_exports, NamesMarked, MarkedIf, MarkedThen, Naming};

use blocks::word;
use error::{
    FuncId, LoadError, LoadErrorKind, StrId, TypeId, What, func_in, in_module, in_range, type_in,
};
use open_sheet::{Opened, canon_string};
use region::{at, fill, put};
use sheet::reads_export_names;

// Where the export at place i stands: three words each.
fn export_at(o: Opened, i: u32) -> usize
    requires { o.layout.exports + 1 + 3 * i < o.layout.words }
    ensures { result ≡ o.layout.exports + 1 + 3 * i }
{
    o.layout.exports + 1 + 3 * i as usize
}

// The export at place i numbers a function, a global or a type.
fn check_index(sheet: &[u8], o: Opened, i: u32) -> Result<(), LoadErrorKind>
    requires opens { Opens (sheet_words sheet.now o) o }
    requires i_in_bounds { i < length (module_of sheet.now o).exports }
    ensures { result ≡ verdict_of (index_faults (module_of sheet.now o) (export_at (module_of sheet.now o) i)) }
{
    let p = export_at(o, i);
    let index = word(sheet, p + 2);
    match word(sheet, p) {
        0 => func_in(FuncId(index), o.counts.funcs),
        1 => in_range(What::Globals, o.counts.globals, index),
        _ => type_in(TypeId(index), o.counts.types),
    }
}

// The name of the export at place i, a string, has no mark yet: no export before has its bytes. Sets it.
fn mark_name(
    sheet: &[u8],
    work: &mut [u32],
    o: Opened,
    i: u32,
    name: StrId,
) -> Result<(), LoadErrorKind>
    requires { Naming (sheet_words sheet.now o) work.old o i name.0 }
    ensures value { result ≡ verdict_of (name_faults (module_of sheet.now o) i (export_at (module_of sheet.now o) i)) }
    ensures marked_then { MarkedThen result (module_of sheet.now o) (i + 1) work.new (6 * o.layout.words) }
    ensures above { Above o work.old work.new }
{
    let k = 6 * o.layout.words + canon_string(work, o, name).0 as usize;
    if at(work, k) != 0 {
        return Err(LoadErrorKind::DuplicateExport(i));
    }
    put(work, k, 1);
    Ok(())
}

// The name of the export at place i is a string, and no export before has its bytes.
fn check_name(sheet: &[u8], work: &mut [u32], o: Opened, i: u32) -> Result<(), LoadErrorKind>
    requires ready { Ready (sheet_words sheet.now o) work.old o }
    requires i_in_bounds { i < length (module_of sheet.now o).exports }
    requires names_marked { NamesMarked (module_of sheet.now o) i work.old (6 * o.layout.words) }
    ensures value { result ≡ verdict_of (name_faults (module_of sheet.now o) i (export_at (module_of sheet.now o) i)) }
    ensures marked_then { MarkedThen result (module_of sheet.now o) (i + 1) work.new (6 * o.layout.words) }
    ensures above { Above o work.old work.new }
{
    let name = StrId(word(sheet, export_at(o, i) + 1));
    if o.counts.strings <= name.0 {
        return Err(LoadErrorKind::ExportNameOutOfRange(name));
    }
    mark_name(sheet, work, o, i, name)
}

// The export at place i: its index, then its name, where the edition has it read.
fn check_export(sheet: &[u8], work: &mut [u32], o: Opened, i: u32) -> Result<(), LoadErrorKind>
    requires ready { Ready (sheet_words sheet.now o) work.old o }
    requires i_in_bounds { i < length (module_of sheet.now o).exports }
    requires marked_if { MarkedIf (module_of sheet.now o) i work.old (6 * o.layout.words) }
    ensures value { result ≡ verdict_of (export_faults (module_of sheet.now o) i (export_at (module_of sheet.now o) i)) }
    ensures marked_then { MarkedThen result (module_of sheet.now o) (i + 1) work.new (6 * o.layout.words) }
    ensures above { Above o work.old work.new }
{
    check_index(sheet, o, i)?;
    if !reads_export_names(o.edition) {
        return Ok(());
    }
    check_name(sheet, work, o, i)
}

// Exports in order.
fn check_each_export(sheet: &[u8], work: &mut [u32], o: Opened) -> Result<(), LoadErrorKind>
    requires ready { Ready (sheet_words sheet.now o) work.old o }
    requires marked_if { MarkedIf (module_of sheet.now o) 0 work.old (6 * o.layout.words) }
    ensures value { result ≡ verdict_of (broken_exports (module_of sheet.now o)) }
    ensures above { Above o work.old work.new }
{
    for i in 0..word(sheet, o.layout.exports) {
        check_export(sheet, work, o, i)?;
    }
    Ok(())
}

// No mark is set before the first export.
fn clear_marks(sheet: &[u8], work: &mut [u32], o: Opened)
    requires { Ready (sheet_words sheet.now o) work.old o }
    ensures marked_if { MarkedIf (module_of sheet.now o) 0 work.new (6 * o.layout.words) }
    ensures above { Above o work.old work.new }
{
    if reads_export_names(o.edition) {
        fill(work, 6 * o.layout.words, o.counts.strings as usize, 0);
    }
}

pub fn check_exports(sheet: &[u8], work: &mut [u32], o: Opened) -> Result<(), LoadError>
    requires { Ready (sheet_words sheet.now o) work.old o }
    ensures value { result ≡ judged_of (exports_faults (module_of sheet.now o)) }
    ensures above { Above o work.old work.new }
{
    clear_marks(sheet, work, o);
    in_module(check_each_export(sheet, work, o))
}
