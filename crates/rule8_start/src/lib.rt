// Rule 8 in code, after the hooks: start.
#![tactic(auto)]

ghost use Rattle.std.specs.Prelude.{◌≡◌, ◌+◌, ◌<◌};
ghost use Rattle.error.specs.Verdict.{verdict_of, judged_of};
ghost use Rattle.code.specs.Callee.{func_at};
ghost use Rattle.hooks.specs.Hooks.{is_start, start_at_faults, start_faults};
ghost use Rattle.open_sheet.specs.Ready.{Ready, Captured, sheet_words, module_of};

use blocks::word;
use error::{FuncId, LoadError, LoadErrorKind, TypeId, func_in, in_module};
use open_sheet::{Opened, func_at};
use region::at;
use rule_signatures::{param_count, result_count};

// Function f takes nothing and gives nothing.
fn is_start(sheet: &[u8], work: &[u32], o: Opened, f: FuncId) -> bool
    requires ready { Ready (sheet_words sheet.now o) work.now o }
    requires f_lt_funcs { f.0 < o.counts.funcs }
    ensures { result ≡ is_start (module_of sheet.now o) (func_at (module_of sheet.now o) f.0) }
{
    let sig = TypeId(word(sheet, func_at(work, o, f)));
    param_count(sheet, work, o, sig) == 0 && result_count(sheet, work, o, sig) == 0
}

// The start function is there, takes and gives nothing, and has no captures.
fn check_start_function(
    sheet: &[u8],
    work: &[u32],
    o: Opened,
    f: FuncId,
) -> Result<(), LoadErrorKind>
    requires ready { Ready (sheet_words sheet.now o) work.now o }
    requires captured { Captured (sheet_words sheet.now o) work.now o }
    ensures { result ≡ verdict_of (start_at_faults (module_of sheet.now o) (f.0 + 1)) }
{
    func_in(f, o.counts.funcs)?;
    if !is_start(sheet, work, o, f) {
        return Err(LoadErrorKind::BadStart);
    }
    if at(work, 4 * o.layout.words + f.0 as usize) != 0 {
        return Err(LoadErrorKind::CalleeHasCaptures);
    }
    Ok(())
}

// The start word is a function's number + 1.
pub fn check_start(sheet: &[u8], work: &[u32], o: Opened) -> Result<(), LoadError>
    requires ready { Ready (sheet_words sheet.now o) work.now o }
    requires captured { Captured (sheet_words sheet.now o) work.now o }
    ensures { result ≡ judged_of (start_faults (module_of sheet.now o)) }
{
    let start = word(sheet, o.layout.start);
    if start == 0 {
        return Ok(());
    }
    in_module(check_start_function(sheet, work, o, FuncId(start - 1)))
}
