// Rule 6 in code: functions by number.
#![tactic(auto)]

ghost use Rattle.std.specs.Prelude.{◌≡◌, [], ◌<◌};
ghost use Rattle.error.specs.Verdict.{verdict_of, judged_of};
ghost use Rattle.open_sheet.specs.Ready.{Ready, sheet_words, module_of};
ghost use Rattle.types.specs.Types.{types_faults};
ghost use Rattle.funcs.specs.Funcs.{func_faults, funcs_faults};
ghost use Rattle.code.specs.Callee.{func_at};

use error::{FuncId, LoadError, LoadErrorKind, in_function};
use open_sheet::Opened;
use rule_frames::open_frame;
use rule6_records::{check_head, check_lists};

// The record of function f.
fn check_func(sheet: &[u8], work: &mut [u32], o: Opened, f: FuncId) -> Result<(), LoadErrorKind>
    requires ready { Ready (sheet_words sheet.now o) work.old o }
    requires o_value { types_faults (module_of sheet.now o) ≡ [] }
    requires f_lt_funcs { f.0 < o.counts.funcs }
    ensures value { result ≡ verdict_of (func_faults (module_of sheet.now o) (func_at (module_of sheet.now o) f.0)) }
    ensures work_unchanged { work.new ≡ work.old }
{
    let c = open_frame(sheet, work, o, f);
    check_head(sheet, work, o, c)?;
    check_lists(sheet, work, o, c)
}

// Functions by number. Rule 2 held: the parameters of a signature are types that are there.
pub fn check_funcs(sheet: &[u8], work: &mut [u32], o: Opened) -> Result<(), LoadError>
    requires ready { Ready (sheet_words sheet.now o) work.old o }
    requires o_value { types_faults (module_of sheet.now o) ≡ [] }
    ensures value { result ≡ judged_of (funcs_faults (module_of sheet.now o)) }
    ensures work_unchanged { work.new ≡ work.old }
{
    for f in 0..o.counts.funcs {
        in_function(check_func(sheet, work, o, FuncId(f)), FuncId(f))?;
    }
    Ok(())
}
