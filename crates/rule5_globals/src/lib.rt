// Rule 5 in code, after the imports: globals.
#![tactic(auto)]

ghost use Rattle.std.specs.Prelude.{◌≡◌};
ghost use Rattle.error.specs.Verdict.{verdict_of, judged_of};
ghost use Rattle.reader.specs.Reader.{list_of};
ghost use Rattle.reader.specs.Value.{Whole, value_of};
ghost use Rattle.sheet.specs.Decode.{global_of};
ghost use Rattle.imports.specs.Imports.{global_faults, globals_faults};
ghost use Rattle.law_judging.specs.Judging.{list_faults};
ghost use Rattle.open_sheet.specs.Ready.{Opens, sheet_words, module_of};
ghost use Rattle.rule5_globals.specs.Globals.{no_global};

use blocks::word;
use error::{ConstId, LoadError, LoadErrorKind, const_in, in_module};
use open_sheet::Opened;
use rule_values::{check_each, check_value};

// A value type, and a constant's number + 1.
fn check_global(sheet: &[u8], o: Opened, at: usize) -> Result<(), LoadErrorKind>
    requires whole { Whole (global_of (sheet_words sheet.now o) at) }
    requires opens { Opens (sheet_words sheet.now o) o }
    ensures { result ≡ verdict_of (global_faults (module_of sheet.now o) (value_of no_global (global_of (sheet_words sheet.now o) at))) }
{
    check_value(sheet, o, at)?;
    let init = word(sheet, at + 1);
    if init == 0 {
        return Ok(());
    }
    const_in(ConstId(init - 1), o.counts.consts)
}

// Globals in order, two words each.
fn check_each_global(sheet: &[u8], o: Opened) -> Result<(), LoadErrorKind>
    requires { Opens (sheet_words sheet.now o) o }
    ensures { result ≡ verdict_of (list_faults (global_faults (module_of sheet.now o)) (list_of global_of (sheet_words sheet.now o) o.layout.globals)) }
{
    let at = o.layout.globals;
    check_each(word(sheet, at), at + 1, 2, |p| check_global(sheet, o, p))
}

pub fn check_globals(sheet: &[u8], o: Opened) -> Result<(), LoadError>
    requires { Opens (sheet_words sheet.now o) o }
    ensures { result ≡ judged_of (globals_faults (module_of sheet.now o)) }
{
    in_module(check_each_global(sheet, o))
}
