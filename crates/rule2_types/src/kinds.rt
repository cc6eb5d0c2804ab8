// Rule 2 by the kind of a type.
ghost use Rattle.std.specs.Prelude.{◌≡◌};
ghost use Rattle.error.specs.Verdict.{verdict_of};
ghost use Rattle.reader.specs.Value.{Whole, value_of};
ghost use Rattle.sheet.specs.Module.{TypeDef, coroutine};
ghost use Rattle.sheet.specs.Decode.{func_type, of_two, type_def};
ghost use Rattle.open_sheet.specs.Ready.{Opens, sheet_words, module_of};
ghost use Rattle.types.specs.Types.{type_faults};

use blocks::word;
use error::LoadErrorKind;
use open_sheet::Opened;
use rule_values::{check_value, check_values};
use rule2_structs::check_struct;

// What follows a func type's kind word: at most one result before anything else, then parameters, then the result.
pub fn check_sig(sheet: &[u8], o: Opened, at: usize) -> Result<(), LoadErrorKind>
    requires whole { Whole (func_type (sheet_words sheet.now o) at) }
    requires opens { Opens (sheet_words sheet.now o) o }
    ensures { result ≡ verdict_of (type_faults (module_of sheet.now o) (value_of coroutine (func_type (sheet_words sheet.now o) at))) }
{
    let params = word(sheet, at);
    let results_at = at + 1 + params as usize;
    let results = word(sheet, results_at);
    if 1 < results {
        return Err(LoadErrorKind::BadSignature);
    }
    check_values(sheet, o, at)?;
    check_values(sheet, o, results_at)
}

// Key before value.
fn check_two(sheet: &[u8], o: Opened, at: usize) -> Result<(), LoadErrorKind>
    requires whole { Whole (of_two TypeDef.map (sheet_words sheet.now o) at) }
    requires opens { Opens (sheet_words sheet.now o) o }
    ensures { result ≡ verdict_of (type_faults (module_of sheet.now o) (value_of coroutine (of_two TypeDef.map (sheet_words sheet.now o) at))) }
{
    check_value(sheet, o, at)?;
    check_value(sheet, o, at + 1)
}

pub fn check_type(sheet: &[u8], o: Opened, at: usize) -> Result<(), LoadErrorKind>
    requires whole { Whole (type_def (sheet_words sheet.now o) at) }
    requires opens { Opens (sheet_words sheet.now o) o }
    ensures { result ≡ verdict_of (type_faults (module_of sheet.now o) (value_of coroutine (type_def (sheet_words sheet.now o) at))) }
{
    match word(sheet, at) {
        0 => check_sig(sheet, o, at + 1),
        1 => check_struct(sheet, o, at + 1),
        2 => check_value(sheet, o, at + 1),
        3 => check_two(sheet, o, at + 1),
        4 => check_value(sheet, o, at + 1),
        5 => check_two(sheet, o, at + 1),
        _ => Ok(()),
    }
}
