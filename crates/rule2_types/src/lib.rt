// Rule 2 in code: types in order.
#![tactic(auto)]

ghost use Rattle.std.specs.Prelude.{◌≡◌};
ghost use Rattle.lists.specs.Lists.{concat_map};
ghost use Rattle.error.specs.Verdict.{verdict_of, judged_of};
ghost use Rattle.open_sheet.specs.Ready.{Ready, sheet_words, module_of};
ghost use Rattle.types.specs.Types.{type_faults, types_faults};

pub mod kinds;

use crate::kinds::check_type;
use error::{LoadError, LoadErrorKind, TypeId, in_module};
use open_sheet::{Opened, type_at};

// Types by number, up to the first that breaks the rule.
fn all_types(sheet: &[u8], work: &[u32], o: Opened) -> Result<(), LoadErrorKind>
    requires { Ready (sheet_words sheet.now o) work.now o }
    ensures { result ≡ verdict_of (concat_map (type_faults (module_of sheet.now o)) (module_of sheet.now o).types) }
{
    for i in 0..o.counts.types {
        check_type(sheet, o, type_at(work, o, TypeId(i)))?;
    }
    Ok(())
}

pub fn check_types(sheet: &[u8], work: &[u32], o: Opened) -> Result<(), LoadError>
    requires { Ready (sheet_words sheet.now o) work.now o }
    ensures { result ≡ judged_of (types_faults (module_of sheet.now o)) }
{
    in_module(all_types(sheet, work, o))
}
