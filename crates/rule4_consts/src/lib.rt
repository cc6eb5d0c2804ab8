// Rule 4 in code: constants in order.
#![tactic(auto)]

ghost use Rattle.std.specs.Prelude.{◌≡◌};
ghost use Rattle.error.specs.Verdict.{verdict_of, judged_of};
ghost use Rattle.consts.specs.Consts.{consts_faults};
ghost use Rattle.open_sheet.specs.Ready.{Ready, Kept, sheet_words, module_of};
ghost use Rattle.rule4_consts.specs.InOrder.{broken_consts};

use error::{ConstId, LoadError, LoadErrorKind, in_module};
use open_sheet::{Opened, const_at};
use rule4_nesting::nest_const;

// Constants in order; the depth of each is stored for those after it.
fn check_each(sheet: &[u8], work: &mut [u32], o: Opened, most: u32) -> Result<(), LoadErrorKind>
    requires { Ready (sheet_words sheet.now o) work.old o }
    ensures value { result ≡ verdict_of (broken_consts most (module_of sheet.now o)) }
    ensures kept { Kept o work.old work.new }
{
    for i in 0..o.counts.consts {
        let c = ConstId(i);
        let depth = nest_const(sheet, work, o, most, c, const_at(work, o, c))?;
        work[5 * o.layout.words + i as usize] = depth;
    }
    Ok(())
}

pub fn check_consts(sheet: &[u8], work: &mut [u32], o: Opened, most: u32) -> Result<(), LoadError>
    requires { Ready (sheet_words sheet.now o) work.old o }
    ensures value { result ≡ judged_of (consts_faults most (module_of sheet.now o)) }
    ensures kept { Kept o work.old work.new }
{
    in_module(check_each(sheet, work, o, most))
}
