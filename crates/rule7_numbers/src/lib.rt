// Rules over an instruction's numbers alone.
#![tactic(auto)]

ghost use Rattle.std.specs.Prelude.{◌≡◌, ◌≤◌};
ghost use Rattle.error.specs.Answer.{unless};
ghost use Rattle.error.specs.Verdict.{verdict_of};
ghost use Rattle.code.specs.Code.{arity_faults};
ghost use Rattle.rule7_numbers.specs.Numbers.{window_in, capture_faults, promote_faults, dyn_faults, ref_faults, raise_faults, wide_faults, outside_try};

use error::{LoadErrorKind, What};
use rule_frames::Frame;

// So many registers from the first on are in the frame; else the last of them is named.
#[tactic(auto, using(crate::proofs::NumberSteps::windows))]
pub fn check_window(c: Frame, first: u32, n: u32) -> Result<(), LoadErrorKind>
    requires first_bound { first ≤ 65536 }
    requires n_bound { n ≤ 520192 }
    ensures { result ≡ verdict_of (window_in c.regs first n) }
{
    if first + n <= c.regs {
        return Ok(());
    }
    Err(LoadErrorKind::OutOfRange(What::Registers, first + n - 1))
}

// At least and at most so many arguments; of too few the least was expected, of too many the most.
#[tactic(auto, using(crate::proofs::NumberSteps::arities))]
pub fn check_arity(least: u32, most: u32, found: u32) -> Result<(), LoadErrorKind>
    ensures { result ≡ verdict_of (arity_faults least most found) }
{
    if found < least {
        return Err(LoadErrorKind::ArityMismatch {
            expected: least,
            found,
        });
    }
    if most < found {
        return Err(LoadErrorKind::ArityMismatch {
            expected: most,
            found,
        });
    }
    Ok(())
}

// A test that holds, or else is broken by this.
#[tactic(auto, using(crate::proofs::NumberSteps::tests))]
fn unless(holds: bool, kind: LoadErrorKind) -> Result<(), LoadErrorKind>
    ensures { result ≡ verdict_of (unless holds kind) }
{
    if holds { Ok(()) } else { Err(kind) }
}

// The callee has no captures.
pub fn check_captures(captures: u32) -> Result<(), LoadErrorKind>
    ensures { result ≡ verdict_of (capture_faults captures) }
{
    unless(captures == 0, LoadErrorKind::CalleeHasCaptures)
}

// D is not 3, Promote.
pub fn check_promote(d: u32) -> Result<(), LoadErrorKind>
    ensures { result ≡ verdict_of (promote_faults d) }
{
    unless(d != 3, LoadErrorKind::PromoteNotDynamic)
}

// D is not 3, or the register is dyn.
#[tactic(auto, using(crate::proofs::NumberSteps::dyns))]
pub fn check_dyn(is_dyn: bool, d: u32) -> Result<(), LoadErrorKind>
    ensures { result ≡ verdict_of (dyn_faults is_dyn d) }
{
    if is_dyn {
        return Ok(());
    }
    check_promote(d)
}

// D is not 13, Ref.
pub fn check_ref(d: u32) -> Result<(), LoadErrorKind>
    ensures { result ≡ verdict_of (ref_faults d) }
{
    unless(d != 13, LoadErrorKind::BadModifier)
}

// Kinds below 12 can be caught.
pub fn check_raise(d: u32) -> Result<(), LoadErrorKind>
    ensures { result ≡ verdict_of (raise_faults d) }
{
    unless(d < 12, LoadErrorKind::BadModifier)
}

// i32, i64, u32, u64.
#[tactic(auto, using(crate::proofs::NumberSteps::widths))]
pub fn check_wide(d: u32) -> Result<(), LoadErrorKind>
    ensures { result ≡ verdict_of (wide_faults d) }
{
    match d {
        3 | 4 | 7 | 8 => Ok(()),
        _ => Err(LoadErrorKind::BadModifier),
    }
}

// A verdict, and then that no handler covers the instruction.
pub fn outside_try(v: Result<(), LoadErrorKind>, covered: bool) -> Result<(), LoadErrorKind>
    ensures { result ≡ outside_try v covered }
{
    v?;
    unless(!covered, LoadErrorKind::TailCallInTry)
}
