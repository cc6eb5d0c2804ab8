// Value types, and lists of them.
#![tactic(auto)]

ghost use Rattle.std.specs.Prelude.{◌≡◌, ℕ, List, ◌+◌, ◌*◌, ◌^◌, ◌<◌};
ghost use Rattle.error.specs.declared.LoadErrorKind.{LoadErrorKind};
ghost use Rattle.error.specs.Verdict.{Verdict, verdict_of};
ghost use Rattle.reader.specs.Reader.{list_of};
ghost use Rattle.reader.specs.Value.{Whole, value_of};
ghost use Rattle.sheet.specs.Module.{dyn};
ghost use Rattle.sheet.specs.Decode.{value_type};
ghost use Rattle.open_sheet.specs.Ready.{Opens, sheet_words, module_of};
ghost use Rattle.types.specs.Types.{value_faults};
ghost use Rattle.law_judging.specs.Judging.{list_faults};
ghost use Rattle.law_judging.specs.Each.{each_faults};

pub mod numbers;

use blocks::word;
use error::{LoadErrorKind, TypeId, type_in};
use open_sheet::Opened;

// Members by position, each of `size` words, up to the first that breaks a rule.
pub fn check_each<F: Fn(usize) -> Result<(), LoadErrorKind>>(
    count: u32,
    from: usize,
    size: usize,
    check: F,
) -> Result<(), LoadErrorKind>
    ghost faults: { ℕ → List LoadErrorKind }
    requires room { from + size * count < 2 ^ 64 }
    requires callable { (i : ℕ) → i < count → F.pre check (from + size * i) }
    requires verdicts { (i : ℕ) (r : Verdict) → i < count → F.post check (from + size * i) r → r ≡ verdict_of (faults (from + size * i)) }
    ensures { result ≡ verdict_of (each_faults faults size count from) }
{
    for i in 0..count {
        check(from + size * i as usize)?;
    }
    Ok(())
}

// A reference is to one of the types.
pub fn check_value(sheet: &[u8], o: Opened, at: usize) -> Result<(), LoadErrorKind>
    requires whole { Whole (value_type (sheet_words sheet.now o) at) }
    requires opens { Opens (sheet_words sheet.now o) o }
    ensures { result ≡ verdict_of (value_faults (module_of sheet.now o) (value_of dyn (value_type (sheet_words sheet.now o) at))) }
{
    let w = word(sheet, at);
    if w < 16 {
        return Ok(());
    }
    type_in(TypeId(w - 16), o.counts.types)
}

// Value types in order, each a word.
pub fn check_values(sheet: &[u8], o: Opened, at: usize) -> Result<(), LoadErrorKind>
    requires whole { Whole (list_of value_type (sheet_words sheet.now o) at) }
    requires opens { Opens (sheet_words sheet.now o) o }
    ensures { result ≡ verdict_of (list_faults (value_faults (module_of sheet.now o)) (list_of value_type (sheet_words sheet.now o) at)) }
{
    check_each(word(sheet, at), at + 1, 1, |p| check_value(sheet, o, p))
}
