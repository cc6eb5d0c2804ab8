// Rule 6 on a function's record: signature, registers and parameters, then the four lists.
#![tactic(auto)]

ghost use Rattle.std.specs.Prelude.{◌≡◌, [], ◌<◌};
ghost use Rattle.error.specs.Verdict.{verdict_of};
ghost use Rattle.open_sheet.specs.Ready.{Opens, Ready, sheet_words, module_of};
ghost use Rattle.types.specs.Types.{types_faults};
ghost use Rattle.rule_signatures.specs.Signature.{HasSig};
ghost use Rattle.rule_frames.specs.Frames.{func_of, Framed};
ghost use Rattle.rule6_records.specs.Records.{registers_faults, params_faults, head_faults, tail_faults, lists_faults};

use error::{LoadErrorKind, What};
use open_sheet::Opened;
use rule_frames::Frame;
use rule_lists::{check_params, check_shapes};
use rule_signatures::{check_signature, params_at};
use rule_values::check_values;
use rule_values::numbers::{check_strings, check_type_refs};
use rule6_registers::params_first;

// Register types, then their number.
fn check_registers(sheet: &[u8], o: Opened, c: Frame) -> Result<(), LoadErrorKind>
    requires opens { Opens (sheet_words sheet.now o) o }
    requires framed { Framed (sheet_words sheet.now o) c }
    ensures { result ≡ verdict_of (registers_faults (module_of sheet.now o) (func_of (sheet_words sheet.now o) c)) }
{
    check_values(sheet, o, c.body.regs)?;
    if 65536 < c.regs {
        return Err(LoadErrorKind::OutOfRange(What::Registers, c.regs));
    }
    Ok(())
}

// The signature's parameters are the first registers, and fit the parameter list.
fn check_sig_params(
    sheet: &[u8],
    work: &mut [u32],
    o: Opened,
    c: Frame,
) -> Result<(), LoadErrorKind>
    requires ready { Ready (sheet_words sheet.now o) work.old o }
    requires framed { Framed (sheet_words sheet.now o) c }
    requires o_value { types_faults (module_of sheet.now o) ≡ [] }
    requires has_sig { HasSig (module_of sheet.now o) c.body.sig.0 }
    requires c_value { registers_faults (module_of sheet.now o) (func_of (sheet_words sheet.now o) c) ≡ [] }
    ensures value { result ≡ verdict_of (params_faults (module_of sheet.now o) (func_of (sheet_words sheet.now o) c)) }
    ensures work_unchanged { work.new ≡ work.old }
{
    let p = params_at(sheet, work, o, c.body.sig);
    if !params_first(sheet, work, o, p, c.body.regs) {
        return Err(LoadErrorKind::ParamMismatch);
    }
    check_params(sheet, work, o, c.body.params, p)
}

// Signature, registers, parameters.
pub fn check_head(sheet: &[u8], work: &mut [u32], o: Opened, c: Frame) -> Result<(), LoadErrorKind>
    requires ready { Ready (sheet_words sheet.now o) work.old o }
    requires framed { Framed (sheet_words sheet.now o) c }
    requires o_value { types_faults (module_of sheet.now o) ≡ [] }
    ensures value { result ≡ verdict_of (head_faults (module_of sheet.now o) (func_of (sheet_words sheet.now o) c)) }
    ensures work_unchanged { work.new ≡ work.old }
{
    check_signature(sheet, work, o, c.body.sig)?;
    check_registers(sheet, o, c)?;
    check_sig_params(sheet, work, o, c)
}

// Captures, names, type refs.
fn check_tail(sheet: &[u8], o: Opened, c: Frame) -> Result<(), LoadErrorKind>
    requires opens { Opens (sheet_words sheet.now o) o }
    requires framed { Framed (sheet_words sheet.now o) c }
    ensures { result ≡ verdict_of (tail_faults (module_of sheet.now o) (func_of (sheet_words sheet.now o) c)) }
{
    check_values(sheet, o, c.body.captures)?;
    check_strings(sheet, o, c.body.names)?;
    check_type_refs(sheet, o, c.body.type_refs)
}

// Call shapes, then the lists after them.
pub fn check_lists(sheet: &[u8], work: &mut [u32], o: Opened, c: Frame) -> Result<(), LoadErrorKind>
    requires ready { Ready (sheet_words sheet.now o) work.old o }
    requires framed { Framed (sheet_words sheet.now o) c }
    ensures value { result ≡ verdict_of (lists_faults (module_of sheet.now o) (func_of (sheet_words sheet.now o) c)) }
    ensures work_unchanged { work.new ≡ work.old }
{
    check_shapes(sheet, work, o, c.body.shapes)?;
    check_tail(sheet, o, c)
}
