// Parameter lists and call shapes in code: `ParamList::validate` and `fits`, `CallShape::validate`.
#![tactic(auto)]

ghost use Rattle.std.specs.Prelude.{◌≡◌, []};
ghost use Rattle.error.specs.Verdict.{verdict_of};
ghost use Rattle.reader.specs.Reader.{list_of};
ghost use Rattle.reader.specs.Value.{Whole, value_of};
ghost use Rattle.sheet.specs.Decode.{value_type, param_list, arg_of};
ghost use Rattle.open_sheet.specs.Ready.{Ready, sheet_words, module_of};
ghost use Rattle.imports.specs.Params.{param_list_faults};
ghost use Rattle.funcs.specs.Shapes.{shape_faults};
ghost use Rattle.law_judging.specs.Judging.{list_faults};

mod references;

use crate::references::references_fit;
use blocks::word;
use error::LoadErrorKind;
use open_sheet::Opened;
use rule_list_marks::are_valid;
use rule_list_members::ListKind;

// The optional parameter list at `at` beside the value types of its signature at `params_at`.
pub fn check_params(
    sheet: &[u8],
    work: &mut [u32],
    o: Opened,
    at: usize,
    params_at: usize,
) -> Result<(), LoadErrorKind>
    requires ready { Ready (sheet_words sheet.now o) work.old o }
    requires whole { Whole (param_list (sheet_words sheet.now o) at) }
    requires whole_2 { Whole (list_of value_type (sheet_words sheet.now o) params_at) }
    ensures value { result ≡ verdict_of (param_list_faults (module_of sheet.now o) (value_of None (param_list (sheet_words sheet.now o) at)) (value_of [] (list_of value_type (sheet_words sheet.now o) params_at))) }
    ensures work_unchanged { work.new ≡ work.old }
{
    if word(sheet, at) == 0 {
        return Ok(());
    }
    let count = word(sheet, at + 1);
    if count != word(sheet, params_at) {
        return Err(LoadErrorKind::BadParamList);
    }
    if !references_fit(sheet, work, o, at + 2, params_at + 1, count) {
        return Err(LoadErrorKind::BadParamList);
    }
    if are_valid(sheet, work, o, ListKind::Params, at + 2, count) {
        return Ok(());
    }
    Err(LoadErrorKind::BadParamList)
}

// The call shape at `at`.
pub fn check_shape(
    sheet: &[u8],
    work: &mut [u32],
    o: Opened,
    at: usize,
) -> Result<(), LoadErrorKind>
    requires ready { Ready (sheet_words sheet.now o) work.old o }
    requires whole { Whole (list_of arg_of (sheet_words sheet.now o) at) }
    ensures value { result ≡ verdict_of (shape_faults (module_of sheet.now o) (value_of [] (list_of arg_of (sheet_words sheet.now o) at))) }
    ensures work_unchanged { work.new ≡ work.old }
{
    if are_valid(sheet, work, o, ListKind::Args, at + 1, word(sheet, at)) {
        return Ok(());
    }
    Err(LoadErrorKind::BadCallShape)
}

// Call shapes in order.
pub fn check_shapes(
    sheet: &[u8],
    work: &mut [u32],
    o: Opened,
    at: usize,
) -> Result<(), LoadErrorKind>
    requires ready { Ready (sheet_words sheet.now o) work.old o }
    requires whole { Whole (list_of (list_of arg_of) (sheet_words sheet.now o) at) }
    ensures value { result ≡ verdict_of (list_faults (shape_faults (module_of sheet.now o)) (list_of (list_of arg_of) (sheet_words sheet.now o) at)) }
    ensures work_unchanged { work.new ≡ work.old }
{
    let mut p = at + 1;
    for _ in 0..word(sheet, at) {
        check_shape(sheet, work, o, p)?;
        p += 1 + 2 * (word(sheet, p) as usize);
    }
    Ok(())
}
