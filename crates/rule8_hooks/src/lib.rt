// Rule 8 in code: hooks.
#![tactic(auto)]

ghost use Rattle.std.specs.Prelude.{◌≡◌, ◌<◌};
ghost use Rattle.error.specs.Verdict.{verdict_of, judged_of};
ghost use Rattle.reader.specs.Reader.{list_of};
ghost use Rattle.reader.specs.Value.{Whole, value_of};
ghost use Rattle.sheet.specs.Decode.{hook_of};
ghost use Rattle.imports.specs.Params.{sig_params, sig_results};
ghost use Rattle.hooks.specs.Hooks.{hook_shape, result_fits, hook_fits, hook_function_faults, hook_import_faults, hook_faults, hooks_faults};
ghost use Rattle.law_judging.specs.Judging.{list_faults};
ghost use Rattle.open_sheet.specs.Ready.{Ready, Captured, sheet_words, module_of};
ghost use Rattle.rule8_hooks.specs.Bindings.{no_hook, params_fit, function_fits, import_fits};

use blocks::word;
use error::{FuncId, LoadError, LoadErrorKind, TypeId, What, func_in, in_module, in_range};
use open_sheet::{Opened, func_at, import_at};
use region::at;
use rule_signatures::{all_dyn, is_one_dyn, param_count, params_at, result_count, results_at};
use rule_values::check_each;
use rule8_shapes::hook_shape;

// Type t has so many parameters, all dyn.
fn params_fit(sheet: &[u8], work: &[u32], o: Opened, t: TypeId, params: u32) -> bool
    requires { Ready (sheet_words sheet.now o) work.now o }
    ensures { result ≡ params_fit params (sig_params (module_of sheet.now o) t.0) }
{
    let count = param_count(sheet, work, o, t);
    if count != params {
        return false;
    }
    count == 0 || all_dyn(sheet, o.layout.words, params_at(sheet, work, o, t))
}

// Type t gives one dyn where there is to be a result, else nothing.
fn result_fits(sheet: &[u8], work: &[u32], o: Opened, t: TypeId, res: bool) -> bool
    requires { Ready (sheet_words sheet.now o) work.now o }
    ensures { result ≡ result_fits res (sig_results (module_of sheet.now o) t.0) }
{
    let count = result_count(sheet, work, o, t);
    if !res {
        return count == 0;
    }
    count == 1 && is_one_dyn(sheet, o.layout.words, results_at(sheet, work, o, t))
}

// Signature t takes and gives what hook h does.
fn hook_fits(sheet: &[u8], work: &[u32], o: Opened, t: TypeId, h: u32) -> bool
    requires ready { Ready (sheet_words sheet.now o) work.now o }
    requires h_bound { h < 31 }
    ensures { result ≡ hook_fits (hook_shape h) (sig_params (module_of sheet.now o) t.0) (sig_results (module_of sheet.now o) t.0) }
{
    let s = hook_shape(h);
    params_fit(sheet, work, o, t, s.params) && result_fits(sheet, work, o, t, s.result)
}

// Function f has no captures, and its signature fits.
fn function_fits(sheet: &[u8], work: &[u32], o: Opened, h: u32, f: FuncId) -> bool
    requires ready { Ready (sheet_words sheet.now o) work.now o }
    requires captured { Captured (sheet_words sheet.now o) work.now o }
    requires h_bound { h < 31 }
    requires f_lt_funcs { f.0 < o.counts.funcs }
    ensures { result ≡ function_fits (module_of sheet.now o) h f.0 }
{
    if at(work, 4 * o.layout.words + f.0 as usize) != 0 {
        return false;
    }
    let sig = TypeId(word(sheet, func_at(work, o, f)));
    hook_fits(sheet, work, o, sig, h)
}

// The signature of an import is the third word of its record.
fn import_fits(sheet: &[u8], work: &[u32], o: Opened, h: u32, i: u32) -> bool
    requires ready { Ready (sheet_words sheet.now o) work.now o }
    requires h_bound { h < 31 }
    requires i_lt_imports { i < o.counts.imports }
    ensures { result ≡ import_fits (module_of sheet.now o) h i }
{
    let sig = TypeId(word(sheet, import_at(work, o, i) + 2));
    hook_fits(sheet, work, o, sig, h)
}

// Hook h is bound to function f.
fn check_bound_function(
    sheet: &[u8],
    work: &[u32],
    o: Opened,
    h: u32,
    f: FuncId,
) -> Result<(), LoadErrorKind>
    requires ready { Ready (sheet_words sheet.now o) work.now o }
    requires captured { Captured (sheet_words sheet.now o) work.now o }
    requires h_bound { h < 31 }
    ensures { result ≡ verdict_of (hook_function_faults (module_of sheet.now o) h f.0) }
{
    func_in(f, o.counts.funcs)?;
    if !function_fits(sheet, work, o, h, f) {
        return Err(LoadErrorKind::BadHook(h));
    }
    Ok(())
}

// Hook h is bound to import i.
fn check_bound_import(
    sheet: &[u8],
    work: &[u32],
    o: Opened,
    h: u32,
    i: u32,
) -> Result<(), LoadErrorKind>
    requires ready { Ready (sheet_words sheet.now o) work.now o }
    requires h_bound { h < 31 }
    ensures { result ≡ verdict_of (hook_import_faults (module_of sheet.now o) h i) }
{
    in_range(What::Imports, o.counts.imports, i)?;
    if !import_fits(sheet, work, o, h, i) {
        return Err(LoadErrorKind::BadHook(h));
    }
    Ok(())
}

// A binding is a hook, whether it is to an import, and the number.
fn check_hook(sheet: &[u8], work: &[u32], o: Opened, at: usize) -> Result<(), LoadErrorKind>
    requires ready { Ready (sheet_words sheet.now o) work.now o }
    requires captured { Captured (sheet_words sheet.now o) work.now o }
    requires whole { Whole (hook_of (sheet_words sheet.now o) at) }
    ensures { result ≡ verdict_of (hook_faults (module_of sheet.now o) (value_of no_hook (hook_of (sheet_words sheet.now o) at))) }
{
    let h = word(sheet, at);
    let index = word(sheet, at + 2);
    match word(sheet, at + 1) {
        0 => check_bound_function(sheet, work, o, h, FuncId(index)),
        _ => check_bound_import(sheet, work, o, h, index),
    }
}

// Bindings in order, three words each.
fn check_each_hook(sheet: &[u8], work: &[u32], o: Opened) -> Result<(), LoadErrorKind>
    requires ready { Ready (sheet_words sheet.now o) work.now o }
    requires captured { Captured (sheet_words sheet.now o) work.now o }
    ensures { result ≡ verdict_of (list_faults (hook_faults (module_of sheet.now o)) (list_of hook_of (sheet_words sheet.now o) o.layout.hooks)) }
{
    let from = o.layout.hooks;
    check_each(
        word(sheet, from),
        from + 1,
        3,
        |p| check_hook(sheet, work, o, p),
    )
}

pub fn check_hooks(sheet: &[u8], work: &[u32], o: Opened) -> Result<(), LoadError>
    requires ready { Ready (sheet_words sheet.now o) work.now o }
    requires captured { Captured (sheet_words sheet.now o) work.now o }
    ensures { result ≡ judged_of (hooks_faults (module_of sheet.now o)) }
{
    in_module(check_each_hook(sheet, work, o))
}
