// What rules 5 to 8 ask of a signature type.
#![tactic(auto)]

ghost use Rattle.std.specs.Prelude.{◌≡◌, [], length};
ghost use Rattle.lists.specs.Lists.{all_of};
ghost use Rattle.blocks.specs.Frame.{first_words};
ghost use Rattle.error.specs.Verdict.{verdict_of};
ghost use Rattle.reader.specs.Reader.{list_of};
ghost use Rattle.reader.specs.Value.{Whole, value_of};
ghost use Rattle.sheet.specs.Module.{is_dyn, coroutine, sig_of};
ghost use Rattle.sheet.specs.Decode.{value_type, type_def};
ghost use Rattle.imports.specs.Params.{is_signature, signature_faults, sig_params, sig_results};
ghost use Rattle.imports.specs.Imports.{one_dyn};
ghost use Rattle.open_sheet.specs.Ready.{Ready, sheet_words, module_of};
ghost use Rattle.rule_signatures.specs.Signature.{HasSig};

use blocks::word;
use error::{LoadErrorKind, TypeId, type_in};
use open_sheet::{Opened, type_at};

// How many parameters the type at a position has; one that is no func type has none.
fn params_in(sheet: &[u8], n: usize, at: usize) -> u32
    requires { Whole (type_def (first_words sheet.now n) at) }
    ensures { result ≡ length (sig_of (value_of coroutine (type_def (first_words sheet.now n) at))).params }
{
    if word(sheet, at) != 0 {
        return 0;
    }
    word(sheet, at + 1)
}

// The results stand after the parameters, each a word.
fn results_in(sheet: &[u8], n: usize, at: usize) -> u32
    requires { Whole (type_def (first_words sheet.now n) at) }
    ensures { result ≡ length (sig_of (value_of coroutine (type_def (first_words sheet.now n) at))).results }
{
    if word(sheet, at) != 0 {
        return 0;
    }
    let params = word(sheet, at + 1) as usize;
    word(sheet, at + 2 + params)
}

// A func type with at most one result.
fn is_signature(sheet: &[u8], n: usize, at: usize) -> bool
    requires { Whole (type_def (first_words sheet.now n) at) }
    ensures { result ≡ is_signature (value_of coroutine (type_def (first_words sheet.now n) at)) }
{
    word(sheet, at) == 0 && results_in(sheet, n, at) <= 1
}

// There is a type t, and it is a signature.
pub fn check_signature(
    sheet: &[u8],
    work: &[u32],
    o: Opened,
    t: TypeId,
) -> Result<(), LoadErrorKind>
    requires { Ready (sheet_words sheet.now o) work.now o }
    ensures { result ≡ verdict_of (signature_faults (module_of sheet.now o) t.0) }
{
    type_in(t, o.counts.types)?;
    if is_signature(sheet, o.layout.words, type_at(work, o, t)) {
        return Ok(());
    }
    Err(LoadErrorKind::BadSignature)
}

// How many parameters and results type t has: none where it is no func type, or there is no such type.
pub fn param_count(sheet: &[u8], work: &[u32], o: Opened, t: TypeId) -> u32
    requires { Ready (sheet_words sheet.now o) work.now o }
    ensures { result ≡ length (sig_params (module_of sheet.now o) t.0) }
{
    if o.counts.types <= t.0 {
        return 0;
    }
    params_in(sheet, o.layout.words, type_at(work, o, t))
}

pub fn result_count(sheet: &[u8], work: &[u32], o: Opened, t: TypeId) -> u32
    requires { Ready (sheet_words sheet.now o) work.now o }
    ensures { result ≡ length (sig_results (module_of sheet.now o) t.0) }
{
    if o.counts.types <= t.0 {
        return 0;
    }
    results_in(sheet, o.layout.words, type_at(work, o, t))
}

// Where the parameters and the results of func type t stand.
pub fn params_at(sheet: &[u8], work: &[u32], o: Opened, t: TypeId) -> usize
    requires ready { Ready (sheet_words sheet.now o) work.now o }
    requires has_sig { HasSig (module_of sheet.now o) t.0 }
    ensures whole { Whole (list_of value_type (sheet_words sheet.now o) result) }
    ensures result_value { value_of [] (list_of value_type (sheet_words sheet.now o) result) ≡ sig_params (module_of sheet.now o) t.0 }
{
    type_at(work, o, t) + 1
}

pub fn results_at(sheet: &[u8], work: &[u32], o: Opened, t: TypeId) -> usize
    requires ready { Ready (sheet_words sheet.now o) work.now o }
    requires has_sig { HasSig (module_of sheet.now o) t.0 }
    ensures whole { Whole (list_of value_type (sheet_words sheet.now o) result) }
    ensures result_value { value_of [] (list_of value_type (sheet_words sheet.now o) result) ≡ sig_results (module_of sheet.now o) t.0 }
{
    let p = type_at(work, o, t);
    let params = word(sheet, p + 1) as usize;
    p + 2 + params
}

// One value type, and it is dyn.
pub fn is_one_dyn(sheet: &[u8], n: usize, at: usize) -> bool
    requires { Whole (list_of value_type (first_words sheet.now n) at) }
    ensures { result ≡ one_dyn (value_of [] (list_of value_type (first_words sheet.now n) at)) }
{
    word(sheet, at) == 1 && word(sheet, at + 1) == 12
}

// Every value type of the list is dyn.
pub fn all_dyn(sheet: &[u8], n: usize, at: usize) -> bool
    requires { Whole (list_of value_type (first_words sheet.now n) at) }
    ensures { result ≡ all_of is_dyn (value_of [] (list_of value_type (first_words sheet.now n) at)) }
{
    let mut p = at + 1;
    for _ in 0..word(sheet, at) {
        if word(sheet, p) != 12 {
            return false;
        }
        p += 1;
    }
    true
}
