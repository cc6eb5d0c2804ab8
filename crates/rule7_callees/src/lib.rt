// What an instruction names: what it calls, the kinds of types it makes.
#![tactic(auto)]

ghost use Rattle.std.specs.Prelude.{◌≡◌, ◌+◌, ◌*◌, ◌≤◌, ◌<◌, length, get_or};
ghost use Rattle.error.specs.Verdict.{verdict_of};
ghost use Rattle.imports.specs.Params.{sig_params};
ghost use Rattle.open_sheet.specs.Ready.{Ready, sheet_words, module_of};
ghost use Rattle.code.specs.Callee.{func_at};
ghost use Rattle.code.specs.Code.{direct_faults, import_call_faults};
ghost use Rattle.rule_frames.specs.Frames.{func_of};
ghost use Rattle.rule7_callees.specs.Callees.{Checkable};

pub mod kinds;

use blocks::word;
use error::{FuncId, LoadErrorKind, TypeId};
use open_sheet::{Opened, func_at};
use rule_frames::Frame;
use rule_signatures::param_count;
use rule7_arguments::{fewest_arguments, most_arguments};
use rule7_numbers::{check_arity, check_captures, check_window};

// How many captures function g has, as counted in lent words.
pub fn capture_count(work: &[u32], o: Opened, g: FuncId) -> u32
    requires { 4 * o.layout.words + g.0 < length work.now }
    ensures { result ≡ get_or work.now (4 * o.layout.words + g.0) 0 }
{
    work[4 * o.layout.words + g.0 as usize]
}

// How long call shape k is, as measured in lent words.
pub fn shape_length(work: &[u32], o: Opened, k: u32) -> u32
    requires { 7 * o.layout.words + k < length work.now }
    ensures { result ≡ get_or work.now (7 * o.layout.words + k) 0 }
{
    work[7 * o.layout.words + k as usize]
}

// How many parameters function g has: its signature is its first word.
fn callee_params(sheet: &[u8], work: &[u32], o: Opened, g: FuncId) -> u32
    requires ready { Ready (sheet_words sheet.now o) work.now o }
    requires g_lt_funcs { g.0 < o.counts.funcs }
    ensures { result ≡ length (sig_params (module_of sheet.now o) (func_at (module_of sheet.now o) g.0).sig) }
{
    let sig = word(sheet, func_at(work, o, g));
    param_count(sheet, work, o, TypeId(sig))
}

// A direct call of function g with n arguments from the first register on.
pub fn check_direct(
    sheet: &[u8],
    work: &[u32],
    o: Opened,
    c: Frame,
    g: FuncId,
    first: u32,
    n: u32,
) -> Result<(), LoadErrorKind>
    requires checkable { Checkable (sheet_words sheet.now o) work.now o c }
    requires g_lt_funcs { g.0 < o.counts.funcs }
    requires first_bound { first ≤ 65536 }
    requires n_bound { n ≤ 520192 }
    ensures { result ≡ verdict_of (direct_faults (module_of sheet.now o) (func_of (sheet_words sheet.now o) c) g.0 first n) }
{
    check_window(c, first, n)?;
    let params = callee_params(sheet, work, o, g);
    check_arity(params, params, n)?;
    check_captures(capture_count(work, o, g))
}

// A call of import j with n arguments from the first register on.
pub fn check_import(
    sheet: &[u8],
    work: &[u32],
    o: Opened,
    c: Frame,
    j: u32,
    first: u32,
    n: u32,
) -> Result<(), LoadErrorKind>
    requires checkable { Checkable (sheet_words sheet.now o) work.now o c }
    requires j_lt_imports { j < o.counts.imports }
    requires first_bound { first ≤ 65536 }
    requires n_bound { n ≤ 520192 }
    ensures { result ≡ verdict_of (import_call_faults (module_of sheet.now o) (func_of (sheet_words sheet.now o) c) j first n) }
{
    check_window(c, first, n)?;
    let fewest = fewest_arguments(work, o, j);
    let most = most_arguments(sheet, work, o, j);
    check_arity(fewest, most, n)
}
