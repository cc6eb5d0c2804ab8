// Imports and globals.
ghost use Rattle.std.specs.Prelude.{◌≡◌};
ghost use Rattle.blocks.specs.Frame.{first_words};
ghost use Rattle.reader.specs.Reader.{list_of};
ghost use Rattle.reader.specs.Step.{step_of};
ghost use Rattle.sheet.specs.Decode.{param_list, import_of, global_of};

use blocks::word;
use open_types::skip_value;
use reader::skip_records;
use sheet_reader::skip_part;

// 0, or 1 and a list of flags and names.
#[tactic(auto, using(crate::proofs::ConstSteps::params))]
pub fn skip_params(sheet: &[u8], n: usize, at: usize) -> Option<usize>
    ensures { result ≡ step_of (param_list (first_words sheet.now n) at) }
{
    if n <= at {
        return None;
    }
    match word(sheet, at) {
        0 => Some(at + 1),
        1 => skip_records(sheet, n, at + 1, 2),
        _ => None,
    }
}

// Module, name and signature, then an optional parameter list.
#[tactic(auto, using(crate::proofs::ConstSteps::imports))]
pub fn skip_import(sheet: &[u8], n: usize, at: usize) -> Option<usize>
    ensures { result ≡ step_of (import_of (first_words sheet.now n) at) }
{
    if n <= at {
        return None;
    }
    if n - at <= 2 {
        return None;
    }
    skip_params(sheet, n, at + 3)
}

pub fn skip_imports(sheet: &[u8], n: usize, at: usize) -> Option<usize>
    ensures { result ≡ step_of (list_of import_of (first_words sheet.now n) at) }
{
    skip_part(sheet, n, at, |p| skip_import(sheet, n, p))
}

// A value type, then a constant + 1.
#[tactic(auto, using(crate::proofs::ConstSteps::globals))]
fn skip_global(sheet: &[u8], n: usize, at: usize) -> Option<usize>
    ensures { result ≡ step_of (global_of (first_words sheet.now n) at) }
{
    let p = skip_value(sheet, n, at)?;
    if n <= p {
        return None;
    }
    Some(p + 1)
}

pub fn skip_globals(sheet: &[u8], n: usize, at: usize) -> Option<usize>
    ensures { result ≡ step_of (list_of global_of (first_words sheet.now n) at) }
{
    skip_part(sheet, n, at, |p| skip_global(sheet, n, p))
}
