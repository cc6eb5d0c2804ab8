// Hooks and exports.
ghost use Rattle.std.specs.Prelude.{◌≡◌};
ghost use Rattle.blocks.specs.Frame.{first_words};
ghost use Rattle.reader.specs.Reader.{list_of};
ghost use Rattle.reader.specs.Step.{step_of};
ghost use Rattle.sheet.specs.Decode.{hook_of, export_of};

use blocks::word;
use sheet_reader::skip_part;

// A hook, 0 function or 1 import, an index.
#[tactic(auto, using(crate::proofs::TailSteps::hooks))]
fn skip_hook(sheet: &[u8], n: usize, at: usize) -> Option<usize>
    ensures { result ≡ step_of (hook_of (first_words sheet.now n) at) }
{
    if n <= at {
        return None;
    }
    if n - at <= 2 {
        return None;
    }
    if word(sheet, at) < 31 && word(sheet, at + 1) < 2 {
        Some(at + 3)
    } else {
        None
    }
}

pub fn skip_hooks(sheet: &[u8], n: usize, at: usize) -> Option<usize>
    ensures { result ≡ step_of (list_of hook_of (first_words sheet.now n) at) }
{
    skip_part(sheet, n, at, |p| skip_hook(sheet, n, p))
}

// 0 function, 1 global or 2 type; a name, an index.
#[tactic(auto, using(crate::proofs::TailSteps::exports))]
fn skip_export(sheet: &[u8], n: usize, at: usize) -> Option<usize>
    ensures { result ≡ step_of (export_of (first_words sheet.now n) at) }
{
    if n <= at {
        return None;
    }
    if n - at <= 2 {
        return None;
    }
    match word(sheet, at) {
        0..=2 => Some(at + 3),
        _ => None,
    }
}

pub fn skip_exports(sheet: &[u8], n: usize, at: usize) -> Option<usize>
    ensures { result ≡ step_of (list_of export_of (first_words sheet.now n) at) }
{
    skip_part(sheet, n, at, |p| skip_export(sheet, n, p))
}
