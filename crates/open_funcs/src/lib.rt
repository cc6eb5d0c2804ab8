// Functions.
#![tactic(auto)]

ghost use Rattle.std.specs.Prelude.{◌≡◌};
ghost use Rattle.blocks.specs.Frame.{first_words};
ghost use Rattle.reader.specs.Reader.{word, many, list_of};
ghost use Rattle.reader.specs.Step.{step_of};
ghost use Rattle.sheet.specs.Decode.{switch_of, inst_of, function_of};
ghost use Rattle.open_funcs.specs.Halves.{frame_half, body_of, code_half};

use blocks::word;
use open_parts::imports::skip_params;
use open_types::skip_values;
use reader::{skip_list, skip_records};
use sheet_reader::{next_word, skip_part};

// Call shapes: each a list of kinds and names.
pub fn skip_shapes(sheet: &[u8], n: usize, at: usize) -> Option<usize>
    ensures { result ≡ step_of (list_of (list_of (many 2 word)) (first_words sheet.now n) at) }
{
    skip_list(sheet, n, at, |p| skip_records(sheet, n, p, 2))
}

// A jump table: targets, then the default.
#[tactic(auto, using(crate::proofs::FuncSteps::tables))]
fn skip_switch(sheet: &[u8], n: usize, at: usize) -> Option<usize>
    ensures { result ≡ step_of (switch_of (first_words sheet.now n) at) }
{
    let p = skip_records(sheet, n, at, 1)?;
    let (_, next) = next_word(sheet, n, p)?;
    Some(next)
}

pub fn skip_switches(sheet: &[u8], n: usize, at: usize) -> Option<usize>
    ensures { result ≡ step_of (list_of switch_of (first_words sheet.now n) at) }
{
    skip_list(sheet, n, at, |p| skip_switch(sheet, n, p))
}

// An instruction: two words, the operation code in the low byte.
#[tactic(auto, using(crate::proofs::FuncSteps::insts))]
fn skip_inst(sheet: &[u8], n: usize, at: usize) -> Option<usize>
    ensures { result ≡ step_of (inst_of (first_words sheet.now n) at) }
{
    if n <= at {
        return None;
    }
    if n <= at + 1 {
        return None;
    }
    match word(sheet, at) % 256 {
        0..=34 => Some(at + 2),
        _ => None,
    }
}

fn skip_insts(sheet: &[u8], n: usize, at: usize) -> Option<usize>
    ensures { result ≡ step_of (list_of inst_of (first_words sheet.now n) at) }
{
    skip_list(sheet, n, at, |p| skip_inst(sheet, n, p))
}

// Signature, registers, parameter list, call shapes, captures.
#[tactic(auto, using(crate::proofs::FuncSteps::frames))]
fn skip_frame_half(sheet: &[u8], n: usize, at: usize) -> Option<usize>
    ensures { result ≡ step_of (frame_half (first_words sheet.now n) at) }
{
    if n <= at {
        return None;
    }
    let params = skip_values(sheet, n, at + 1)?;
    let shapes = skip_params(sheet, n, params)?;
    let captures = skip_shapes(sheet, n, shapes)?;
    skip_values(sheet, n, captures)
}

// Jump tables, then code.
#[tactic(auto, using(crate::proofs::FuncSteps::bodies))]
fn skip_body(sheet: &[u8], n: usize, at: usize) -> Option<usize>
    ensures { result ≡ step_of (body_of (first_words sheet.now n) at) }
{
    let code = skip_switches(sheet, n, at)?;
    skip_insts(sheet, n, code)
}

// Names, type refs, handlers, then jump tables and code.
#[tactic(auto, using(crate::proofs::FuncSteps::codes))]
fn skip_code_half(sheet: &[u8], n: usize, at: usize) -> Option<usize>
    ensures { result ≡ step_of (code_half (first_words sheet.now n) at) }
{
    let type_refs = skip_records(sheet, n, at, 1)?;
    let handlers = skip_records(sheet, n, type_refs, 1)?;
    let tables = skip_records(sheet, n, handlers, 4)?;
    skip_body(sheet, n, tables)
}

#[tactic(auto, using(crate::proofs::FuncSteps::functions))]
pub fn skip_function(sheet: &[u8], n: usize, at: usize) -> Option<usize>
    ensures { result ≡ step_of (function_of (first_words sheet.now n) at) }
{
    let code = skip_frame_half(sheet, n, at)?;
    skip_code_half(sheet, n, code)
}

pub fn skip_functions(sheet: &[u8], n: usize, at: usize) -> Option<usize>
    ensures { result ≡ step_of (list_of function_of (first_words sheet.now n) at) }
{
    skip_part(sheet, n, at, |p| skip_function(sheet, n, p))
}
