// Where the ten parts of a function stand.
#![tactic(auto)]

ghost use Rattle.std.specs.Prelude.{◌≡◌, ℕ, ◌+◌, ◌*◌, ◌<◌, length};
ghost use Rattle.blocks.specs.Frame.{first_words};
ghost use Rattle.reader.specs.Value.{Whole, value_of};
ghost use Rattle.sheet.specs.Decode.{function_of};
ghost use Rattle.region.specs.Region.{Off, Frame, word_at};
ghost use Rattle.code.specs.Callee.{no_func, func_at};
ghost use Rattle.rule_bodies.specs.Bodies.{Placed, Fronts, Backs, Countable};
ghost use Rattle.open_sheet.specs.Ready.{sheet_words, module_of};

use blocks::word;
use error::{FuncId, TypeId};
use open_funcs::{skip_shapes, skip_switches};
use open_parts::imports::skip_params;
use open_sheet::{Opened, func_at};
use open_types::skip_values;
use reader::skip_records;

// The signature, and where the other nine stand: lists at their counts, the parameter list at its 0 or 1.
#[derive(Clone, Copy)]
pub struct Body {
    pub sig: TypeId,
    pub regs: usize,
    pub params: usize,
    pub shapes: usize,
    pub captures: usize,
    pub names: usize,
    pub type_refs: usize,
    pub handlers: usize,
    pub tables: usize,
    pub code: usize,
}

// The parts after the registers, up to the names.
#[derive(Clone, Copy)]
pub struct Front {
    pub params: usize,
    pub shapes: usize,
    pub captures: usize,
    pub names: usize,
}

// The parts after the names.
#[derive(Clone, Copy)]
pub struct Back {
    pub type_refs: usize,
    pub handlers: usize,
    pub tables: usize,
    pub code: usize,
}

#[tactic(auto, using(crate::proofs::BodySteps::fronts))]
fn locate_front(sheet: &[u8], n: usize, at: usize) -> Front
    requires { Whole (function_of (first_words sheet.now n) at) }
    ensures { Fronts (first_words sheet.now n) at result }
{
    let params = skip_values(sheet, n, at + 1).unwrap_or(0);
    let shapes = skip_params(sheet, n, params).unwrap_or(0);
    let captures = skip_shapes(sheet, n, shapes).unwrap_or(0);
    let names = skip_values(sheet, n, captures).unwrap_or(0);
    Front {
        params,
        shapes,
        captures,
        names,
    }
}

fn locate_back(sheet: &[u8], n: usize, names: usize) -> Back
    ensures { Backs (first_words sheet.now n) names result }
{
    let type_refs = skip_records(sheet, n, names, 1).unwrap_or(0);
    let handlers = skip_records(sheet, n, type_refs, 1).unwrap_or(0);
    let tables = skip_records(sheet, n, handlers, 4).unwrap_or(0);
    let code = skip_switches(sheet, n, tables).unwrap_or(0);
    Back {
        type_refs,
        handlers,
        tables,
        code,
    }
}

pub fn locate_body(sheet: &[u8], n: usize, at: usize) -> Body
    requires { Whole (function_of (first_words sheet.now n) at) }
    ensures { Placed (first_words sheet.now n) (value_of no_func (function_of (first_words sheet.now n) at)) result }
{
    let front = locate_front(sheet, n, at);
    let back = locate_back(sheet, n, front.names);
    Body {
        sig: TypeId(word(sheet, at)),
        regs: at + 1,
        params: front.params,
        shapes: front.shapes,
        captures: front.captures,
        names: front.names,
        type_refs: back.type_refs,
        handlers: back.handlers,
        tables: back.tables,
        code: back.code,
    }
}

// How many captures a function has: no part after them is passed.
#[tactic(auto, using(crate::proofs::CaptureSteps::captures_counted))]
pub fn captures_count(sheet: &[u8], n: usize, at: usize) -> u32
    requires { Whole (function_of (first_words sheet.now n) at) }
    ensures { result ≡ length (value_of no_func (function_of (first_words sheet.now n) at)).captures }
{
    let front = locate_front(sheet, n, at);
    word(sheet, front.captures)
}

// Writes how many captures each function has, from word 4 * words of work on, and nothing else.
pub fn index_captures(sheet: &[u8], work: &mut [u32], o: Opened)
    requires { Countable (sheet_words sheet.now o) work.old o }
    ensures frame { Frame (Off (4 * o.layout.words) (4 * o.layout.words + o.counts.funcs)) work.old work.new }
    ensures by_index { (f : ℕ) → f < o.counts.funcs → word_at work.new (4 * o.layout.words) f ≡ length (func_at (module_of sheet.now o) f).captures }
{
    let n = o.layout.words;
    let base = 4 * n;
    for f in 0..o.counts.funcs {
        let at = func_at(work, o, FuncId(f));
        work[base + f as usize] = captures_count(sheet, n, at);
    }
}
