// A function with its parts at hand, for rules over its code.
#![tactic(auto)]

ghost use Rattle.std.specs.Prelude.{◌≡◌, ◌+◌, ◌*◌, ◌<◌};
ghost use Rattle.open_sheet.specs.Ready.{Ready, sheet_words};
ghost use Rattle.region.specs.Region.{Off};
ghost use Rattle.region.specs.Region as region;
ghost use Rattle.rule_frames.specs.Frames.{Framed, Shaped};

use blocks::word;
use error::FuncId;
use open_sheet::{Opened, func_at};
use rule_bodies::{Body, locate_body};

// The function's number, where its parts stand, and how many members each has.
#[derive(Clone, Copy)]
pub struct Frame {
    pub func: FuncId,
    pub body: Body,
    pub regs: u32,
    pub shapes: u32,
    pub captures: u32,
    pub names: u32,
    pub type_refs: u32,
    pub handlers: u32,
    pub tables: u32,
    pub code: u32,
}

// The frame of function f.
pub fn open_frame(sheet: &[u8], work: &[u32], o: Opened, f: FuncId) -> Frame
    requires ready { Ready (sheet_words sheet.now o) work.now o }
    requires f_lt_funcs { f.0 < o.counts.funcs }
    ensures framed { Framed (sheet_words sheet.now o) result }
    ensures func_value { result.func ≡ f }
{
    let body = locate_body(sheet, o.layout.words, func_at(work, o, f));
    Frame {
        func: f,
        body,
        regs: word(sheet, body.regs),
        shapes: word(sheet, body.shapes),
        captures: word(sheet, body.captures),
        names: word(sheet, body.names),
        type_refs: word(sheet, body.type_refs),
        handlers: word(sheet, body.handlers),
        tables: word(sheet, body.tables),
        code: word(sheet, body.code),
    }
}

// Writes the length of each call shape, from word 7 * words of work on, and nothing else.
pub fn index_shapes(sheet: &[u8], work: &mut [u32], o: Opened, c: Frame)
    requires ready { Ready (sheet_words sheet.now o) work.old o }
    requires framed { Framed (sheet_words sheet.now o) c }
    ensures frame { region.Frame (Off (7 * o.layout.words) (7 * o.layout.words + c.shapes)) work.old work.new }
    ensures shaped { Shaped (sheet_words sheet.now o) work.new o c }
{
    let mut p = c.body.shapes + 1;
    for k in 0..c.shapes {
        let n = word(sheet, p);
        work[7 * o.layout.words + k as usize] = n;
        p = p + 1 + 2 * n as usize;
    }
}
