// Rule 7 in code: functions by number.
#![tactic(auto)]

ghost use Rattle.std.specs.Prelude.{◌≡◌, [], ◌+◌, ◌*◌, ◌≤◌, ◌<◌, length, get_or};
ghost use Rattle.blocks.specs.Blocks.{words};
ghost use Rattle.error.specs.Verdict.{judged_of};
ghost use Rattle.code.specs.Callee.{func_at};
ghost use Rattle.code.specs.Code.{code_faults, codes_faults};
ghost use Rattle.open_sheet.specs.Ready.{Ready, Above, sheet_words, module_of};
ghost use Rattle.rule7_arguments.specs.Arguments.{Tallied};
ghost use Rattle.rule_frames.specs.Frames.{func_of, Framed, Shaped};
ghost use Rattle.rule7_parts.specs.CodeParts.{handlers_faults};
ghost use Rattle.rule7_code.specs.Sweep.{insts_faults, mark_at, Ends, Marked};

use blocks::word;
use error::{FuncId, LoadError, at_position};
use open_sheet::Opened;
use region::fill;
use rule_frames::{Frame, index_shapes, open_frame};
use rule7_inst::check_inst;
use rule7_parts::check_parts;

// The word of a handler's start is its end, if that is larger.
fn mark_handler(sheet: &[u8], work: &mut [u32], o: Opened, c: Frame, at: usize)
    requires at_bound { at + 1 < o.layout.words }
    requires code_in_bounds { 6 * o.layout.words + c.code ≤ length work.old }
    requires at_bound_2 { get_or (words sheet.now) at 0 < c.code }
    ensures { work.new ≡ mark_at sheet.now at work.old (6 * o.layout.words) }
{
    let k = 6 * o.layout.words + word(sheet, at) as usize;
    work[k] = work[k].max(word(sheet, at + 1));
}

// Writes the largest end of the handlers that start at each position, from word 6 * words of work on, and nothing else.
fn mark_handlers(sheet: &[u8], work: &mut [u32], o: Opened, c: Frame)
    requires ready { Ready (sheet_words sheet.now o) work.old o }
    requires framed { Framed (sheet_words sheet.now o) c }
    requires c_value { handlers_faults (func_of (sheet_words sheet.now o) c) ≡ [] }
    requires words_bound { o.layout.words ≤ 520192 }
    ensures { Marked (sheet_words sheet.now o) work.old work.new o c }
{
    fill(work, 6 * o.layout.words, c.code as usize, 0);
    for i in 0..c.handlers {
        mark_handler(sheet, work, o, c, c.body.handlers + 1 + 4 * i as usize);
    }
}

// Each instruction; reach is the largest end of the handlers that start at pc or before it.
fn check_insts(sheet: &[u8], work: &[u32], o: Opened, c: Frame) -> Result<(), LoadError>
    requires ready { Ready (sheet_words sheet.now o) work.now o }
    requires framed { Framed (sheet_words sheet.now o) c }
    requires tallied { Tallied (sheet_words sheet.now o) work.now o }
    requires shaped { Shaped (sheet_words sheet.now o) work.now o c }
    requires words_bound { o.layout.words ≤ 520192 }
    requires func_bound { c.func.0 + 1 < 4294967296 }
    requires ends { Ends (sheet_words sheet.now o) work.now o c }
    ensures { result ≡ judged_of (insts_faults (module_of sheet.now o) c.func.0 (func_of (sheet_words sheet.now o) c)) }
{
    let mut reach: u32 = 0;
    for pc in 0..c.code {
        reach = reach.max(work[6 * o.layout.words + pc as usize]);
        let v = check_inst(
            sheet,
            work,
            o,
            c,
            c.body.code + 1 + 2 * pc as usize,
            pc < reach,
        );
        at_position(v, c.func, pc)?;
    }
    Ok(())
}

// The instructions of a function whose handlers hold.
fn sweep_code(sheet: &[u8], work: &mut [u32], o: Opened, c: Frame) -> Result<(), LoadError>
    requires ready { Ready (sheet_words sheet.now o) work.old o }
    requires tallied { Tallied (sheet_words sheet.now o) work.old o }
    requires framed { Framed (sheet_words sheet.now o) c }
    requires c_value { handlers_faults (func_of (sheet_words sheet.now o) c) ≡ [] }
    requires words_bound { o.layout.words ≤ 520192 }
    ensures value { result ≡ judged_of (insts_faults (module_of sheet.now o) c.func.0 (func_of (sheet_words sheet.now o) c)) }
    ensures above { Above o work.old work.new }
{
    index_shapes(sheet, work, o, c);
    mark_handlers(sheet, work, o, c);
    check_insts(sheet, work, o, c)
}

// Function f: the last instruction, handlers, tables, each instruction.
fn check_code(sheet: &[u8], work: &mut [u32], o: Opened, f: FuncId) -> Result<(), LoadError>
    requires ready { Ready (sheet_words sheet.now o) work.old o }
    requires tallied { Tallied (sheet_words sheet.now o) work.old o }
    requires f_lt_funcs { f.0 < o.counts.funcs }
    requires words_bound { o.layout.words ≤ 520192 }
    ensures value { result ≡ judged_of (code_faults (module_of sheet.now o) f.0 (func_at (module_of sheet.now o) f.0)) }
    ensures above { Above o work.old work.new }
{
    let c = open_frame(sheet, work, o, f);
    check_parts(sheet, o, c)?;
    sweep_code(sheet, work, o, c)
}

// All functions by number. Words of work below 6 * words stay as they are.
pub fn check_codes(sheet: &[u8], work: &mut [u32], o: Opened) -> Result<(), LoadError>
    requires ready { Ready (sheet_words sheet.now o) work.old o }
    requires tallied { Tallied (sheet_words sheet.now o) work.old o }
    requires words_bound { o.layout.words ≤ 520192 }
    ensures value { result ≡ judged_of (codes_faults (module_of sheet.now o)) }
    ensures above { Above o work.old work.new }
{
    for f in 0..o.counts.funcs {
        check_code(sheet, work, o, FuncId(f))?;
    }
    Ok(())
}
