// Rule 7 before the instructions: the last one, handlers, tables.
#![tactic(auto)]

ghost use Rattle.std.specs.Prelude.{◌≡◌, ◌+◌, ◌*◌, ◌≤◌, ◌<◌, length, get_or};
ghost use Rattle.blocks.specs.Blocks.{words};
ghost use Rattle.error.specs.declared.What.TheVariants.{TableTargets};
ghost use Rattle.error.specs.Answer.{in_range};
ghost use Rattle.error.specs.Verdict.{verdict_of, judged_of};
ghost use Rattle.reader.specs.Value.{Whole, value_of};
ghost use Rattle.sheet.specs.Decode.{handler_of, switch_of};
ghost use Rattle.code.specs.Code.{is_dyn_register, good_handler, handler_faults, table_faults, last_faults};
ghost use Rattle.rule_frames.specs.Frames.{func_of, Framed};
ghost use Rattle.rule7_parts.specs.CodeParts.{no_handler, no_switch, handlers_faults, tables_faults, parts_faults};
ghost use Rattle.open_sheet.specs.Ready.{sheet_words};

use blocks::word;
use error::{LoadError, LoadErrorKind, What, at_position, in_function, in_range};
use open_sheet::Opened;
use rule_frames::Frame;
use rule_values::check_each;
use rule7_opcodes::terminates;
use rule7_words::{opcode, read_inst};

// There is code, and its last instruction terminates.
fn check_last(sheet: &[u8], o: Opened, c: Frame) -> Result<(), LoadError>
    requires func_bound { c.func.0 + 1 < 4294967296 }
    requires framed { Framed (sheet_words sheet.now o) c }
    requires words_bound { o.layout.words ≤ 520192 }
    ensures { result ≡ judged_of (last_faults c.func.0 (func_of (sheet_words sheet.now o) c)) }
{
    if c.code == 0 {
        return in_function(Err(LoadErrorKind::EmptyCode), c.func);
    }
    let last = c.code - 1;
    let i = read_inst(sheet, o.layout.words, c.body.code + 1 + 2 * last as usize);
    if terminates(opcode(i)) {
        return Ok(());
    }
    at_position(Err(LoadErrorKind::FallsThrough), c.func, last)
}

// Register r holds dyn.
fn dyn_register(sheet: &[u8], o: Opened, c: Frame, r: u32) -> bool
    requires framed { Framed (sheet_words sheet.now o) c }
    requires r_lt_regs { r < c.regs }
    ensures { result ≡ is_dyn_register (func_of (sheet_words sheet.now o) c) r }
{
    word(sheet, c.body.regs + 1 + r as usize) == 12
}

// Start below end, end within the code, target and catch in range.
#[tactic(auto, using(crate::proofs::HandlerSteps::handling))]
fn good_handler(sheet: &[u8], o: Opened, c: Frame, at: usize) -> bool
    requires framed { Framed (sheet_words sheet.now o) c }
    requires whole { Whole (handler_of (sheet_words sheet.now o) at) }
    ensures { result ≡ good_handler (func_of (sheet_words sheet.now o) c) (value_of no_handler (handler_of (sheet_words sheet.now o) at)) }
{
    let end = word(sheet, at + 1);
    let target = word(sheet, at + 2);
    let catch = word(sheet, at + 3);
    if end <= word(sheet, at) {
        return false;
    }
    if c.code < end {
        return false;
    }
    if c.code <= target {
        return false;
    }
    catch < c.regs
}

// The frame of the handler, then the type of the register that catches.
#[tactic(auto, using(crate::proofs::HandlerSteps::handling))]
fn check_handler(sheet: &[u8], o: Opened, c: Frame, at: usize) -> Result<(), LoadErrorKind>
    requires framed { Framed (sheet_words sheet.now o) c }
    requires whole { Whole (handler_of (sheet_words sheet.now o) at) }
    ensures { result ≡ verdict_of (handler_faults (func_of (sheet_words sheet.now o) c) (value_of no_handler (handler_of (sheet_words sheet.now o) at))) }
{
    if !good_handler(sheet, o, c, at) {
        return Err(LoadErrorKind::InvalidHandler);
    }
    if !dyn_register(sheet, o, c, word(sheet, at + 3)) {
        return Err(LoadErrorKind::CatchNotDyn);
    }
    Ok(())
}

fn check_handlers(sheet: &[u8], o: Opened, c: Frame) -> Result<(), LoadErrorKind>
    requires { Framed (sheet_words sheet.now o) c }
    ensures { result ≡ verdict_of (handlers_faults (func_of (sheet_words sheet.now o) c)) }
{
    check_each(c.handlers, c.body.handlers + 1, 4, |p| {
        check_handler(sheet, o, c, p)
    })
}

// The target at a place.
fn check_target(sheet: &[u8], o: Opened, c: Frame, at: usize) -> Result<(), LoadErrorKind>
    requires { Framed (sheet_words sheet.now o) c }
    ensures { result ≡ verdict_of (in_range TableTargets (length (func_of (sheet_words sheet.now o) c).code) (get_or (words sheet.now) at 0)) }
{
    in_range(What::TableTargets, c.code, word(sheet, at))
}

// Targets, and the default after them.
fn check_table(sheet: &[u8], o: Opened, c: Frame, at: usize) -> Result<(), LoadErrorKind>
    requires framed { Framed (sheet_words sheet.now o) c }
    requires whole { Whole (switch_of (sheet_words sheet.now o) at) }
    ensures { result ≡ verdict_of (table_faults (func_of (sheet_words sheet.now o) c) (value_of no_switch (switch_of (sheet_words sheet.now o) at))) }
{
    let count = word(sheet, at);
    check_each(count, at + 1, 1, |p| check_target(sheet, o, c, p))?;
    check_target(sheet, o, c, at + 1 + count as usize)
}

fn check_tables(sheet: &[u8], o: Opened, c: Frame) -> Result<(), LoadErrorKind>
    requires framed { Framed (sheet_words sheet.now o) c }
    requires words_bound { o.layout.words ≤ 520192 }
    ensures { result ≡ verdict_of (tables_faults (func_of (sheet_words sheet.now o) c)) }
{
    let mut p = c.body.tables + 1;
    for _ in 0..c.tables {
        check_table(sheet, o, c, p)?;
        p += 2 + word(sheet, p) as usize;
    }
    Ok(())
}

// The last instruction, handlers, tables.
pub fn check_parts(sheet: &[u8], o: Opened, c: Frame) -> Result<(), LoadError>
    requires func_bound { c.func.0 + 1 < 4294967296 }
    requires framed { Framed (sheet_words sheet.now o) c }
    requires words_bound { o.layout.words ≤ 520192 }
    ensures { result ≡ judged_of (parts_faults c.func.0 (func_of (sheet_words sheet.now o) c)) }
{
    check_last(sheet, o, c)?;
    in_function(check_handlers(sheet, o, c), c.func)?;
    in_function(check_tables(sheet, o, c), c.func)
}
