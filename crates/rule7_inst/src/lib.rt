// Rule 7 for one instruction: its fields, then its own rule.
#![tactic(auto)]

ghost use Rattle.std.specs.Prelude.{◌≡◌, ◌++◌, ◌≤◌};
ghost use Rattle.error.specs.Verdict.{verdict_of};
ghost use Rattle.reader.specs.Value.{Whole, value_of};
ghost use Rattle.sheet.specs.Module.{opcode};
ghost use Rattle.sheet.specs.Decode.{inst_of};
ghost use Rattle.open_sheet.specs.Ready.{Ready, sheet_words, module_of};
ghost use Rattle.code.specs.Opcodes.{row};
ghost use Rattle.code.specs.Code.{fields_faults, rule_faults, unreachable};
ghost use Rattle.rule7_words.specs.Insts.{inst};
ghost use Rattle.rule7_opcodes.specs.Rules.{rule_of};
ghost use Rattle.rule7_arguments.specs.Arguments.{Tallied};
ghost use Rattle.rule_frames.specs.Frames.{func_of, Framed, Shaped};
ghost use Rattle.rule7_callees.specs.Callees.{Checkable};
ghost use Rattle.rule7_inst.specs.Counted.{Reached, rule_in};

use blocks::word;
use error::{FuncId, LoadErrorKind, TypeKind};
use open_sheet::Opened;
use rule_frames::Frame;
use rule7_callees::kinds::check_kind;
use rule7_callees::{capture_count, check_direct, check_import, shape_length};
use rule7_fields::{check_fields, fields_hold};
use rule7_numbers::{
    check_dyn, check_promote, check_raise, check_ref, check_wide, check_window, outside_try,
};
use rule7_opcodes::{Rule, rule_of};
use rule7_words::{Inst, opcode, read_inst, slot_a, slot_b, slot_c, slot_d, slot_w};

// An instruction's own rule, its fields in range.
fn check_rule(
    sheet: &[u8],
    work: &[u32],
    o: Opened,
    c: Frame,
    i: Inst,
    rule: Rule,
    covered: bool,
) -> Result<(), LoadErrorKind>
    requires checkable { Checkable (sheet_words sheet.now o) work.now o c }
    requires reached { Reached o c (inst i) (rule_of rule) }
    ensures { result ≡ verdict_of (rule_in (sheet_words sheet.now o) c covered i rule) }
{
    let a = slot_a(i);
    let b = slot_b(i);
    let d = slot_d(i);
    let w = slot_w(i);
    match rule {
        Rule::Free => Ok(()),
        Rule::NoPromote => check_promote(d),
        Rule::PromoteToDyn => check_dyn(word(sheet, c.body.regs + 1 + a as usize) == 12, d),
        Rule::TailCall => outside_try(check_direct(sheet, work, o, c, FuncId(w), a, d), covered),
        Rule::TailCallIndirect => outside_try(check_window(c, a, d), covered),
        Rule::Call => check_direct(sheet, work, o, c, FuncId(w), a + 1, d),
        Rule::CallIndirect => check_window(c, a + 1, d),
        Rule::CallImport => check_import(sheet, work, o, c, w, a + 1, d),
        Rule::CallShape => check_window(c, a + 1, shape_length(work, o, b)),
        Rule::MakeClosure => check_window(c, a + 1, capture_count(work, o, FuncId(w))),
        Rule::Concatenate => check_window(c, b, d),
        Rule::Slice => check_window(c, slot_c(i), 2),
        Rule::NotToRef => check_ref(d),
        Rule::Catchable => check_raise(d),
        Rule::WideBits => check_wide(d),
        Rule::NewStruct => check_kind(sheet, work, o, c, b, TypeKind::Struct),
        Rule::NewArray => check_kind(sheet, work, o, c, b, TypeKind::Array),
        Rule::NewMap => check_kind(sheet, work, o, c, b, TypeKind::Map),
        Rule::NewCell => check_kind(sheet, work, o, c, b, TypeKind::Cell),
    }
}

// The instruction at a position of the frame's function; covered: a handler covers it.
pub fn check_inst(
    sheet: &[u8],
    work: &[u32],
    o: Opened,
    c: Frame,
    at: usize,
    covered: bool,
) -> Result<(), LoadErrorKind>
    requires ready { Ready (sheet_words sheet.now o) work.now o }
    requires framed { Framed (sheet_words sheet.now o) c }
    requires tallied { Tallied (sheet_words sheet.now o) work.now o }
    requires shaped { Shaped (sheet_words sheet.now o) work.now o c }
    requires words_bound { o.layout.words ≤ 520192 }
    requires whole { Whole (inst_of (sheet_words sheet.now o) at) }
    ensures { result ≡ verdict_of (fields_faults (module_of sheet.now o) (func_of (sheet_words sheet.now o) c) (row (opcode (value_of unreachable (inst_of (sheet_words sheet.now o) at)))) (value_of unreachable (inst_of (sheet_words sheet.now o) at)) ++ rule_faults (module_of sheet.now o) (func_of (sheet_words sheet.now o) c) covered (value_of unreachable (inst_of (sheet_words sheet.now o) at)) (row (opcode (value_of unreachable (inst_of (sheet_words sheet.now o) at)))).rule) }
{
    let i = read_inst(sheet, o.layout.words, at);
    if fields_hold(o, c, i) {
        let rule = rule_of(opcode(i));
        return check_rule(sheet, work, o, c, i, rule, covered);
    }
    check_fields(o, c, i)
}
