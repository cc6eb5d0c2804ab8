// The fields of an instruction, each by its kind.
#![tactic(auto)]

ghost use Rattle.std.specs.Prelude.{◌≡◌, ◌<◌};
ghost use Rattle.error.specs.Verdict.{verdict_of};
ghost use Rattle.sheet.specs.Module.{opcode};
ghost use Rattle.rule7_words.specs.Insts.{inst};
ghost use Rattle.rule7_fields.specs.Fields.{no_faults, kind_faults, slot_of, slot_faults, slots_faults};

use code::FieldKind;
use error::{ConstId, FuncId, LoadErrorKind, What, const_in, func_in, in_range};
use open_sheet::Opened;
use rule_frames::Frame;
use rule7_kinds::{Slot, field_kind, row_kinds};
use rule7_words::{Inst, opcode, slot_a, slot_b, slot_c, slot_w};

// A number of the kind is in range.
#[tactic(auto, using(crate::proofs::FieldSteps::kinds))]
fn check_field(o: Opened, c: Frame, kind: FieldKind, i: u32) -> Result<(), LoadErrorKind>
    ensures { result ≡ verdict_of (kind_faults o c kind i) }
{
    match kind {
        FieldKind::Unused => Ok(()),
        FieldKind::Reg => in_range(What::Registers, c.regs, i),
        FieldKind::Target => in_range(What::BranchTargets, c.code, i),
        FieldKind::Const => const_in(ConstId(i), o.counts.consts),
        FieldKind::Func => func_in(FuncId(i), o.counts.funcs),
        FieldKind::Import => in_range(What::Imports, o.counts.imports, i),
        FieldKind::Global => in_range(What::Globals, o.counts.globals, i),
        FieldKind::Table => in_range(What::Tables, c.tables, i),
        FieldKind::Name => in_range(What::Names, c.names, i),
        FieldKind::TypeRef => in_range(What::TypeRefs, c.type_refs, i),
        FieldKind::Upval => in_range(What::Captures, c.captures, i),
        FieldKind::Shape => in_range(What::CallShapes, c.shapes, i),
    }
}

#[tactic(auto, using(crate::proofs::FieldSteps::values))]
fn slot_value(i: Inst, slot: Slot) -> u32
    ensures { result ≡ slot_of slot (inst i) }
{
    match slot {
        Slot::A => slot_a(i),
        Slot::B => slot_b(i),
        Slot::W => slot_w(i),
        Slot::C => slot_c(i),
    }
}

#[tactic(auto, using(crate::proofs::FieldSteps::slot_judged))]
fn check_slot(o: Opened, c: Frame, i: Inst, slot: Slot) -> Result<(), LoadErrorKind>
    requires { opcode (inst i) < 35 }
    ensures { result ≡ verdict_of (slot_faults o c i slot) }
{
    check_field(o, c, field_kind(opcode(i), slot), slot_value(i, slot))
}

// The slots in order.
pub fn check_fields(o: Opened, c: Frame, i: Inst) -> Result<(), LoadErrorKind>
    requires { opcode (inst i) < 35 }
    ensures { result ≡ verdict_of (slots_faults o c i) }
{
    check_slot(o, c, i, Slot::A)?;
    check_slot(o, c, i, Slot::B)?;
    check_slot(o, c, i, Slot::W)?;
    check_slot(o, c, i, Slot::C)
}

// A number of the kind is in range, tested without naming the fault: apart from `check_field`, since it runs at each instruction.
#[tactic(auto, using(crate::proofs::FieldSteps::tests))]
fn field_holds(o: Opened, c: Frame, kind: FieldKind, i: u32) -> bool
    ensures { result ≡ no_faults (kind_faults o c kind i) }
{
    match kind {
        FieldKind::Unused => true,
        FieldKind::Reg => i < c.regs,
        FieldKind::Target => i < c.code,
        FieldKind::Const => i < o.counts.consts,
        FieldKind::Func => i < o.counts.funcs,
        FieldKind::Import => i < o.counts.imports,
        FieldKind::Global => i < o.counts.globals,
        FieldKind::Table => i < c.tables,
        FieldKind::Name => i < c.names,
        FieldKind::TypeRef => i < c.type_refs,
        FieldKind::Upval => i < c.captures,
        FieldKind::Shape => i < c.shapes,
    }
}

// All slots are in range: the kinds are read once and most instructions need no more.
pub fn fields_hold(o: Opened, c: Frame, i: Inst) -> bool
    requires { opcode (inst i) < 35 }
    ensures { result ≡ no_faults (slots_faults o c i) }
{
    let [a, b, w, d] = row_kinds(opcode(i));
    if !field_holds(o, c, a, slot_a(i)) {
        return false;
    }
    if !field_holds(o, c, b, slot_b(i)) {
        return false;
    }
    if !field_holds(o, c, w, slot_w(i)) {
        return false;
    }
    field_holds(o, c, d, slot_c(i))
}
