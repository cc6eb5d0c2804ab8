// The kinds of each operation code's slots.
#![tactic(auto)]

ghost use Rattle.std.specs.Prelude.{◌≡◌, ◌<◌};
ghost use Rattle.code.specs.Opcodes.{row};
ghost use Rattle.rule7_kinds.specs.Slots.{kind_in, slots_of};

use code::FieldKind;
use code::FieldKind::{
    Const, Func, Global, Import, Name, Reg, Shape, Table, Target, TypeRef, Unused, Upval,
};

// The slots that number something.
#[derive(Clone, Copy)]
pub enum Slot {
    A,
    B,
    W,
    C,
}

// A, B, W, C of each code.
const FIELDS: [[FieldKind; 4]; 35] = [
    [Unused, Unused, Unused, Unused], // 0 Unreachable
    [Unused, Unused, Unused, Unused], // 1 RetVoid
    [Reg, Unused, Unused, Unused], // 2 Ret
    [Reg, Unused, Unused, Unused], // 3 Throw
    [Unused, Unused, Target, Unused], // 4 Jmp
    [Reg, Unused, Target, Unused], // 5 branch
    [Reg, Unused, Table, Unused], // 6 Switch
    [Reg, Unused, Func, Unused], // 7 TailCall
    [Reg, Reg, Unused, Unused], // 8 TailCallIndirect
    [Reg, Reg, Unused, Reg], // 9 IAdd
    [Reg, Reg, Unused, Reg], // 10 DAdd
    [Reg, Unused, Const, Unused], // 11 constant
    [Reg, Unused, Global, Unused], // 12 global
    [Reg, Reg, Unused, Name], // 13 name
    [Reg, Upval, Unused, Unused], // 14 capture
    [Reg, Unused, Func, Unused], // 15 Call
    [Reg, Reg, Unused, Unused], // 16 CallIndirect
    [Reg, Reg, Unused, Unused], // 17 DCall
    [Reg, Reg, Unused, Unused], // 18 CoroNewIndirect
    [Reg, Reg, Unused, Unused], // 19 Spawn
    [Reg, Unused, Func, Unused], // 20 CoroNew
    [Reg, Unused, Import, Unused], // 21 CallImport
    [Reg, Unused, Func, Unused], // 22 MakeClosure
    [Reg, Shape, Unused, Unused], // 23 DCallShape
    [Reg, TypeRef, Unused, Unused], // 24 NewStruct
    [Reg, TypeRef, Unused, Unused], // 25 NewArray
    [Reg, TypeRef, Unused, Unused], // 26 NewMap
    [Reg, TypeRef, Unused, Unused], // 27 NewCell
    [Reg, Reg, Unused, Unused], // 28 StrConcatN
    [Reg, Reg, Unused, Reg], // 29 StrSlice
    [Reg, Reg, Unused, Unused], // 30 FromDyn
    [Reg, Unused, Unused, Unused], // 31 Raise
    [Reg, Reg, Unused, Unused], // 32 FloatToBits
    [Reg, Reg, Unused, Unused], // 33 BitsToFloat
    [Reg, Reg, Unused, Unused], // 34 move
];

// The kind of a code's slot.
pub fn field_kind(code: u32, slot: Slot) -> FieldKind
    requires { code < 35 }
    ensures { result ≡ kind_in (row code) slot }
{
    FIELDS[code as usize][slot as usize]
}

// The kinds of all slots of a code, taken in one read.
pub fn row_kinds(code: u32) -> [FieldKind; 4]
    requires { code < 35 }
    ensures { result ≡ slots_of (row code) }
{
    FIELDS[code as usize]
}
