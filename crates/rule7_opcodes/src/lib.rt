// What each operation code wants besides its fields: whether it terminates, its own rule.
#![tactic(auto)]

ghost use Rattle.std.specs.Prelude.{◌≡◌, ◌<◌};
ghost use Rattle.code.specs.Opcodes.{row};
ghost use Rattle.rule7_opcodes.specs.Rules.{rule_of};

// What an instruction has to keep besides its fields.
#[derive(Clone, Copy)]
pub enum Rule {
    Free,
    NoPromote,
    PromoteToDyn,
    TailCall,
    TailCallIndirect,
    Call,
    CallIndirect,
    CallImport,
    CallShape,
    MakeClosure,
    NewStruct,
    NewArray,
    NewMap,
    NewCell,
    Concatenate,
    Slice,
    NotToRef,
    Catchable,
    WideBits,
}

const TERMINATES: [bool; 35] = [
    true, // 0 Unreachable
    true, // 1 RetVoid
    true, // 2 Ret
    true, // 3 Throw
    true, // 4 Jmp
    false, // 5 branch
    true, // 6 Switch
    true, // 7 TailCall
    true, // 8 TailCallIndirect
    false, // 9 IAdd
    false, // 10 DAdd
    false, // 11 constant
    false, // 12 global
    false, // 13 name
    false, // 14 capture
    false, // 15 Call
    false, // 16 CallIndirect
    false, // 17 DCall
    false, // 18 CoroNewIndirect
    false, // 19 Spawn
    false, // 20 CoroNew
    false, // 21 CallImport
    false, // 22 MakeClosure
    false, // 23 DCallShape
    false, // 24 NewStruct
    false, // 25 NewArray
    false, // 26 NewMap
    false, // 27 NewCell
    false, // 28 StrConcatN
    false, // 29 StrSlice
    false, // 30 FromDyn
    false, // 31 Raise
    false, // 32 FloatToBits
    false, // 33 BitsToFloat
    false, // 34 move
];

const RULES: [Rule; 35] = [
    Rule::Free, // 0 Unreachable
    Rule::Free, // 1 RetVoid
    Rule::Free, // 2 Ret
    Rule::Free, // 3 Throw
    Rule::Free, // 4 Jmp
    Rule::Free, // 5 branch
    Rule::Free, // 6 Switch
    Rule::TailCall, // 7 TailCall
    Rule::TailCallIndirect, // 8 TailCallIndirect
    Rule::NoPromote, // 9 IAdd
    Rule::PromoteToDyn, // 10 DAdd
    Rule::Free, // 11 constant
    Rule::Free, // 12 global
    Rule::Free, // 13 name
    Rule::Free, // 14 capture
    Rule::Call, // 15 Call
    Rule::CallIndirect, // 16 CallIndirect
    Rule::CallIndirect, // 17 DCall
    Rule::CallIndirect, // 18 CoroNewIndirect
    Rule::CallIndirect, // 19 Spawn
    Rule::Call, // 20 CoroNew
    Rule::CallImport, // 21 CallImport
    Rule::MakeClosure, // 22 MakeClosure
    Rule::CallShape, // 23 DCallShape
    Rule::NewStruct, // 24 NewStruct
    Rule::NewArray, // 25 NewArray
    Rule::NewMap, // 26 NewMap
    Rule::NewCell, // 27 NewCell
    Rule::Concatenate, // 28 StrConcatN
    Rule::Slice, // 29 StrSlice
    Rule::NotToRef, // 30 FromDyn
    Rule::Catchable, // 31 Raise
    Rule::WideBits, // 32 FloatToBits
    Rule::WideBits, // 33 BitsToFloat
    Rule::Free, // 34 move
];

// The code ends a run of instructions.
pub fn terminates(code: u32) -> bool
    requires { code < 35 }
    ensures { result ≡ (row code).terminates }
{
    TERMINATES[code as usize]
}

pub fn rule_of(code: u32) -> Rule
    requires { code < 35 }
    ensures { rule_of result ≡ (row code).rule }
{
    RULES[code as usize]
}
