// An instruction of two words, and its parts.
#![tactic(auto)]

ghost use Rattle.std.specs.Prelude.{◌≡◌, ◌<◌};
ghost use Rattle.blocks.specs.Frame.{first_words};
ghost use Rattle.reader.specs.Value.{Whole, value_of};
ghost use Rattle.sheet.specs.Module.{opcode, slot_a, slot_b, slot_c, slot_d, slot_w};
ghost use Rattle.sheet.specs.Decode.{inst_of};
ghost use Rattle.code.specs.Code.{unreachable};
ghost use Rattle.rule7_words.specs.Insts.{inst};

use blocks::word;

// An instruction's two words.
#[derive(Clone, Copy)]
pub struct Inst {
    pub low: u32,
    pub high: u32,
}

// The instruction at a position, with a listed code.
pub fn read_inst(sheet: &[u8], n: usize, at: usize) -> Inst
    requires { Whole (inst_of (first_words sheet.now n) at) }
    ensures result_value { inst result ≡ value_of unreachable (inst_of (first_words sheet.now n) at) }
    ensures result_bound { opcode (inst result) < 35 }
{
    Inst {
        low: word(sheet, at),
        high: word(sheet, at + 1),
    }
}

// Bits 0-7, 8-15 and 16-31 of the low word; 0-15, 16-31 and all of the high word.
pub fn opcode(i: Inst) -> u32
    ensures { result ≡ opcode (inst i) }
{
    i.low % 256
}

pub fn slot_d(i: Inst) -> u32
    ensures value { result ≡ slot_d (inst i) }
    ensures upper_bound { result < 256 }
{
    i.low / 256 % 256
}

pub fn slot_a(i: Inst) -> u32
    ensures value { result ≡ slot_a (inst i) }
    ensures upper_bound { result < 65536 }
{
    i.low / 65536
}

pub fn slot_b(i: Inst) -> u32
    ensures value { result ≡ slot_b (inst i) }
    ensures upper_bound { result < 65536 }
{
    i.high % 65536
}

pub fn slot_c(i: Inst) -> u32
    ensures value { result ≡ slot_c (inst i) }
    ensures upper_bound { result < 65536 }
{
    i.high / 65536
}

pub fn slot_w(i: Inst) -> u32
    ensures { result ≡ slot_w (inst i) }
{
    i.high
}
