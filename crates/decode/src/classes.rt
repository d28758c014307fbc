// An instruction's place in tables 1 to 4, counted from 0, and the classes that the report names, as ranges of it.
ghost use Rattle.std.specs.Prelude.{◌≡◌};
ghost use Rattle.decode.specs.Mnemonics as m;

use super::{
    Alu, Branch, Immediate, Instruction, Jump, Load, Move, Multiply, Shift, StoreWidth, System,
};

// The places that the tests below and their callers name.
pub const ADDI: u32 = Immediate::Addi as u32;

pub const J: u32 = Jump::J as u32;

pub const JAL: u32 = Jump::Jal as u32;

pub const JALR: u32 = Jump::Jalr as u32;

pub const FLUSH: u32 = System::Flush as u32;

pub const ILLEGAL: u32 = 61;

// ILLEGAL where no row matches.
pub fn number(i: Instruction) -> u32
    ensures { result ≡ m.number i }
{
    match i {
        Instruction::Load(t) => t as u32,
        Instruction::Store(t) => t as u32,
        Instruction::Immediate(t) => t as u32,
        Instruction::Branch(t) => t as u32,
        Instruction::Jump(t) => t as u32,
        Instruction::Shift(t) => t as u32,
        Instruction::Multiply(t) => t as u32,
        Instruction::Move(t) => t as u32,
        Instruction::Alu(t) => t as u32,
        Instruction::System(t) => t as u32,
        Instruction::Illegal => ILLEGAL,
    }
}

pub fn is_load(i: Instruction) -> bool
    ensures { result ≡ m.load i }
{
    matches!(i, Instruction::Load(_))
}

pub fn is_store(i: Instruction) -> bool
    ensures { result ≡ m.store i }
{
    matches!(i, Instruction::Store(_))
}

pub fn is_cas(i: Instruction) -> bool
    ensures { result ≡ m.cas i }
{
    i == Instruction::System(System::Cas)
}

pub fn is_mfence(i: Instruction) -> bool
    ensures { result ≡ m.mfence i }
{
    i == Instruction::System(System::Mfence)
}

pub fn is_flush(i: Instruction) -> bool
    ensures { result ≡ m.flush i }
{
    i == Instruction::System(System::Flush)
}

pub fn is_invlpg(i: Instruction) -> bool
    ensures { result ≡ m.invlpg i }
{
    i == Instruction::System(System::Invlpg)
}

// Tables 3 and 4. The types of instructions are by table (definition 23), so a range of places is the plain form.
pub fn is_rtype(i: Instruction) -> bool
    ensures { result ≡ m.rtype i }
{
    let n = number(i);
    (JAL < n) & (n < ILLEGAL)
}

// Definition 32: a multiplication that writes HI and LO.
pub fn is_mulacc(i: Instruction) -> bool
    ensures { result ≡ m.mulacc i }
{
    match i {
        Instruction::Multiply(t) => t != Multiply::Mul,
        _ => false,
    }
}
