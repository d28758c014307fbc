// How an instruction word is shown: the mnemonic and the operands of the row of tables 1 to 4 that it meets
// (specs/Syntax.antt). The row is found by opcode and function code and, where the tables print one, by rs or rt. 01
// asks for a mnemonic chosen so, which is why the decoder is not asked; both are held to the same tables. The range at
// the end of a match begins at the first code that no row has, and takes every code that no arm before it has.
#![tactic(auto)]

mod mnemonics;

ghost use Rattle.std.specs.Prelude.{◌≡◌};
ghost use Rattle.decode.specs.Table.{decoded, row_of};
ghost use Rattle.forms.specs.Syntax.{syntax_of};
ghost use Rattle.forms.specs.inner.Forms.{form_of};

use self::Operand::{Iindex, Imm, Rd, Rs, Rt, Sa, Uimm};
use self::OperandList::{None, One, Three, Two};

// What an instruction's syntax names: a register, the shift amount, the immediate, signed or unsigned, or the jump
// index.
#[derive(Clone, Copy, Debug, PartialEq, Eq)]
pub enum Operand {
    Rs,
    Rt,
    Rd,
    Sa,
    Imm,
    Uimm,
    Iindex,
}

// Up to three of them, in the order in which they are shown. An array of options would admit a gap before one.
#[derive(Clone, Copy, Debug, PartialEq, Eq)]
pub enum OperandList {
    None,
    One(Operand),
    Two(Operand, Operand),
    Three(Operand, Operand, Operand),
}

// How an instruction is shown: its mnemonic, filled up with zeros to six bytes, and its operands. The fields have no
// names, so that each row of the tables stands in one line below, as it is printed.
#[derive(Clone, Copy)]
pub struct Form(pub [u8; 6], pub OperandList);

// Table 3: opcode 000000, by the function code.
fn special(fun: u32) -> Form
    ensures { result ≡ form_of (syntax_of (row_of 0 fun 0 0)) }
{
    match fun {
        0b000000 => Form(mnemonics::SLL, Three(Rd, Rt, Sa)),
        0b000010 => Form(mnemonics::SRL, Three(Rd, Rt, Sa)),
        0b000011 => Form(mnemonics::SRA, Three(Rd, Rt, Sa)),
        0b000100 => Form(mnemonics::SLLV, Three(Rd, Rt, Rs)),
        0b000110 => Form(mnemonics::SRLV, Three(Rd, Rt, Rs)),
        0b000111 => Form(mnemonics::SRAV, Three(Rd, Rt, Rs)),
        0b001000 => Form(mnemonics::JR, One(Rs)),
        0b001001 => Form(mnemonics::JALR, Two(Rd, Rs)),
        0b001100 => Form(mnemonics::SYSC, None),
        0b010000 => Form(mnemonics::MFHI, One(Rd)),
        0b010001 => Form(mnemonics::MTHI, One(Rs)),
        0b010010 => Form(mnemonics::MFLO, One(Rd)),
        0b010011 => Form(mnemonics::MTLO, One(Rs)),
        0b011000 => Form(mnemonics::MULT, Two(Rs, Rt)),
        0b011001 => Form(mnemonics::MULTU, Two(Rs, Rt)),
        0b100000 => Form(mnemonics::ADD, Three(Rd, Rs, Rt)),
        0b100001 => Form(mnemonics::ADDU, Three(Rd, Rs, Rt)),
        0b100010 => Form(mnemonics::SUB, Three(Rd, Rs, Rt)),
        0b100011 => Form(mnemonics::SUBU, Three(Rd, Rs, Rt)),
        0b100100 => Form(mnemonics::AND, Three(Rd, Rs, Rt)),
        0b100101 => Form(mnemonics::OR, Three(Rd, Rs, Rt)),
        0b100110 => Form(mnemonics::XOR, Three(Rd, Rs, Rt)),
        0b100111 => Form(mnemonics::NOR, Three(Rd, Rs, Rt)),
        0b101010 => Form(mnemonics::SLT, Three(Rd, Rs, Rt)),
        0b101011 => Form(mnemonics::SLTU, Three(Rd, Rs, Rt)),
        0b111100 => Form(mnemonics::INVLPG, Two(Rd, Rs)),
        0b111101 => Form(mnemonics::FLUSH, None),
        0b111110 => Form(mnemonics::MFENCE, None),
        0b111111 => Form(mnemonics::CAS, Three(Rd, Rs, Rt)),
        0b000001.. => Form(mnemonics::ILL, None),
    }
}

// Table 4: opcode 011100, by the function code.
fn multiplication(fun: u32) -> Form
    ensures { result ≡ form_of (syntax_of (row_of 28 fun 0 0)) }
{
    match fun {
        0b000000 => Form(mnemonics::MADD, Two(Rs, Rt)),
        0b000001 => Form(mnemonics::MADDU, Two(Rs, Rt)),
        0b000010 => Form(mnemonics::MUL, Three(Rd, Rs, Rt)),
        0b000100 => Form(mnemonics::MSUB, Two(Rs, Rt)),
        0b000101 => Form(mnemonics::MSUBU, Two(Rs, Rt)),
        0b000011.. => Form(mnemonics::ILL, None),
    }
}

// Table 4: opcode 010000, by rs and for eret the function code.
fn coprocessor(fun: u32, rs: u32) -> Form
    ensures { result ≡ form_of (syntax_of (row_of 16 fun rs 0)) }
{
    match rs {
        0b00000 => Form(mnemonics::MOVS2G, Two(Rd, Rt)),
        0b00100 => Form(mnemonics::MOVG2S, Two(Rd, Rt)),
        0b10000 => {
            if fun == 0b011000 {
                Form(mnemonics::ERET, None)
            } else {
                Form(mnemonics::ILL, None)
            }
        }
        0b00001.. => Form(mnemonics::ILL, None),
    }
}

// Table 1: opcode 000001, by rt.
fn sign_branch(rt: u32) -> Form
    ensures { result ≡ form_of (syntax_of (row_of 1 0 0 rt)) }
{
    match rt {
        0b00000 => Form(mnemonics::BLTZ, Two(Rs, Imm)),
        0b00001 => Form(mnemonics::BGEZ, Two(Rs, Imm)),
        0b00010.. => Form(mnemonics::ILL, None),
    }
}

// How the word is shown.
pub fn form_of(w: u32) -> Form
    ensures { result ≡ form_of (syntax_of (decoded w)) }
{
    let opcode = (w >> 26) % 64;
    let rt = (w >> 16) % 32;
    match opcode {
        0b000000 => special(w % 64),
        0b000001 => sign_branch(rt),
        0b000010 => Form(mnemonics::J, One(Iindex)),
        0b000011 => Form(mnemonics::JAL, One(Iindex)),
        0b000100 => Form(mnemonics::BEQ, Three(Rs, Rt, Imm)),
        0b000101 => Form(mnemonics::BNE, Three(Rs, Rt, Imm)),
        0b000110 => {
            if rt == 0 {
                Form(mnemonics::BLEZ, Two(Rs, Imm))
            } else {
                Form(mnemonics::ILL, None)
            }
        }
        0b000111 => {
            if rt == 0 {
                Form(mnemonics::BGTZ, Two(Rs, Imm))
            } else {
                Form(mnemonics::ILL, None)
            }
        }
        0b001000 => Form(mnemonics::ADDI, Three(Rt, Rs, Imm)),
        0b001001 => Form(mnemonics::ADDIU, Three(Rt, Rs, Imm)),
        0b001010 => Form(mnemonics::SLTI, Three(Rt, Rs, Imm)),
        0b001011 => Form(mnemonics::SLTIU, Three(Rt, Rs, Imm)),
        0b001100 => Form(mnemonics::ANDI, Three(Rt, Rs, Uimm)),
        0b001101 => Form(mnemonics::ORI, Three(Rt, Rs, Uimm)),
        0b001110 => Form(mnemonics::XORI, Three(Rt, Rs, Uimm)),
        0b001111 => Form(mnemonics::LUI, Two(Rt, Uimm)),
        0b010000 => coprocessor(w % 64, (w >> 21) % 32),
        0b011100 => multiplication(w % 64),
        0b100000 => Form(mnemonics::LB, Three(Rt, Rs, Imm)),
        0b100001 => Form(mnemonics::LH, Three(Rt, Rs, Imm)),
        0b100011 => Form(mnemonics::LW, Three(Rt, Rs, Imm)),
        0b100100 => Form(mnemonics::LBU, Three(Rt, Rs, Imm)),
        0b100101 => Form(mnemonics::LHU, Three(Rt, Rs, Imm)),
        0b101000 => Form(mnemonics::SB, Three(Rt, Rs, Imm)),
        0b101001 => Form(mnemonics::SH, Three(Rt, Rs, Imm)),
        0b101011 => Form(mnemonics::SW, Three(Rt, Rs, Imm)),
        0b010001.. => Form(mnemonics::ILL, None),
    }
}
