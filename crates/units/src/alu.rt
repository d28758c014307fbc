// The ALU: its result by the control bits, overflow by the instruction.
ghost use Rattle.std.specs.Prelude.{◌≡◌, ◌<◌, ◌^◌};
ghost use Rattle.units.specs.Alu.{alures, alucon, con_low, con_high};
ghost use Rattle.units.specs.Overflow as s;

use decode::{Alu, Immediate, Instruction};

fn control_low(rtype: bool, w: u32) -> u32
    ensures { (result ≡ con_low rtype w) × (result < 8) }
{
    if rtype { w % 8 } else { (w >> 26) % 8 }
}

fn control_high(rtype: bool, w: u32) -> bool
    ensures { result ≡ con_high rtype w }
{
    rtype & ((w >> 3) % 2 == 1) | !((w >> 28) % 2 == 1) & ((w >> 27) % 2 == 1)
}

pub fn control(rtype: bool, w: u32) -> u32
    ensures { result ≡ alucon rtype w }
{
    let low = control_low(rtype, w);
    if control_high(rtype, w) { 8 + low } else { low }
}

fn nor_or_high(a: u32, b: u32, itype: bool) -> u32
    ensures { result ≡ alures a b 7 itype }
{
    if itype {
        b % 0x1_0000 * 0x1_0000
    } else {
        word::nor(a, b)
    }
}

pub fn result(a: u32, b: u32, con: u32, itype: bool) -> u32
    ensures { result ≡ alures a b con itype }
{
    match con {
        0b0000 => word::add(a, b),
        0b0001 => word::add(a, b),
        0b0010 => word::sub(a, b),
        0b0011 => word::sub(a, b),
        0b0100 => a & b,
        0b0101 => a | b,
        0b0110 => a ^ b,
        0b0111 => nor_or_high(a, b, itype),
        0b1010 => word::flag(word::less(a, b)),
        0b1011 => word::flag(a < b),
        _ => 0,
    }
}

pub fn overflow(i: Instruction, a: u32, b: u32) -> bool
    ensures { result ≡ s.overflow i a b }
{
    if (i == Instruction::Alu(Alu::Add)) | (i == Instruction::Immediate(Immediate::Addi)) {
        return word::sum_overflows(a, b);
    }
    if i == Instruction::Alu(Alu::Sub) {
        return word::difference_overflows(a, b);
    }
    false
}
