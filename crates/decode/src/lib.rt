// Instructions, by the sections of tables 1 to 4, and the code that finds a word's. An instruction's discriminant is
// its place in the tables, counted from 0.
#![tactic(auto)]

pub mod classes;
pub mod fields;

ghost use Rattle.std.specs.Prelude.{◌≡◌, ◌<◌};
ghost use Rattle.decode.specs.Table.{decoded, row_of};

#[derive(Clone, Copy, Debug, PartialEq, Eq)]
pub enum Load {
    Lb = 0,
    Lh,
    Lw,
    Lbu,
    Lhu,
}

#[derive(Clone, Copy, Debug, PartialEq, Eq)]
pub enum StoreWidth {
    Sb = 5,
    Sh,
    Sw,
}

#[derive(Clone, Copy, Debug, PartialEq, Eq)]
pub enum Immediate {
    Addi = 8,
    Addiu,
    Slti,
    Sltiu,
    Andi,
    Ori,
    Xori,
    Lui,
}

#[derive(Clone, Copy, Debug, PartialEq, Eq)]
pub enum Branch {
    Bltz = 16,
    Bgez,
    Beq,
    Bne,
    Blez,
    Bgtz,
}

#[derive(Clone, Copy, Debug, PartialEq, Eq)]
pub enum Jump {
    J = 22,
    Jal,
    Jr = 46,
    Jalr,
}

#[derive(Clone, Copy, Debug, PartialEq, Eq)]
pub enum Shift {
    Sll = 24,
    Srl,
    Sra,
    Sllv,
    Srlv,
    Srav,
}

#[derive(Clone, Copy, Debug, PartialEq, Eq)]
pub enum Move {
    Mfhi = 30,
    Mthi,
    Mflo,
    Mtlo,
    Movg2s = 59,
    Movs2g,
}

#[derive(Clone, Copy, Debug, PartialEq, Eq)]
pub enum Multiply {
    Mult = 34,
    Multu,
    Madd = 53,
    Maddu,
    Mul,
    Msub,
    Msubu,
}

#[derive(Clone, Copy, Debug, PartialEq, Eq)]
pub enum System {
    Sysc = 48,
    Cas,
    Mfence,
    Flush,
    Invlpg,
    Eret = 58,
}

#[derive(Clone, Copy, Debug, PartialEq, Eq)]
pub enum Alu {
    Add = 36,
    Addu,
    Sub,
    Subu,
    And,
    Or,
    Xor,
    Nor,
    Slt,
    Sltu,
}

#[derive(Clone, Copy, Debug, PartialEq, Eq)]
pub enum Instruction {
    Load(Load),
    Store(StoreWidth),
    Immediate(Immediate),
    Branch(Branch),
    Jump(Jump),
    Shift(Shift),
    Multiply(Multiply),
    Move(Move),
    Alu(Alu),
    System(System),
    Illegal,
}

// Table 3: opcode 000000, by the function code.
fn special(fun: u32) -> Instruction
    ensures { result ≡ row_of 0 fun 0 0 }
{
    match fun {
        0b000000 => Instruction::Shift(Shift::Sll),
        0b000010 => Instruction::Shift(Shift::Srl),
        0b000011 => Instruction::Shift(Shift::Sra),
        0b000100 => Instruction::Shift(Shift::Sllv),
        0b000110 => Instruction::Shift(Shift::Srlv),
        0b000111 => Instruction::Shift(Shift::Srav),
        0b001000 => Instruction::Jump(Jump::Jr),
        0b001001 => Instruction::Jump(Jump::Jalr),
        0b001100 => Instruction::System(System::Sysc),
        0b010000 => Instruction::Move(Move::Mfhi),
        0b010001 => Instruction::Move(Move::Mthi),
        0b010010 => Instruction::Move(Move::Mflo),
        0b010011 => Instruction::Move(Move::Mtlo),
        0b011000 => Instruction::Multiply(Multiply::Mult),
        0b011001 => Instruction::Multiply(Multiply::Multu),
        0b100000 => Instruction::Alu(Alu::Add),
        0b100001 => Instruction::Alu(Alu::Addu),
        0b100010 => Instruction::Alu(Alu::Sub),
        0b100011 => Instruction::Alu(Alu::Subu),
        0b100100 => Instruction::Alu(Alu::And),
        0b100101 => Instruction::Alu(Alu::Or),
        0b100110 => Instruction::Alu(Alu::Xor),
        0b100111 => Instruction::Alu(Alu::Nor),
        0b101010 => Instruction::Alu(Alu::Slt),
        0b101011 => Instruction::Alu(Alu::Sltu),
        0b111100 => Instruction::System(System::Invlpg),
        0b111101 => Instruction::System(System::Flush),
        0b111110 => Instruction::System(System::Mfence),
        0b111111 => Instruction::System(System::Cas),
        _ => Instruction::Illegal,
    }
}

// Table 4: opcode 011100, by the function code.
fn multiplication(fun: u32) -> Instruction
    ensures { result ≡ row_of 28 fun 0 0 }
{
    match fun {
        0b000000 => Instruction::Multiply(Multiply::Madd),
        0b000001 => Instruction::Multiply(Multiply::Maddu),
        0b000010 => Instruction::Multiply(Multiply::Mul),
        0b000100 => Instruction::Multiply(Multiply::Msub),
        0b000101 => Instruction::Multiply(Multiply::Msubu),
        _ => Instruction::Illegal,
    }
}

// Table 4: opcode 010000, by rs and for eret the function code.
fn coprocessor(fun: u32, rs: u32) -> Instruction
    ensures { result ≡ row_of 16 fun rs 0 }
{
    match rs {
        0b00000 => Instruction::Move(Move::Movs2g),
        0b00100 => Instruction::Move(Move::Movg2s),
        0b10000 => {
            if fun == 0b011000 {
                Instruction::System(System::Eret)
            } else {
                Instruction::Illegal
            }
        }
        _ => Instruction::Illegal,
    }
}

// Table 1: opcode 000001, by rt.
fn sign_branch(rt: u32) -> Instruction
    ensures { result ≡ row_of 1 0 0 rt }
{
    match rt {
        0b00000 => Instruction::Branch(Branch::Bltz),
        0b00001 => Instruction::Branch(Branch::Bgez),
        _ => Instruction::Illegal,
    }
}

pub fn decode(w: u32) -> Instruction
    ensures { result ≡ decoded w }
{
    let opcode = (w >> 26) % 64;
    let rt = (w >> 16) % 32;
    match opcode {
        0b000000 => special(w % 64),
        0b000001 => sign_branch(rt),
        0b000010 => Instruction::Jump(Jump::J),
        0b000011 => Instruction::Jump(Jump::Jal),
        0b000100 => Instruction::Branch(Branch::Beq),
        0b000101 => Instruction::Branch(Branch::Bne),
        0b000110 => {
            if rt == 0 {
                Instruction::Branch(Branch::Blez)
            } else {
                Instruction::Illegal
            }
        }
        0b000111 => {
            if rt == 0 {
                Instruction::Branch(Branch::Bgtz)
            } else {
                Instruction::Illegal
            }
        }
        0b001000 => Instruction::Immediate(Immediate::Addi),
        0b001001 => Instruction::Immediate(Immediate::Addiu),
        0b001010 => Instruction::Immediate(Immediate::Slti),
        0b001011 => Instruction::Immediate(Immediate::Sltiu),
        0b001100 => Instruction::Immediate(Immediate::Andi),
        0b001101 => Instruction::Immediate(Immediate::Ori),
        0b001110 => Instruction::Immediate(Immediate::Xori),
        0b001111 => Instruction::Immediate(Immediate::Lui),
        0b010000 => coprocessor(w % 64, (w >> 21) % 32),
        0b011100 => multiplication(w % 64),
        0b100000 => Instruction::Load(Load::Lb),
        0b100001 => Instruction::Load(Load::Lh),
        0b100011 => Instruction::Load(Load::Lw),
        0b100100 => Instruction::Load(Load::Lbu),
        0b100101 => Instruction::Load(Load::Lhu),
        0b101000 => Instruction::Store(StoreWidth::Sb),
        0b101001 => Instruction::Store(StoreWidth::Sh),
        0b101011 => Instruction::Store(StoreWidth::Sw),
        _ => Instruction::Illegal,
    }
}
