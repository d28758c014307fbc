// The mnemonics of tables 1 to 4 in their order, and the text of an illegal word, filled up with zeros to six bytes.
pub const LB: [u8; 6] = *b"lb\0\0\0\0";

pub const LH: [u8; 6] = *b"lh\0\0\0\0";

pub const LW: [u8; 6] = *b"lw\0\0\0\0";

pub const LBU: [u8; 6] = *b"lbu\0\0\0";

pub const LHU: [u8; 6] = *b"lhu\0\0\0";

pub const SB: [u8; 6] = *b"sb\0\0\0\0";

pub const SH: [u8; 6] = *b"sh\0\0\0\0";

pub const SW: [u8; 6] = *b"sw\0\0\0\0";

pub const ADDI: [u8; 6] = *b"addi\0\0";

pub const ADDIU: [u8; 6] = *b"addiu\0";

pub const SLTI: [u8; 6] = *b"slti\0\0";

pub const SLTIU: [u8; 6] = *b"sltiu\0";

pub const ANDI: [u8; 6] = *b"andi\0\0";

pub const ORI: [u8; 6] = *b"ori\0\0\0";

pub const XORI: [u8; 6] = *b"xori\0\0";

pub const LUI: [u8; 6] = *b"lui\0\0\0";

pub const BLTZ: [u8; 6] = *b"bltz\0\0";

pub const BGEZ: [u8; 6] = *b"bgez\0\0";

pub const BEQ: [u8; 6] = *b"beq\0\0\0";

pub const BNE: [u8; 6] = *b"bne\0\0\0";

pub const BLEZ: [u8; 6] = *b"blez\0\0";

pub const BGTZ: [u8; 6] = *b"bgtz\0\0";

pub const J: [u8; 6] = *b"j\0\0\0\0\0";

pub const JAL: [u8; 6] = *b"jal\0\0\0";

pub const SLL: [u8; 6] = *b"sll\0\0\0";

pub const SRL: [u8; 6] = *b"srl\0\0\0";

pub const SRA: [u8; 6] = *b"sra\0\0\0";

pub const SLLV: [u8; 6] = *b"sllv\0\0";

pub const SRLV: [u8; 6] = *b"srlv\0\0";

pub const SRAV: [u8; 6] = *b"srav\0\0";

pub const MFHI: [u8; 6] = *b"mfhi\0\0";

pub const MTHI: [u8; 6] = *b"mthi\0\0";

pub const MFLO: [u8; 6] = *b"mflo\0\0";

pub const MTLO: [u8; 6] = *b"mtlo\0\0";

pub const MULT: [u8; 6] = *b"mult\0\0";

pub const MULTU: [u8; 6] = *b"multu\0";

pub const ADD: [u8; 6] = *b"add\0\0\0";

pub const ADDU: [u8; 6] = *b"addu\0\0";

pub const SUB: [u8; 6] = *b"sub\0\0\0";

pub const SUBU: [u8; 6] = *b"subu\0\0";

pub const AND: [u8; 6] = *b"and\0\0\0";

pub const OR: [u8; 6] = *b"or\0\0\0\0";

pub const XOR: [u8; 6] = *b"xor\0\0\0";

pub const NOR: [u8; 6] = *b"nor\0\0\0";

pub const SLT: [u8; 6] = *b"slt\0\0\0";

pub const SLTU: [u8; 6] = *b"sltu\0\0";

pub const JR: [u8; 6] = *b"jr\0\0\0\0";

pub const JALR: [u8; 6] = *b"jalr\0\0";

pub const SYSC: [u8; 6] = *b"sysc\0\0";

pub const CAS: [u8; 6] = *b"cas\0\0\0";

pub const MFENCE: [u8; 6] = *b"mfence";

pub const FLUSH: [u8; 6] = *b"flush\0";

pub const INVLPG: [u8; 6] = *b"invlpg";

pub const MADD: [u8; 6] = *b"madd\0\0";

pub const MADDU: [u8; 6] = *b"maddu\0";

pub const MUL: [u8; 6] = *b"mul\0\0\0";

pub const MSUB: [u8; 6] = *b"msub\0\0";

pub const MSUBU: [u8; 6] = *b"msubu\0";

pub const ERET: [u8; 6] = *b"eret\0\0";

pub const MOVG2S: [u8; 6] = *b"movg2s";

pub const MOVS2G: [u8; 6] = *b"movs2g";

pub const ILL: [u8; 6] = *b"ill\0\0\0";
