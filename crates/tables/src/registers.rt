// The registers of a block, in and out of the struct of `isa`.
ghost use Rattle.std.specs.Prelude.{◌≡◌, ◌+◌, ◌≤◌, length, take, drop};
ghost use Rattle.std.proofs.Math.Seq.{paste};
ghost use Rattle.tables.specs.Views as v;

use isa::registers::Registers;
use layout::{GPR, HI, LO, PC, SPR};

// The 32 words from a place.
fn words(b: &[u32], from: usize) -> [u32; 32]
    requires { from + 32 ≤ length b.now }
    ensures { result ≡ take 32 (drop from b.now) }
{
    let mut out = [0; 32];
    out.copy_from_slice(&b[from..from + 32]);
    out
}

// The registers of a block.
pub fn registers(b: &[u32]) -> Registers
    requires { length b.now ≡ 256 }
    ensures { result ≡ v.registers_of b.now }
{
    let gpr = words(b, GPR);
    let spr = words(b, SPR);
    Registers {
        gpr,
        spr,
        pc: b[PC],
        hi: b[HI],
        lo: b[LO],
    }
}

// Other registers in a block; there are 32 of each kind.
pub fn put_registers(b: &mut [u32], r: Registers)
    requires { length b.old ≡ 256 }
    ensures b_after { b.new ≡ v.with_registers b.old r }
    ensures gpr_len { (length r.gpr ≡ 32) × (length r.spr ≡ 32) }
{
    b[GPR..GPR + 32].copy_from_slice(&r.gpr);
    b[SPR..SPR + 32].copy_from_slice(&r.spr);
    b[PC] = r.pc;
    b[HI] = r.hi;
    b[LO] = r.lo;
}
