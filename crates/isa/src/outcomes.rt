// What an instruction makes of the few registers that it reads: how execute, and an interrupt that completes its
// instruction, are built.
ghost use Rattle.std.specs.Prelude.{◌≡◌, true, false, ◌<◌, ◌/◌, ◌*◌, ◌%◌, ◌+◌, ◌^◌};
ghost use Rattle.decode.specs.Fields as f;
ghost use Rattle.units.specs.Shift.{sures, sf};
ghost use Rattle.isa.specs.Core as x;
ghost use Rattle.isa.specs.inner.Outcomes as s;

use decode::{Instruction, Jump, Load, Move, classes, fields};
use units::{alu, branch, multiplication, shift};

// General registers rs and rt, special register rd, and the pc, HI and LO.
#[derive(Clone, Copy)]
pub struct Operands {
    pub p: u32,
    pub q: u32,
    pub special: u32,
    pub pc: u32,
    pub hi: u32,
    pub lo: u32,
}

// The general register to write, 0 for none, and its value; the next pc, HI and LO; and whether special register rd
// gets general register rt.
#[derive(Clone, Copy)]
pub struct Outcome {
    pub n: u32,
    pub v: u32,
    pub pc: u32,
    pub hi: u32,
    pub lo: u32,
    pub special: bool,
}

fn loaded(l: Load, read: u32) -> u32
    ensures { result ≡ x.lv (Instruction.Load l) read }
{
    match l {
        Load::Lb => word::extend::<8>(read % 256),
        Load::Lh => word::extend::<16>(read % 0x1_0000),
        Load::Lw => read,
        Load::Lbu => read % 256,
        Load::Lhu => read % 0x1_0000,
    }
}

// Definition 27, where q is general register rt.
pub fn right_operand(rtype: bool, w: u32, q: u32) -> u32
    ensures { result ≡ s.rop_by rtype w q }
{
    if rtype {
        return q;
    }
    let v = fields::imm(w);
    if !((w >> 28) % 2 == 1) {
        return word::extend::<16>(v);
    }
    v
}

// Definition 38, where p is general register rs.
fn shift_distance(w: u32, p: u32) -> u32
    ensures { (result ≡ s.sdist_by w p) × (result < 32) }
{
    if !((w >> 2) % 2 == 1) {
        return fields::sa(w);
    }
    p % 32
}

impl Operands {
    // The pc of the next instruction.
    fn after(self) -> u32
        ensures { result ≡ s.after_by self }
    {
        word::add(self.pc, 4)
    }

    // A general register is written, and the pc goes on.
    fn write(self, n: u32, v: u32) -> Outcome
        ensures { result ≡ s.wrote self n v }
    {
        self.go(n, v, self.after())
    }

    // The pc goes on, and nothing else changes.
    fn pass(self) -> Outcome
        ensures { result ≡ s.passed self }
    {
        self.write(0, 0)
    }

    // A general register is written, and the pc goes elsewhere.
    fn go(self, n: u32, v: u32, pc: u32) -> Outcome
        ensures { result ≡ s.went self n v pc }
    {
        Outcome {
            n,
            v,
            pc,
            hi: self.hi,
            lo: self.lo,
            special: false,
        }
    }

    // HI and LO are written, and the pc goes on.
    fn keep(self, hi: u32, lo: u32) -> Outcome
        ensures { result ≡ s.kept self hi lo }
    {
        let pc = self.after();
        Outcome {
            n: 0,
            v: 0,
            pc,
            hi,
            lo,
            special: false,
        }
    }

    // A special register is written, and the pc goes on.
    fn set_special(self) -> Outcome
        ensures { result ≡ s.set_special self }
    {
        let pc = self.after();
        Outcome {
            n: 0,
            v: 0,
            pc,
            hi: self.hi,
            lo: self.lo,
            special: true,
        }
    }

    // Definition 29.
    fn computed(self, rtype: bool, w: u32) -> u32
        ensures { result ≡ s.computed_by rtype w self }
    {
        let q = right_operand(rtype, w, self.q);
        alu::result(self.p, q, alu::control(rtype, w), !rtype)
    }

    fn shifted(self, w: u32) -> u32
        ensures { result ≡ sures self.q (s.sdist_by w self.p) (sf w) }
    {
        shift::result(self.q, shift_distance(w, self.p), w % 4)
    }

    // Definition 31.
    fn product(self, w: u32) -> u64
        ensures { result ≡ s.mres_by w self }
    {
        multiplication::result(
            self.p,
            self.q,
            word::joined(self.hi, self.lo),
            multiplication::control(w),
        )
    }

    fn multiply(self, i: Instruction, w: u32) -> Outcome
        ensures { result ≡ s.multiply_by i w self }
    {
        let v = self.product(w);
        let low = word::low_half(v);
        if classes::is_mulacc(i) {
            return self.keep(word::high_half(v), low);
        }
        self.write(fields::rd(w), low)
    }

    fn transfer(self, t: Move, w: u32) -> Outcome
        ensures { result ≡ s.move_by t w self }
    {
        let n = fields::rt(w);
        let d = fields::rd(w);
        match t {
            Move::Mfhi => self.write(d, self.hi),
            Move::Mthi => self.keep(self.p, self.lo),
            Move::Mflo => self.write(d, self.lo),
            Move::Mtlo => self.keep(self.hi, self.p),
            Move::Movg2s => self.set_special(),
            Move::Movs2g => self.write(n, self.special),
        }
    }

    // Where a branch goes.
    fn branch(self, w: u32) -> u32
        ensures { result ≡ s.branch_by w self }
    {
        if branch::taken(self.p, self.q, branch::control(w)) {
            let far = word::shift_left(word::extend::<16>(fields::imm(w)), 2);
            return word::add(self.pc, far);
        }
        self.after()
    }

    // Where j and jal go.
    fn near(self, w: u32) -> u32
        ensures { result ≡ s.near_by w self }
    {
        self.after() / 0x1000_0000 * 0x1000_0000 + fields::iindex(w) * 4
    }

    fn jump(self, j: Jump, w: u32) -> Outcome
        ensures { result ≡ s.jump_by j w self }
    {
        let near = self.near(w);
        let next = self.after();
        match j {
            Jump::J => self.go(0, 0, near),
            Jump::Jal => self.go(31, next, near),
            Jump::Jr => self.go(0, 0, self.p),
            Jump::Jalr => self.go(fields::rd(w), next, self.p),
        }
    }

    fn system(self, i: Instruction, w: u32, read: u32) -> Outcome
        ensures { result ≡ s.system_by i w self read }
    {
        if classes::is_cas(i) {
            return self.write(fields::rd(w), read);
        }
        self.pass()
    }

    // What a load or cas has read is passed in.
    pub fn outcome(self, i: Instruction, w: u32, read: u32) -> Outcome
        ensures { result ≡ s.outcome_by i w self read }
    {
        match i {
            Instruction::Load(l) => self.write(fields::rt(w), loaded(l, read)),
            Instruction::Store(_) => self.pass(),
            Instruction::Immediate(_) => self.write(fields::rt(w), self.computed(false, w)),
            Instruction::Branch(_) => self.go(0, 0, self.branch(w)),
            Instruction::Jump(j) => self.jump(j, w),
            Instruction::Shift(_) => self.write(fields::rd(w), self.shifted(w)),
            Instruction::Multiply(_) => self.multiply(i, w),
            Instruction::Move(t) => self.transfer(t, w),
            Instruction::Alu(_) => self.write(fields::rd(w), self.computed(true, w)),
            Instruction::System(_) => self.system(i, w, read),
            Instruction::Illegal => self.pass(),
        }
    }
}
