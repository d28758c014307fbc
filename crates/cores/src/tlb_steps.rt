// The steps of a core's TLB as plans: tlb-create, tlb-extend and tlb-accessed.
ghost use Rattle.std.specs.Prelude.{◌≡◌, Ok, true, ◌<◌, ◌^◌, length};
ghost use Rattle.records.specs.Records.{linked, walks};
ghost use Rattle.tlb.specs.Steps as t;
ghost use Rattle.cores.specs.Core as x;
ghost use Rattle.cores.specs.TlbSteps as y;

use super::{BufferChange, Plan, WalkChange, Write, done};
use records::Walk;
use refusals::Refusal;
use tlb::Change;

// A walk is added.
fn adding(b: &[u32], w: Walk) -> Result<Plan, Refusal>
    requires b_len { length b.now ≡ 256 }
    requires b_value { linked b.now ≡ true }
    ensures { result ≡ y.adding (walks b.now) (x.is_free b.now) w }
{
    let full = 23 <= records::count_walks(b);
    let none = b[layout::FREE_HEAD] == 0;
    if full | none {
        if records::holds_walk(b, w) {
            return Ok(done(BufferChange::Nothing, WalkChange::Add(w), Write::Nothing));
        }
        if full {
            return Err(Refusal::WalksFull);
        }
        return Err(Refusal::NoFreeRecord);
    }
    Ok(done(BufferChange::Nothing, WalkChange::Add(w), Write::Nothing))
}

// What the TLB decided.
fn planned(b: &[u32], change: Change) -> Result<Plan, Refusal>
    requires b_len { length b.now ≡ 256 }
    requires b_value { linked b.now ≡ true }
    ensures { result ≡ y.planned (walks b.now) (x.is_free b.now) (Ok change) }
{
    match change {
        Change::Adds(w) => adding(b, w),
        Change::Marks(a, e) => Ok(done(
            BufferChange::Nothing,
            WalkChange::Nothing,
            Write::Memory(a, 4, e),
        )),
    }
}

pub fn create(b: &[u32], va: u32) -> Result<Plan, Refusal>
    requires b_len { length b.now ≡ 256 }
    requires b_value { linked b.now ≡ true }
    requires va_bound { va < 2 ^ 20 }
    ensures { result ≡ y.planned (walks b.now) (x.is_free b.now) (t.create_on b.now va) }
{
    planned(b, tlb::create(b, va)?)
}

pub fn extend(b: &[u32], m: &[u8], w: Walk) -> Result<Plan, Refusal>
    requires b_len { length b.now ≡ 256 }
    requires b_value { linked b.now ≡ true }
    ensures { result ≡ y.planned (walks b.now) (x.is_free b.now) (t.extend_on b.now m.now w) }
{
    planned(b, tlb::extend(b, m, w)?)
}

pub fn accessed(b: &[u32], m: &[u8], w: Walk) -> Result<Plan, Refusal>
    requires b_len { length b.now ≡ 256 }
    requires b_value { linked b.now ≡ true }
    ensures { result ≡ y.planned (walks b.now) (x.is_free b.now) (t.accessed_on b.now m.now w) }
{
    planned(b, tlb::accessed(b, m, w)?)
}
