// A core's address through the walk that the step names (5, 11.3).
ghost use Rattle.std.specs.Prelude.{if◌then◌else◌, ◌≡◌, true, not, ◌||◌, ◌&&◌, ◌<◌, ◌^◌, ◌+◌, ◌*◌, ◌%◌, length, ltb};
ghost use Rattle.records.specs.Records.{linked, walks, among};
ghost use Rattle.tables.specs.Views.{registers_of};
ghost use Rattle.tlb.specs.declared.Faulting.TheVariants as verdict;
ghost use Rattle.tlb.specs.Walks as t;
ghost use Rattle.cores.specs.Core as x;

use super::WalkChange;
use records::{Flush, Walk};
use tables::block;
use tlb::{Faulting, Request};

// The walks of a page whose access faulted go.
pub fn faulted(b: &[u32], a: u32) -> WalkChange
    requires { length b.now ≡ 256 }
    ensures { result ≡ x.faulted (registers_of b.now) a }
{
    WalkChange::Drop(Flush::Page(tlb::page_key(tlb::page(a), block::asid(b))))
}

// Whether the walk is held and matches the request; in system mode none is asked for.
pub fn fits(b: &[u32], user: bool, request: Request, w: Walk) -> bool
    requires b_len { length b.now ≡ 256 }
    requires b_value { linked b.now ≡ true }
    ensures { result ≡ (not user || (among w (walks b.now) && t.hit request w)) }
{
    if !user {
        return true;
    }
    if !tlb::hit(request, w) {
        return false;
    }
    records::holds_walk(b, w)
}

// Whether the access faults.
pub fn fault(m: &[u8], user: bool, request: Request, w: Walk) -> Faulting
    ensures { result ≡ (if user then t.fault m.now request w else verdict.Passes) }
{
    if user {
        return tlb::fault(m, request, w);
    }
    Faulting::Passes
}

// The walk that was used is complete.
pub fn ends(user: bool, w: Walk) -> bool
    ensures { result ≡ (not user || t.complete w) }
{
    !user | tlb::complete(w)
}

// The physical address; a held walk's base has 20 bits.
pub fn physical(user: bool, w: Walk, a: u32) -> u32
    requires { (not user || ltb w.second (2 ^ 20)) ≡ true }
    ensures { result ≡ (if user then t.walk_ba w * 2 ^ 12 + a % 2 ^ 12 else a) }
{
    if user {
        return w.second * 0x1000 + a % 0x1000;
    }
    a
}
