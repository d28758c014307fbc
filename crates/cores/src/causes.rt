// The masked causes of a core's step (6.3).
ghost use Rattle.std.specs.Prelude.{◌≡◌, false, ◌&&◌, length};
ghost use Rattle.word.specs.Word.{is_set};
ghost use Rattle.isa.specs.Core.{ea};
ghost use Rattle.isa.specs.Interrupts as s;
ghost use Rattle.apic.specs.LocalApic.{event};
ghost use Rattle.tables.specs.Views.{registers_of};
ghost use Rattle.cores.specs.Core as x;

use apic::local;
use decode::{Instruction, fields};
use isa::interrupts;
use isa::interrupts::{Events, Issued};
use tables::block;

// The effective address.
pub fn address(b: &[u32], i: Instruction, w: u32) -> u32
    requires { length b.now ≡ 256 }
    ensures { result ≡ ea i (registers_of b.now) w }
{
    interrupts::effective_address(i, w, block::general(b, fields::rs(w)))
}

// An external event that the status register lets through; it is looked for only where one could pass.
fn is_heard(b: &[u32], status: u32) -> bool
    requires { length b.now ≡ 256 }
    ensures { (result && is_set status 1) ≡ (x.is_event (event b.now) && is_set status 1) }
{
    if (status >> 1) % 2 == 1 {
        return local::event(b).is_some();
    }
    false
}

// Of an instruction without a page fault.
pub fn of(b: &[u32], i: Instruction, w: u32) -> u32
    requires { length b.now ≡ 256 }
    ensures { result ≡ s.causes_of (registers_of b.now) (s.events_as i (registers_of b.now) w (x.is_event (event b.now)) false) }
{
    let status = block::status(b);
    let io = is_heard(b, status);
    let issued = Issued {
        instruction: i,
        word: w,
        rs: block::general(b, fields::rs(w)),
        rt: block::general(b, fields::rt(w)),
    };
    issued.causes(block::user(b), io, false, status)
}

// Of a core that has no instruction: a misaligned pc, or a page fault on fetch.
pub fn without(b: &[u32], mal: bool, pff: bool) -> u32
    requires { length b.now ≡ 256 }
    ensures { result ≡ s.causes_of (registers_of b.now) (s.events_without (x.is_event (event b.now)) mal pff) }
{
    let status = block::status(b);
    let e = Events::without(is_heard(b, status), mal, pff);
    e.masked(status)
}

// Whether the interrupt, if there is one, leaves no effect.
pub fn suppress(causes: u32) -> bool
    ensures { result ≡ x.suppressed causes }
{
    (causes != 0) & !interrupts::continues(interrupts::level(causes))
}
