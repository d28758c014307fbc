// The step of a core's store buffer as a plan: the oldest store leaves.
ghost use Rattle.std.specs.Prelude.{◌≡◌, true, length};
ghost use Rattle.records.specs.Records.{linked, stores};
ghost use Rattle.cores.specs.BufferStep as z;

use super::{BufferChange, Plan, WalkChange, Write, done};
use ioapic::ports;
use records::Store;
use refusals::Refusal;
use store_buffer::Place;

fn leaves_to(s: Store, t: Place) -> Result<Plan, Refusal>
    ensures { result ≡ z.leaves_to s t }
{
    match t {
        Place::LocalPort(a) => Ok(done(
            BufferChange::Take,
            WalkChange::Nothing,
            Write::LocalPort(a, s.value),
        )),
        Place::IoPort(a) => {
            if ports::writes(a as usize, s.value) {
                return Ok(done(
                    BufferChange::Take,
                    WalkChange::Nothing,
                    Write::IoPort(a, s.value),
                ));
            }
            Err(Refusal::NoNextState)
        }
        Place::Narrow => Err(Refusal::NoNextState),
        Place::Memory => Ok(done(
            BufferChange::Take,
            WalkChange::Nothing,
            Write::Memory(s.address, s.width, s.value),
        )),
        Place::Beyond => Err(Refusal::ByteNowhere),
    }
}

// Beside a memory of so many bytes.
pub fn drain(b: &[u32], bytes: usize) -> Result<Plan, Refusal>
    requires b_len { length b.now ≡ 256 }
    requires b_value { linked b.now ≡ true }
    ensures { result ≡ z.buffer_step (stores b.now) bytes }
{
    let o = store_buffer::oldest_store(b);
    match o {
        None => Err(Refusal::NoNextState),
        Some(s) => leaves_to(s, store_buffer::destination(s, bytes)),
    }
}
