// The operation Run: a schedule of steps, with one check of soundness.
ghost use Rattle.std.specs.Prelude.{◌≡◌, true, ◌/◌, length};
ghost use Rattle.tables.specs.Sound.{sound};
ghost use Rattle.machine.specs.Run as operation;

use super::{count, take};
use refusals::Refusal;

#[derive(Clone, Copy, Debug, PartialEq, Eq)]
pub enum Stop {
    End,
    Limit,
    Refused(Refusal),
}

// How many steps were accepted, and why the run stopped.
#[derive(Clone, Copy, Debug, PartialEq, Eq)]
pub struct Ran {
    pub accepted: u32,
    pub stop: Stop,
}

impl Ran {
    fn new(accepted: u32, stop: Stop) -> Ran
        ensures { (result.accepted ≡ accepted) × (result.stop ≡ stop) }
    {
        Ran { accepted, stop }
    }
}

// The steps of a schedule of whole steps, on sound tables.
fn steps(t: &mut [u32], m: &mut [u8], schedule: &[u32], limit: u32) -> Ran
    requires m_value { sound t.old (length m.old) ≡ true }
    requires schedule_value { operation.whole schedule.now ≡ true }
    ensures { operation.Is result t.new m.new (operation.run_from (length schedule.now / 6) schedule.now limit 0 t.old m.old) }
{
    let mut accepted: u32 = 0;
    for step in schedule.chunks_exact(6) {
        if accepted == limit {
            return Ran::new(accepted, Stop::Limit);
        }
        if let Err(refusal) = take(t, m, step) {
            count(t, step);
            return Ran::new(accepted, Stop::Refused(refusal));
        }
        accepted += 1;
    }
    Ran::new(accepted, Stop::End)
}

// Neither a refusal of unsound tables nor one of the schedule writes.
pub fn run(t: &mut [u32], m: &mut [u8], schedule: &[u32], limit: u32) -> Ran
    ensures { operation.Is result t.new m.new (operation.run t.old m.old schedule.now limit) }
{
    if !tables::sound(t, m.len()) {
        return Ran::new(0, Stop::Refused(Refusal::Unsound));
    }
    if (schedule.len() % 6 != 0) | (6144 < schedule.len()) {
        return Ran::new(0, Stop::Refused(Refusal::Schedule));
    }
    steps(t, m, schedule, limit)
}
