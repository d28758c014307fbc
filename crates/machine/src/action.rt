// What a step of an APIC, or on a line, is to do to the tables.
ghost use Rattle.std.specs.Prelude.{◌≡◌, true, ◌<◌, ◌≤◌, ◌+◌, ◌*◌, length};
ghost use Rattle.tables.specs.Views.{cores_of};
ghost use Rattle.machine.specs.Actions as x;
ghost use Rattle.machine.specs.inner.Doable.{doable};

use apic::active;
use apic::active::Ipi;
use ioapic::{bus, ports};

#[derive(Clone, Copy)]
pub enum Action {
    SendIpi(u32, Ipi),
    // The core and the vector.
    SendEoi(u32, u8),
    InitCore(u32),
    StartCore(u32),
    Sample(u32),
    Deliver(u32),
    // The line and its level.
    SetLine(u32, u32),
}

fn set_line(t: &mut [u32], l: u32, level: u32)
    requires { (32 ≤ length t.old) × (l < 24) × (level < 2) }
    ensures { t.new ≡ x.line_set t.old l level }
{
    t[layout::LINES] = word::put_bit(t[layout::LINES], l, level);
}

// What was decided is done.
pub fn commit(t: &mut [u32], a: Action)
    requires t_few { cores_of t.old ≤ 4 }
    requires t_len { length t.old ≡ 32 + 256 * cores_of t.old }
    requires a_value { doable (cores_of t.old) a ≡ true }
    ensures { t.new ≡ x.tables_after (x.Effect.Acts a) t.old }
{
    let n = t[layout::CORES];
    match a {
        Action::SendIpi(k, i) => {
            bus::send_ipi(t, n, k, i);
        }
        Action::SendEoi(k, v) => {
            bus::send_eoi(t, n, k, v);
        }
        Action::InitCore(k) => {
            let at = layout::block_at(k);
            let e = at + layout::BLOCK_WORDS;
            active::init_core(&mut t[at..e]);
        }
        Action::StartCore(k) => {
            let at = layout::block_at(k);
            let e = at + layout::BLOCK_WORDS;
            active::start_core(&mut t[at..e]);
        }
        Action::Sample(l) => {
            ports::sample(t, l as usize);
        }
        Action::Deliver(l) => {
            bus::deliver(t, n, l as usize);
        }
        Action::SetLine(l, level) => {
            set_line(t, l, level);
        }
    }
}
