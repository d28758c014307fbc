// The active steps of 11.3 that go over the interrupt bus, on the tables of n cores.
ghost use Rattle.std.specs.Prelude.{◌≡◌, ◌+◌, ◌*◌, ◌<◌, ◌≤◌, length};
ghost use Rattle.ioapic.specs.Bus as s;

use super::ports;
use apic::active;
use apic::active::{Ipi, Target};
use apic::local::Kind;

// An interrupt from core i reaches its targets.
fn broadcast(t: &mut [u32], n: u32, i: u32, m: Ipi)
    requires { (n ≤ 4) × (length t.old ≡ 32 + 256 * n) }
    ensures { t.new ≡ s.broadcast n i m t.old }
{
    for j in 0..n {
        let a = layout::block_at(j);
        let e = a + layout::BLOCK_WORDS;
        active::receive(&mut t[a..e], j == i, m);
    }
}

pub fn send_ipi(t: &mut [u32], n: u32, i: u32, m: Ipi)
    requires { (n ≤ 4) × (length t.old ≡ 32 + 256 * n) × (i < n) }
    ensures { t.new ≡ s.send_ipi n i m t.old }
{
    let a = layout::block_at(i);
    let e = a + layout::BLOCK_WORDS;
    active::idle(&mut t[a..e]);
    broadcast(t, n, i, m);
}

pub fn send_eoi(t: &mut [u32], n: u32, i: u32, v: u8)
    requires { (n ≤ 4) × (length t.old ≡ 32 + 256 * n) × (i < n) }
    ensures { t.new ≡ s.send_eoi i v t.old }
{
    let a = layout::block_at(i);
    let e = a + layout::BLOCK_WORDS;
    active::eoi_sent(&mut t[a..e], v);
    ports::end(t, u32::from(v));
}

pub fn deliver(t: &mut [u32], n: u32, k: usize)
    requires { (n ≤ 4) × (length t.old ≡ 32 + 256 * n) × (k < 24) }
    ensures { t.new ≡ s.deliver n k t.old }
{
    let at = layout::REDIRECT + k;
    let e = t[at];
    ports::hand(t, k);
    let m = Ipi {
        kind: Kind::Fixed,
        target: Target::Id,
        vect: (e % 256) as u8,
        dest: e >> 24,
    };
    broadcast(t, n, 0, m);
}
