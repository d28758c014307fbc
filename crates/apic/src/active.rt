// The active steps of a local APIC (11.3), as far as they lie in one core's block.
ghost use Rattle.std.specs.Prelude.{◌≡◌, ◌<◌, length};
ghost use Rattle.apic.specs.Active as s;

use super::local;
use super::local::Kind;

// Which local APICs an interrupt is for.
#[derive(Clone, Copy, Debug, PartialEq, Eq)]
pub enum Target {
    Id,
    Own,
    All,
    AllButOwn,
}

// An inter-processor interrupt.
#[derive(Clone, Copy, Debug, PartialEq, Eq)]
pub struct Ipi {
    pub kind: Kind,
    pub target: Target,
    pub vect: u8,
    pub dest: u32,
}

fn target_of(low: u32) -> Target
    ensures { result ≡ s.target_of low }
{
    match (low >> 18) % 4 {
        0 => Target::Id,
        1 => Target::Own,
        2 => Target::All,
        _ => Target::AllButOwn,
    }
}

fn ipi_of(kind: Kind, low: u32, high: u32) -> Ipi
    ensures { result ≡ s.ipi_of kind low high }
{
    Ipi {
        kind,
        target: target_of(low),
        vect: (low % 256) as u8,
        dest: high >> 24,
    }
}

fn by_mode(low: u32, high: u32) -> Option<Ipi>
    ensures { result ≡ s.by_mode low high }
{
    let kind = match (low >> 8) % 8 {
        0b000 => Kind::Fixed,
        0b101 => Kind::Init,
        0b110 => Kind::Startup,
        _ => return None,
    };
    Some(ipi_of(kind, low, high))
}

// What the core's local APIC has to send.
pub fn to_send(b: &[u32]) -> Option<Ipi>
    requires { length b.now ≡ 256 }
    ensures { result ≡ s.sending b.now }
{
    let low = b[local::ICR];
    let high = b[local::ICR + 1];
    if (low >> 12) % 2 == 0 || (low >> 11) % 2 == 0 {
        return None;
    }
    by_mode(low, high)
}

// The sender afterwards.
pub fn idle(b: &mut [u32])
    requires { length b.old ≡ 256 }
    ensures { b.new ≡ s.idle b.old }
{
    b[local::ICR] = word::put_bit(b[local::ICR], 12, 0);
}

fn aimed(t: Target, own: bool, same: bool) -> bool
    ensures { result ≡ s.aimed t own same }
{
    match t {
        Target::Id => same,
        Target::Own => own,
        Target::All => true,
        Target::AllButOwn => !own,
    }
}

// A core's block after an interrupt has gone over the bus.
pub fn receive(b: &mut [u32], own: bool, m: Ipi)
    requires { length b.old ≡ 256 }
    ensures { b.new ≡ s.received_by m own b.old }
{
    if aimed(m.target, own, local::id(b) == m.dest) {
        local::receive(b, m.kind, m.vect);
    }
}

// The vector whose EOI message is to be sent.
pub fn pending_eoi(b: &[u32]) -> Option<u8>
    requires { length b.now ≡ 256 }
    ensures { result ≡ s.pending_eoi b.now }
{
    vector_register::lowest(b, layout::EOIPENDING)
}

// The sender afterwards.
pub fn eoi_sent(b: &mut [u32], v: u8)
    requires { length b.old ≡ 256 }
    ensures { b.new ≡ s.eoi_sent b.old v }
{
    vector_register::put_vector(b, layout::EOIPENDING, v, 0);
}

pub fn may_init(b: &[u32]) -> bool
    requires { length b.now ≡ 256 }
    ensures { result ≡ s.may_init b.now }
{
    b[layout::INITRR] == 1
}

pub fn init_core(b: &mut [u32])
    requires { length b.old ≡ 256 }
    ensures { b.new ≡ s.init_core b.old }
{
    b[layout::PC] = 0;
    b[layout::SPR + layout::MODE] = 0;
    b[layout::SPR + layout::ECA] = 0;
    b[layout::RUNNING] = 0;
    b[layout::INITRR] = 0;
}

pub fn may_start(b: &[u32]) -> bool
    requires { length b.now ≡ 256 }
    ensures { result ≡ s.may_start b.now }
{
    (b[layout::SIPIRR] == 1) & (b[layout::RUNNING] == 0)
}

pub fn start_core(b: &mut [u32])
    requires { length b.old ≡ 256 }
    ensures { b.new ≡ s.start_core b.old }
{
    b[layout::PC] = b[layout::SIPIVECT] << 24;
    b[layout::RUNNING] = 1;
    b[layout::SIPIRR] = 0;
}
