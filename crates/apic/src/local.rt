// The local APIC of a core, on the words of the core's block (section 9).
ghost use Rattle.std.specs.Prelude.{◌≡◌, ◌<◌, length};
ghost use Rattle.apic.specs.LocalApic as s;

pub const ICR: usize = 73;

pub const EOI: usize = 75;

pub const ISR: usize = 76;

pub const IRR: usize = 84;

// An interrupt that is received.
#[derive(Clone, Copy, Debug, PartialEq, Eq)]
pub enum Kind {
    Fixed,
    Init,
    Startup,
}

pub fn id(b: &[u32]) -> u32
    requires { length b.now ≡ 256 }
    ensures { result ≡ s.id_of b.now }
{
    (b[layout::PORTS] >> 24) % 16
}

// Definition 66: the external event that the core sees.
pub fn event(b: &[u32]) -> Option<u8>
    requires { length b.now ≡ 256 }
    ensures { result ≡ s.event b.now }
{
    // Most often nothing is asked for, or nothing is in service. To see that before a search is for speed alone
    // (docs/PERFORMANCE.md).
    if !vector_register::any(b, IRR) {
        return None;
    }
    let asked = vector_register::lowest(b, IRR)?;
    if !vector_register::any(b, ISR) {
        return Some(asked);
    }
    match vector_register::lowest(b, ISR) {
        Some(served) if served <= asked => None,
        _ => Some(asked),
    }
}

fn end(b: &mut [u32], v: u32)
    requires { length b.old ≡ 256 }
    ensures { b.new ≡ s.eoi_written b.old v }
{
    let f = vector_register::lowest(b, ISR);
    b[EOI] = v;
    vector_register::mark(b, ISR, f, 0);
    vector_register::mark(b, layout::EOIPENDING, f, 1);
}

// A word written at port byte a.
pub fn write(b: &mut [u32], a: usize, v: u32)
    requires { (length b.old ≡ 256) × (a < 128) }
    ensures { b.new ≡ s.port_written b.old a v }
{
    if a == 12 {
        end(b, v);
    } else {
        b[layout::PORTS + a / 4] = v;
    }
}

fn startup(b: &mut [u32], v: u8)
    requires { length b.old ≡ 256 }
    ensures { b.new ≡ s.startup b.old v }
{
    if b[layout::SIPIRR] == 0 {
        b[layout::SIPIRR] = 1;
        b[layout::SIPIVECT] = u32::from(v);
    }
}

fn init(b: &mut [u32])
    requires { length b.old ≡ 256 }
    ensures { b.new ≡ s.init b.old }
{
    if b[layout::INITRR] == 0 {
        b[layout::INITRR] = 1;
    }
}

pub fn receive(b: &mut [u32], k: Kind, v: u8)
    requires { length b.old ≡ 256 }
    ensures { b.new ≡ s.received b.old k v }
{
    match k {
        Kind::Fixed => vector_register::put_vector(b, IRR, v, 1),
        Kind::Init => init(b),
        Kind::Startup => startup(b, v),
    }
}

// The core takes an interrupt.
pub fn jisr(b: &mut [u32])
    requires { length b.old ≡ 256 }
    ensures { b.new ≡ s.on_jisr b.old }
{
    let f = vector_register::lowest(b, IRR);
    vector_register::mark(b, IRR, f, 0);
    vector_register::mark(b, ISR, f, 1);
}

// The core returns from one.
pub fn rfe(b: &mut [u32])
    requires { length b.old ≡ 256 }
    ensures { b.new ≡ s.on_rfe b.old }
{
    let f = vector_register::lowest(b, ISR);
    vector_register::mark(b, ISR, f, 0);
}
