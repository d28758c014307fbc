// The I/O APIC on the header words of the tables (section 10).
ghost use Rattle.std.specs.Prelude.{◌≡◌, true, ◌<◌, ◌≤◌, length};
ghost use Rattle.ioapic.specs.IoApic as s;

// Whether a write of v at port a has a next state.
pub fn writes(a: usize, v: u32) -> bool
    ensures { result ≡ s.writes a v }
{
    (a == 0) & (v < 24) | (a == 4)
}

fn select(t: &mut [u32], v: u32)
    requires { (32 ≤ length t.old) × (v < 24) }
    ensures { t.new ≡ s.selected t.old v }
{
    t[layout::IOREGSEL] = v;
    t[layout::IOWIN] = t[layout::REDIRECT + v as usize];
}

fn window(t: &mut [u32], v: u32)
    requires { 32 ≤ length t.old }
    ensures { t.new ≡ s.windowed t.old v }
{
    let i = t[layout::IOREGSEL];
    if i < 24 {
        t[layout::REDIRECT + i as usize] = v;
    }
    t[layout::IOWIN] = v;
}

// A word written at port byte a.
pub fn write(t: &mut [u32], a: usize, v: u32)
    requires { (32 ≤ length t.old) × (s.writes a v ≡ true) }
    ensures { t.new ≡ s.io_written t.old a v }
{
    if a == 0 {
        select(t, v);
    } else {
        window(t, v);
    }
}

fn acknowledged(e: u32, v: u32) -> u32
    ensures { result ≡ s.acknowledged v e }
{
    if e % 256 == v {
        word::put_bit(e, 14, 0)
    } else {
        e
    }
}

// An EOI message for vector v. By index, since the definition goes entry by entry.
pub fn end(t: &mut [u32], v: u32)
    requires { 32 ≤ length t.old }
    ensures { t.new ≡ s.eoi_received t.old v }
{
    for i in 0..24 {
        let at = layout::REDIRECT + i;
        t[at] = acknowledged(t[at], v);
    }
}

pub fn may_sample(t: &[u32], k: usize) -> bool
    requires { (32 ≤ length t.now) × (k < 24) }
    ensures { result ≡ s.may_sample t.now k }
{
    let e = t[layout::REDIRECT + k];
    ((t[layout::LINES] >> k) % 2 == 1) & ((e >> 16) % 2 == 0) & ((e >> 14) % 2 == 0)
}

pub fn sample(t: &mut [u32], k: usize)
    requires { (32 ≤ length t.old) × (k < 24) }
    ensures { t.new ≡ s.sampled t.old k }
{
    let at = layout::REDIRECT + k;
    t[at] = word::put_bit(t[at], 12, 1);
}

pub fn may_deliver(t: &[u32], k: usize) -> bool
    requires { (32 ≤ length t.now) × (k < 24) }
    ensures { result ≡ s.may_deliver t.now k }
{
    (t[layout::REDIRECT + k] >> 12) % 2 == 1
}

// The entry after its interrupt has been sent.
pub fn hand(t: &mut [u32], k: usize)
    requires { (32 ≤ length t.old) × (k < 24) }
    ensures { t.new ≡ s.handed t.old k }
{
    let at = layout::REDIRECT + k;
    let e = word::put_bit(t[at], 12, 0);
    t[at] = word::put_bit(e, 14, 1);
}
