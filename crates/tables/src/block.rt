// What a core's block shows, read where it stands.
ghost use Rattle.std.specs.Prelude.{◌≡◌, ◌<◌, ◌^◌, length};
ghost use Rattle.layout.specs.Layout.{sr};
ghost use Rattle.isa.specs.Core.{gpr_at, spr_at};
ghost use Rattle.tables.specs.Views as v;

pub fn general(b: &[u32], n: u32) -> u32
    requires b_len { length b.now ≡ 256 }
    requires n_bound { n < 32 }
    ensures { result ≡ gpr_at (v.registers_of b.now) n }
{
    b[n as usize]
}

pub fn special(b: &[u32], n: usize) -> u32
    requires b_len { length b.now ≡ 256 }
    requires n_bound { n < 32 }
    ensures { result ≡ spr_at (v.registers_of b.now) n }
{
    b[layout::SPR + n]
}

pub fn pc(b: &[u32]) -> u32
    requires { length b.now ≡ 256 }
    ensures { result ≡ (v.registers_of b.now).pc }
{
    b[layout::PC]
}

pub fn status(b: &[u32]) -> u32
    requires { length b.now ≡ 256 }
    ensures { result ≡ spr_at (v.registers_of b.now) sr }
{
    special(b, layout::SR)
}

// User mode.
pub fn user(b: &[u32]) -> bool
    requires { length b.now ≡ 256 }
    ensures { result ≡ v.user_mode b.now }
{
    special(b, layout::MODE) % 2 == 1
}

// The address space.
pub fn asid(b: &[u32]) -> u32
    requires { length b.now ≡ 256 }
    ensures { (result ≡ v.asid_of b.now) × (result < 2 ^ 6) }
{
    special(b, layout::ASID) % 64
}

pub fn runs(b: &[u32]) -> bool
    requires { length b.now ≡ 256 }
    ensures { result ≡ v.runs b.now }
{
    b[layout::RUNNING] == 1
}
