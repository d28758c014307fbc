// The fields of an instruction word (definition 23).
ghost use Rattle.std.specs.Prelude.{◌≡◌};
ghost use Rattle.decode.specs.Fields as f;

pub fn rs(w: u32) -> u32
    ensures { result ≡ f.rs w }
{
    (w >> 21) % 32
}

pub fn rt(w: u32) -> u32
    ensures { result ≡ f.rt w }
{
    (w >> 16) % 32
}

pub fn rd(w: u32) -> u32
    ensures { result ≡ f.rd w }
{
    (w >> 11) % 32
}

pub fn sa(w: u32) -> u32
    ensures { result ≡ f.sa w }
{
    (w >> 6) % 32
}

pub fn imm(w: u32) -> u32
    ensures { result ≡ f.imm w }
{
    w % 0x1_0000
}

pub fn iindex(w: u32) -> u32
    ensures { result ≡ f.iindex w }
{
    w % 0x400_0000
}
