// The multiplication unit, by its control bits.
ghost use Rattle.std.specs.Prelude.{◌≡◌, ◌<◌};
ghost use Rattle.units.specs.Multiplication.{mures, mulcon};

pub fn control(w: u32) -> u32
    ensures { result ≡ mulcon w }
{
    let opcode = (w >> 26) % 64;
    let fun = w % 64;
    ((opcode >> 2) % 2 + (fun >> 1) % 2) % 2 * 4 + (fun >> 2) % 2 * 2 + fun % 2
}

// The factors a and b, and HI and LO as one word.
pub fn result(a: u32, b: u32, acc: u64, con: u32) -> u64
    ensures { result ≡ mures a b acc con }
{
    match con {
        0b000 => word::signed_product(a, b),
        0b001 => word::product(a, b),
        0b100 => word::add_wide(acc, word::signed_product(a, b)),
        0b101 => word::add_wide(acc, word::product(a, b)),
        0b110 => word::sub_wide(acc, word::signed_product(a, b)),
        0b111 => word::sub_wide(acc, word::product(a, b)),
        _ => 0,
    }
}
