// The branch condition, by its control bits.
ghost use Rattle.std.specs.Prelude.{◌≡◌, ◌<◌};
ghost use Rattle.units.specs.Branch.{bcres, bcon};

pub fn control(w: u32) -> u32
    ensures { result ≡ bcon w }
{
    let opcode = (w >> 26) % 64;
    let rt = (w >> 16) % 32;
    opcode % 8 * 2 + rt % 2
}

pub fn taken(a: u32, b: u32, con: u32) -> bool
    ensures { result ≡ bcres a b con }
{
    match con {
        0b0010 => word::less(a, 0),
        0b0011 => !word::less(a, 0),
        0b1000 => a == b,
        0b1001 => a == b,
        0b1010 => a != b,
        0b1011 => a != b,
        0b1100 => !word::less(0, a),
        0b1101 => !word::less(0, a),
        0b1110 => word::less(0, a),
        0b1111 => word::less(0, a),
        _ => false,
    }
}
