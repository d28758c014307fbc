// The shift unit, by its function.
ghost use Rattle.std.specs.Prelude.{◌≡◌, ◌<◌};
ghost use Rattle.units.specs.Shift.{sures};

pub fn result(a: u32, i: u32, sf: u32) -> u32
    requires { i < 32 }
    ensures { result ≡ sures a i sf }
{
    match sf {
        0b00 => word::shift_left(a, i),
        0b10 => word::shift_right(a, i),
        0b11 => word::shift_signed(a, i),
        _ => 0,
    }
}
