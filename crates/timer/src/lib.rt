// The timer on the header words of the tables: two ports and a tick, which raises line 0 (02, 'A timer on line 0').
#![tactic(auto)]

ghost use Rattle.std.specs.Prelude.{◌≡◌, ◌≤◌, length};
ghost use Rattle.timer.specs.Timer.{timer_sound, ticked, timer_written};

// Whether sound tables may have this period and so many ticks left.
pub fn is_sound(period: u32, left: u32) -> bool
    ensures { result ≡ timer_sound period left }
{
    (left <= period) & ((1 <= left) | (period == 0))
}

// One tick.
pub fn tick(t: &mut [u32])
    requires { 32 ≤ length t.old }
    ensures { t.new ≡ ticked t.old }
{
    let period = t[layout::PERIOD];
    let left = t[layout::LEFT];
    if period == 0 {
        return;
    }
    if left <= 1 {
        layout::set_line(t, 0, 1);
        t[layout::LEFT] = period;
        return;
    }
    t[layout::LEFT] = left - 1;
}

// A word written at port byte a: the period, or what lowers line 0.
pub fn write(t: &mut [u32], a: u32, v: u32)
    requires { 32 ≤ length t.old }
    ensures { t.new ≡ timer_written t.old a v }
{
    if a == 0 {
        t[layout::PERIOD] = v;
        t[layout::LEFT] = v;
        return;
    }
    layout::set_line(t, 0, 0);
}
