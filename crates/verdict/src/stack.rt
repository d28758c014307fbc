// How many bytes the stack may take, as the system says it in /proc/self/limits.
ghost use Rattle.std.specs.Io.{ReadsAtMost};

use reading::read_full;
use std::fs::{File, Files};
use std::io;

// The limit that systems give, 8 MB: it is taken where the system does not say.
const USUAL: u64 = 8388608;

// What the row of the stack says: no limit is a large one. Where there is no such row, what systems give.
fn limit_in(limits: &str) -> u64 {
    let Some((_, row)) = limits.split_once("Max stack size") else {
        return USUAL;
    };
    match row.split_whitespace().next() {
        None => USUAL,
        Some("unlimited") => u64::MAX,
        Some(bytes) => bytes.parse().unwrap_or(0),
    }
}

// Reads what the system says, as much as there is room for, and answers how many bytes came.
fn read_limits(files: &impl Files, s: &mut [u8]) -> io::Result<usize>
    ensures { ReadsAtMost result s.new }
{
    let mut file = File::open(files, "/proc/self/limits")?;
    read_full(&mut file, s)
}

pub fn limit(files: &impl Files) -> u64 {
    let mut s = [0u8; 4096];
    let Ok(n) = read_limits(files, &mut s) else {
        return USUAL;
    };
    match str::from_utf8(&s[..n]) {
        Ok(limits) => limit_in(limits),
        Err(_) => USUAL,
    }
}
