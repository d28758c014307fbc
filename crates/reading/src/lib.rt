// Reading from standard input and from files, for both programs.
#![tactic(auto)]

ghost use Rattle.std.specs.Io.{ReadsAtMost};

use std::io;
use std::io::{ErrorKind, Read};

// The system's number for a descriptor that is not open.
const NOT_OPEN: i32 = 9;

// Reads until the buffer is full or the input ends, and answers how many bytes came. An input that is closed counts as
// an empty one, and a read that a signal interrupts is tried again.
pub fn read_full(input: &mut impl Read, buf: &mut [u8]) -> io::Result<usize>
    ensures { ReadsAtMost result buf.new }
{
    let mut done: usize = 0;
    for _ in 0..u64::MAX {
        if buf.len() <= done {
            break;
        }
        match input.read(&mut buf[done..]) {
            Ok(0) => break,
            Ok(n) => done += n,
            Err(e) if e.kind() == ErrorKind::Interrupted => {}
            Err(e) if e.raw_os_error() == Some(NOT_OPEN) => break,
            Err(e) => return Err(e),
        }
    }
    Ok(done)
}
