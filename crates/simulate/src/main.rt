// The run program of 01: a machine and its steps from standard input, and what `simulation` says of them on standard
// output. A read or a write that fails ends it with an error.
#![tactic(auto)]

ghost use Rattle.std.specs.Prelude.{◌≡◌, true, ◌+◌, ◌*◌, ◌≤◌, ◌<◌, ◌^◌, length, IfOk};
ghost use Rattle.std.specs.Io.{ReadsAtMost};
ghost use Rattle.layout.specs.Layout.{table_words};
ghost use Rattle.simulation.specs.Simulated.{is_started, cores_byte};

use layout::{BLOCK_WORDS, HEADER_WORDS};
use reading::read_full;
use std::io;
use std::io::{Read, Write};

// Room for the two bytes of the sizes and a memory of eight pages.
const FRONT: usize = 2 + 8 * 4096;

// Steps go in parts of 1,024: so many are read and answered at a time.
const PART: usize = 24 * 1024;

// What a part of the input came to: how many steps it held; how many were accepted so far; how many bytes were left
// over after its last whole step; and whether more input may follow.
#[derive(Clone, Copy)]
struct Part {
    steps: u64,
    accepted: u64,
    left: usize,
    more: bool,
}

// Reads a part of the input, takes its steps and writes their lines.
fn take_part(
    input: &mut impl Read,
    output: &mut impl Write,
    t: &mut [u32],
    m: &mut [u8],
    place: u64,
    accepted: u64,
) -> io::Result<Part>
    requires { (place < 2 ^ 63) × (accepted ≤ place) }
    ensures { IfOk result (λ p. (p.steps ≤ 1024) × (p.accepted ≤ place + p.steps)) }
{
    let mut part = [0u8; PART];
    let mut out = [0u8; 65536];
    let n = read_full(input, &mut part)?;
    let taken = simulation::take_steps(t, m, &part[..n], place, accepted, &mut out);
    let written = taken.written;
    output.write_all(&out[..written])?;
    Ok(Part {
        steps: taken.steps,
        accepted: taken.accepted,
        left: taken.left,
        more: n == PART,
    })
}

// Takes the steps of the input to its end. (A part that is full may have another after it; the count ends no real run.)
fn take_input(
    input: &mut impl Read,
    output: &mut impl Write,
    t: &mut [u32],
    m: &mut [u8],
) -> io::Result<()> {
    let mut steps: u64 = 0;
    let mut accepted: u64 = 0;
    let mut left: usize = 0;
    for _parts in 0..0x20_0000_0000_0000u64 {
        let p = take_part(input, output, t, m, steps, accepted)?;
        steps += p.steps;
        accepted = p.accepted;
        left = p.left;
        if !p.more {
            break;
        }
    }
    let mut out = [0u8; 64];
    let n = simulation::put_last(&mut out, steps, accepted, left);
    output.write_all(&out[..n])
}

// Reads the first two bytes of the input, and answers how many came.
fn read_sizes(input: &mut impl Read, front: &mut [u8; FRONT]) -> io::Result<usize>
    ensures { IfOk result (λ n. n ≤ 2) }
{
    read_full(input, &mut front[..2])
}

// Reads the memory that they ask for to the place after them, and answers how many bytes there are then.
fn read_memory(input: &mut impl Read, front: &mut [u8; FRONT], sizes: usize) -> io::Result<usize>
    requires { sizes ≤ 2 }
    ensures { ReadsAtMost result front.new }
{
    let end = sizes + simulation::memory_bytes(&front[..sizes]);
    let came = read_full(input, &mut front[sizes..end])?;
    Ok(sizes + came)
}

// Makes the machine that the front of the input asks for, and takes its steps.
fn run(
    input: &mut impl Read,
    output: &mut impl Write,
    front: &mut [u8],
    tables: &mut [u32],
) -> io::Result<()>
    requires { (is_started front.old ≡ true) × (length tables.old ≡ table_words (cores_byte front.old)) }
{
    simulation::start(front, tables);
    let end = 2 + simulation::memory_bytes(front);
    take_input(input, output, tables, &mut front[2..end])
}

// The same in the space lent, which has room for four cores.
fn run_in(
    input: &mut impl Read,
    output: &mut impl Write,
    front: &mut [u8],
    tables: &mut [u32; 1056],
) -> io::Result<()>
    requires { is_started front.old ≡ true }
{
    let words = HEADER_WORDS + BLOCK_WORDS * (word::wide(front[0]) as usize);
    run(input, output, front, &mut tables[..words])
}

// Reads the machine, says whether it is one, and takes its steps.
fn simulate(input: &mut impl Read, output: &mut impl Write) -> io::Result<()> {
    let mut front = [0u8; FRONT];
    let mut out = [0u8; 64];
    let sizes = read_sizes(input, &mut front)?;
    let n = read_memory(input, &mut front, sizes)?;
    let r = simulation::put_first(&mut out, &front[..n]);
    output.write_all(&out[..r])?;
    if simulation::is_started(&front[..n]) {
        let mut tables = [0u32; 1056];
        run_in(input, output, &mut front[..n], &mut tables)?;
    }
    Ok(())
}

fn main(rt: HostRuntime) -> io::Result<()> {
    simulate(&mut rt.stdin(), &mut rt.stdout())
}
