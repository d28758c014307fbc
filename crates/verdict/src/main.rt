// The program of the verdict: the cores of a group as arguments, a machine from standard input, and what verdict_text
// says of both on standard output. A read of standard input or a write that fails ends it with an error.
#![tactic(auto)]

mod stack;

ghost use Rattle.std.specs.Prelude.{◌+◌, ◌≤◌, ◌<◌, ◌^◌, length, IfOk};
ghost use Rattle.std.specs.Io.{ReadsAtMost};
ghost use Rattle.io.specs.Counts.{IsPrefixLen};

use reading::read_full;
use std::env::{Env, FillError};
use std::fs::Files;
use std::io;
use std::io::{Read, Write};
use verdict_text::TEXT;

// Room for the arguments, and a byte by which longer ones are known.
const ARGUMENT_ROOM: usize = 4097;

// Room for the input of a machine of four cores, and a byte by which a longer one is known (verdict_text, the law
// `enough`): up to 1,024 pages a small room, beyond a large one.
const SMALL_PAGES: u32 = 1024;

const SMALL_ROOM: usize = 4198529;

const LARGE_ROOM: usize = 16781441;

// What the stack has to hold for each room, with all that is beside it and what the program is started with, which is
// up to a quarter: 6 and 24 MB.
const SMALL_STACK: u64 = 6291456;

const LARGE_STACK: u64 = 25165824;

// Reads an argument to a place, with a zero byte after it, and answers the place after that; or the end, where it does
// not fit.
fn read_argument(env: &impl Env, a: &mut [u8], at: usize, i: usize) -> usize
    requires { at ≤ length a.old }
    ensures { result ≤ length a.old }
{
    let Ok(n) = env.arg(i, &mut a[at..]) else {
        return a.len();
    };
    let end = at + n;
    if end < a.len() {
        a[end] = 0;
        return end + 1;
    }
    end
}

// How many arguments there are, the program's name among them.
fn count_arguments(env: &impl Env) -> usize {
    for i in 0..usize::MAX {
        if let Err(FillError::NotPresent) = env.arg(i, &mut []) {
            return i;
        }
    }
    usize::MAX
}

// Reads the arguments, and answers how many bytes they take.
fn read_arguments(env: &impl Env, a: &mut [u8]) -> usize
    ensures { IsPrefixLen result a.new }
{
    let n = count_arguments(env);
    let mut at: usize = 0;
    for i in 1..n {
        at = read_argument(env, a, at, i);
    }
    at
}

// Where the next piece to be read ends: after 64 KB, or at the end.
fn piece_end(done: usize, n: usize) -> usize
    requires { done < n }
    ensures { (done < result) × (result ≤ n) }
{
    if n - done < 65536 { n } else { done + 65536 }
}

// Reads the input, as much as there is room for, and answers how many bytes came. Where the input ends is known only
// once a piece is read.
fn read_input(reader: &mut impl Read, input: &mut [u8]) -> io::Result<usize>
    ensures { ReadsAtMost result input.new }
{
    let mut done: usize = 0;
    while done < input.len() {
        let end = piece_end(done, input.len());
        let got = read_full(reader, &mut input[done..end])?;
        if got < end - done {
            return Ok(done + got);
        }
        done = end;
    }
    Ok(done)
}

// Reads the input into the room lent, and judges it. A full room may lack some of it, where the machine has more pages
// than the room was made for.
fn judge_in(
    reader: &mut impl Read,
    out: &mut [u8; TEXT],
    a: &[u8],
    input: &mut [u8],
    pages: u32,
) -> io::Result<usize>
    requires { 8 ≤ length input.old }
    ensures { IfOk result (λ n. n ≤ 12288) }
{
    let n = read_input(reader, input)?;
    let full = n == input.len();
    let cores = word::read_word(input, 0);
    let asked = word::read_word(input, 4);
    let good = (1 <= cores) & (cores <= 4) & (asked <= 4096);
    if full & good & (pages < asked) {
        return Ok(text::put(
            out,
            0,
            b"a map of more than 1024 pages needs a larger stack: type 'ulimit -s 32768' first\n",
        ));
    }
    Ok(verdict_text::judge(a, &input[..n], out))
}

// The same in a room of N bytes. It calls itself on a text that is longer than any can be, so never. But the compiler
// takes a function that may call itself into no other: so the room is part of no other frame, and it is taken after the
// stack's limit was asked.
fn judge_room<const N: usize>(
    reader: &mut impl Read,
    out: &mut [u8; TEXT],
    a: &[u8],
    pages: u32,
) -> io::Result<usize>
    requires { (8 ≤ N) × (N < 2 ^ 32) }
    ensures { IfOk result (λ n. n ≤ 12288) }
{
    let mut input = [0u8; N];
    let r = judge_in(reader, out, a, &mut input, pages)?;
    if TEXT < r {
        return judge_room::<N>(reader, out, a, pages);
    }
    Ok(r)
}

// Judges in the room that the stack allows; where the arguments are wrong, no input is waited for.
fn judge(
    files: &impl Files,
    reader: &mut impl Read,
    out: &mut [u8; TEXT],
    a: &[u8],
) -> io::Result<usize>
    ensures { ReadsAtMost result out.new }
{
    if !verdict_text::asks_input(a) {
        return Ok(verdict_text::judge(a, b"", out));
    }
    let limit = stack::limit(files);
    if limit < SMALL_STACK {
        return Ok(text::put(
            out,
            0,
            b"the stack is too small: type 'ulimit -s 8192' first\n",
        ));
    }
    if limit < LARGE_STACK {
        return judge_room::<SMALL_ROOM>(reader, out, a, SMALL_PAGES);
    }
    judge_room::<LARGE_ROOM>(reader, out, a, u32::MAX)
}

fn main(rt: HostRuntime) -> io::Result<()> {
    let mut a = [0u8; ARGUMENT_ROOM];
    let mut out = [0u8; TEXT];
    let n = read_arguments(&rt, &mut a);
    let r = judge(&rt, &mut rt.stdin(), &mut out, &a[..n])?;
    Write::write_all(&mut rt.stdout(), &out[..r])
}
