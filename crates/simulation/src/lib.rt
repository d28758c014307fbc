// What the run program says, by its input (specs/Simulated.antt): at its start, for a part of its steps, at its end.
#![tactic(auto)]

ghost use Rattle.std.specs.Prelude.{if◌then◌else◌, ◌≡◌, true, ◌++◌, ◌+◌, ◌*◌, ◌/◌, ◌%◌, ◌≤◌, ◌<◌, ◌^◌, length, drop, is_ok};
ghost use Rattle.io.specs.Counts.{IsPrefixLen};
ghost use Rattle.word.specs.Word.{flag};
ghost use Rattle.word.specs.Bytes.{words_in};
ghost use Rattle.text.specs.Text.{Put};
ghost use Rattle.layout.specs.Layout.{table_words};
ghost use Rattle.tables.specs.Make.{made};
ghost use Rattle.machine.specs.Step.{step};
ghost use Rattle.simulation.specs.Simulated as simulated;

use refusals::Refusal;
use steps::Answer;
use text::{Text, put};

// A step is six words of four bytes.
const STEP_BYTES: usize = 24;

// How much of the text there is, how many steps there were, how many were accepted so far, and how many bytes are left
// that are no whole step.
#[derive(Clone, Copy)]
pub struct Taken {
    pub written: usize,
    pub steps: u64,
    pub accepted: u64,
    pub left: usize,
}

// How many bytes of memory the first two bytes ask for; 0 where they are out of range or missing. It is no Option,
// since a caller reads so many bytes more, or knows that the bytes are in range.
pub fn memory_bytes(input: &[u8]) -> usize
    ensures { (result ≡ (if simulated.is_sized input.now then simulated.memory_bytes input.now else 0)) × (result ≤ 32768) }
{
    if input.len() < 2 {
        return 0;
    }
    let cores = word::wide(input[0]);
    let pages = word::wide(input[1]);
    if (cores < 1) | (4 < cores) {
        return 0;
    }
    if (pages < 1) | (8 < pages) {
        return 0;
    }
    4096 * (pages as usize)
}

// Whether the input starts as it must: two bytes in their ranges and a whole memory.
pub fn is_started(input: &[u8]) -> bool
    ensures { result ≡ simulated.is_started input.now }
{
    let n = memory_bytes(input);
    (0 < n) & (2 + n <= input.len())
}

// The first line, for the front of an input.
pub fn put_first(out: &mut [u8], input: &[u8]) -> usize
    requires { 64 ≤ length out.old }
    ensures { Put out.old 0 (simulated.first_text input.now) result out.new × IsPrefixLen result out.new }
{
    if is_started(input) {
        return put(out, 0, b"step answer\n");
    }
    put(out, 0, b"bad\n")
}

// Makes the machine that the front of the input asks for.
pub fn start(input: &[u8], t: &mut [u32])
    requires { (simulated.is_started input.now ≡ true) × (length t.old ≡ table_words (simulated.cores_byte input.now)) }
    ensures { t.new ≡ made (simulated.cores_byte input.now) (simulated.pages_byte input.now) }
{
    let cores = word::wide(input[0]);
    let end = 2 + memory_bytes(input);
    let _ = tables::make::make(t, &input[2..end], cores);
}

// 1 for an accepted step, 0 for a refused one.
fn accepted(answer: Result<Answer, Refusal>) -> u64
    ensures { result ≡ flag (is_ok answer) }
{
    u64::from(answer.is_ok())
}

// The step whose words begin at a byte.
fn take(t: &mut [u32], m: &mut [u8], input: &[u8], at: usize) -> Result<Answer, Refusal>
    requires { at + 24 ≤ length input.now }
    ensures value { result ≡ (step t.old m.old (words_in 6 (drop at input.now))).answer }
    ensures t_after { t.new ≡ (step t.old m.old (words_in 6 (drop at input.now))).tables }
    ensures m_after { m.new ≡ (step t.old m.old (words_in 6 (drop at input.now))).memory }
{
    let mut s = [0u32; 6];
    word::read_words(&mut s, &input[at..]);
    machine::step(t, m, &s)
}

// All whole steps of a part of the input, at most 1,024; a line for each. `place` is the number of the first, and
// `earlier` how many were accepted before it.
pub fn take_steps(
    t: &mut [u32],
    m: &mut [u8],
    input: &[u8],
    place: u64,
    earlier: u64,
    out: &mut [u8],
) -> Taken
    requires { (length input.now ≤ 24 * 1024) × (length out.old ≡ 64 * 1024) × (place < 2 ^ 63) × (earlier ≤ place) }
    ensures put { Put out.old 0 (simulated.step_lines (length input.now / 24) place (simulated.from t.old m.old earlier) input.now) result.written out.new × IsPrefixLen result.written out.new }
    ensures accepted_after { simulated.from t.new m.new result.accepted ≡ simulated.after_steps (length input.now / 24) (simulated.from t.old m.old earlier) input.now }
    ensures steps_value { (result.steps ≡ length input.now / 24) × (result.left ≡ length input.now % 24) × (result.accepted ≤ place + result.steps) }
{
    let n = input.len() / STEP_BYTES;
    let mut written: usize = 0;
    let mut taken = earlier;
    for i in 0..n {
        let a = take(t, m, input, STEP_BYTES * i);
        let mut line: Text<52> = Text::new();
        lines::put_line(&mut line, place + i as u64, a);
        written = put(out, written, line.as_bytes());
        taken += accepted(a);
    }
    Taken {
        written,
        steps: n as u64,
        accepted: taken,
        left: input.len() % STEP_BYTES,
    }
}

#[tactic(auto, unfolding(crate::specs::Simulated::last_text))]
fn put_last_lines<const N: usize>(text: &mut Text<N>, steps: u64, accepted: u64, left: usize)
    requires { (length text.old + 50 ≤ N) × (accepted ≤ steps) }
    ensures text { text.new ≡ text.old ++ simulated.last_text steps accepted left }
    ensures bound { length text.new ≤ length text.old + 50 }
{
    if left != 0 {
        text.put(b"cut\n");
    }
    lines::put_end(text, accepted, steps - accepted);
}

// The last lines, after so many steps, where so many bytes are left.
pub fn put_last(out: &mut [u8], steps: u64, accepted: u64, left: usize) -> usize
    requires { (64 ≤ length out.old) × (accepted ≤ steps) }
    ensures { Put out.old 0 (simulated.last_text steps accepted left) result out.new × IsPrefixLen result out.new }
{
    let mut text: Text<50> = Text::new();
    put_last_lines(&mut text, steps, accepted, left);
    put(out, 0, text.as_bytes())
}
