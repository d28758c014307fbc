// What the program `verdict` says, by its arguments and its input (specs/Judged.antt).
#![tactic(auto)]

mod arguments;
mod wrong;

ghost use Rattle.std.specs.Prelude.{◌≡◌, ◌++◌, ◌+◌, ◌*◌, ◌≤◌, length, drop};
ghost use Rattle.text.specs.Text.{Put};
ghost use Rattle.word.specs.Bytes.{words_in};
ghost use Rattle.judgement.specs.Report.{report_text};
ghost use Rattle.verdict_text.specs.Judged as judged;
ghost use Rattle.verdict_text.specs.Wrong as wrong_text;
ghost use Rattle.verdict_text.specs.inner.First.{first};

use layout::{BLOCK_WORDS, HEADER_WORDS};
use text::{Text, put};

// What the text may take.
pub const TEXT: usize = 12288;

// What a line on wrong arguments may take.
const LINE: usize = 200;

// The most that arguments may take, with a zero byte after each.
const MOST_ARGUMENTS: usize = 4096;

// The most that the tables of four cores take.
const TABLE_WORDS: usize = 1056;

// The report on the input: as many words as are lent for the tables, and then memory.
fn put_report<const N: usize>(text: &mut Text<N>, input: &[u8], group: u32, t: &mut [u32])
    requires room { length text.old + 12288 ≤ N }
    requires tables { 4 * length t.old ≤ length input.now }
    ensures text { text.new ≡ text.old ++ report_text group (words_in (length t.old) input.now) (drop (4 * length t.old) input.now) }
    ensures bound { length text.new ≤ length text.old + 12288 }
{
    word::read_words(t, input);
    let memory = 4 * t.len();
    judgement::put_report(text, t, &input[memory..], group);
}

// What is said of a machine of so many cores and pages.
fn put_machine<const N: usize>(text: &mut Text<N>, input: &[u8], group: u32, cores: u32, pages: u32)
    requires room { length text.old + 12288 ≤ N }
    requires sizes { (cores ≤ 4) × (pages ≤ 4096) }
    ensures text { text.new ≡ text.old ++ judged.of_machine group input.now cores pages }
    ensures bound { length text.new ≤ length text.old + 12288 }
{
    let words = HEADER_WORDS + BLOCK_WORDS * (cores as usize);
    let bytes = 4 * words + 4096 * (pages as usize);
    if input.len() < bytes {
        wrong::put_cut(text, input.len() as u64, cores, pages, bytes as u64);
        return;
    }
    if bytes < input.len() {
        wrong::put_long(text, cores, pages, bytes as u64);
        return;
    }
    let mut t = [0u32; TABLE_WORDS];
    put_report(text, input, group, &mut t[..words]);
}

// What is said of a group.
fn put_input<const N: usize>(text: &mut Text<N>, input: &[u8], group: u32)
    requires room { length text.old + 12288 ≤ N }
    ensures text { text.new ≡ text.old ++ judged.of_input group input.now }
    ensures bound { length text.new ≤ length text.old + 12288 }
{
    if input.len() < 8 {
        wrong::put_cut_head(text, input.len() as u64);
        return;
    }
    let cores = word::read_word(input, 0);
    if (cores < 1) | (4 < cores) {
        wrong::put_bad_cores(text, cores);
        return;
    }
    let pages = word::read_word(input, 4);
    if (pages < 1) | (4096 < pages) {
        wrong::put_bad_pages(text, pages);
        return;
    }
    put_machine(text, input, group, cores, pages);
}

// Says that an argument names no core; of a long one the first 16 bytes are shown.
fn put_no_core<const N: usize>(text: &mut Text<N>, a: &[u8], at: usize)
    requires room { length text.old + 200 ≤ N }
    requires place { at ≤ length a.now }
    ensures text { text.new ≡ text.old ++ judged.no_core (first (drop at a.now)) }
    ensures bound { length text.new ≤ length text.old + 200 }
{
    let n = arguments::length_at(a, at);
    if 16 < n {
        wrong::put_no_core(text, &a[at..at + 16], true);
        return;
    }
    wrong::put_no_core(text, &a[at..at + n], false);
}

// The line on arguments that are too long, at the start of the buffer; answers its length.
fn judge_long_arguments(out: &mut [u8]) -> usize
    requires { 200 ≤ length out.old }
    ensures { Put out.old 0 wrong_text.long_arguments_text result out.new × (result ≤ 200) }
{
    let mut text: Text<LINE> = Text::new();
    wrong::put_long_arguments(&mut text);
    put(out, 0, text.as_bytes())
}

// The line on an argument that names no core.
fn judge_no_core(a: &[u8], at: usize, out: &mut [u8]) -> usize
    requires { (200 ≤ length out.old) × (at ≤ length a.now) }
    ensures { Put out.old 0 (judged.no_core (first (drop at a.now))) result out.new × (result ≤ 200) }
{
    let mut text: Text<LINE> = Text::new();
    put_no_core(&mut text, a, at);
    put(out, 0, text.as_bytes())
}

// The line where no core is named.
fn judge_no_group(out: &mut [u8]) -> usize
    requires { 200 ≤ length out.old }
    ensures { Put out.old 0 wrong_text.no_group_text result out.new × (result ≤ 200) }
{
    let mut text: Text<LINE> = Text::new();
    wrong::put_no_group(&mut text);
    put(out, 0, text.as_bytes())
}

// What is said of a group. Its text is large: by itself it is part of no frame where the arguments are wrong.
#[inline(never)]
fn judge_group(group: u32, input: &[u8], out: &mut [u8]) -> usize
    requires { 12288 ≤ length out.old }
    ensures { Put out.old 0 (judged.of_input group input.now) result out.new × (result ≤ 12288) }
{
    let mut text: Text<TEXT> = Text::new();
    put_input(&mut text, input, group);
    put(out, 0, text.as_bytes())
}

// The text for these arguments and this input, at the start of the buffer; answers its length.
pub fn judge(a: &[u8], input: &[u8], out: &mut [u8]) -> usize
    requires { 12288 ≤ length out.old }
    ensures { Put out.old 0 (judged.judged a.now input.now) result out.new × (result ≤ 12288) }
{
    if MOST_ARGUMENTS < a.len() {
        return judge_long_arguments(out);
    }
    match arguments::ask(a) {
        Err(at) => judge_no_core(a, at, out),
        Ok(0) => judge_no_group(out),
        Ok(group) => judge_group(group, input, out),
    }
}

// Whether the input counts: where not, the same is said whatever it is.
pub fn asks_input(a: &[u8]) -> bool
    ensures { result ≡ judged.asks_input a.now }
{
    if MOST_ARGUMENTS < a.len() {
        return false;
    }
    match arguments::ask(a) {
        Err(_) => false,
        Ok(group) => group != 0,
    }
}
