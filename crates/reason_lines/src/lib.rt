// The lines for a reason why a group is not apart (specs/Reasons.antt).
#![tactic(auto)]

ghost use Rattle.std.specs.Prelude.{◌≡◌, ◌++◌, ◌+◌, ◌≤◌, length};
ghost use Rattle.reasons.specs.Why.{first_words, second_words};
ghost use Rattle.reason_lines.specs.Reasons as lines;

use reasons::Reason;
use text::Text;

// What reasons::tell says of a way: its core, the page at fault and its level there, where the way begins (0 the page
// in pto, 1 a walk, 2 a pending store) and the record's number, how many entries it goes through, and their addresses.
#[derive(Clone, Copy)]
pub struct Way {
    pub core: u32,
    pub page: u32,
    pub level: u32,
    pub start: u32,
    pub number: u32,
    pub entries: u32,
    pub first: u32,
    pub second: u32,
}

fn way_of(w: &[u32; 9]) -> Way
    ensures { result ≡ lines.way_of w.now }
{
    Way {
        core: w[0],
        page: w[1],
        level: w[2],
        start: w[4],
        number: w[5],
        entries: w[6],
        first: w[7],
        second: w[8],
    }
}

fn put_pages_of<const N: usize>(text: &mut Text<N>, w: Way)
    requires room { length text.old + 60 ≤ N }
    ensures text { text.new ≡ text.old ++ lines.virtual_text w }
    ensures bound { length text.new ≤ length text.old + 60 }
{
    let high = w.first / 4 % 1024 * 1024;
    match w.entries {
        0 => text.put(b", the page in pto"),
        1 => {
            text.put(b", virtual pages ");
            text.put_hex(high as u64, 5);
            text.put(b" to ");
            text.put_hex((high + 1023) as u64, 5);
        }
        _ => {
            text.put(b", virtual page ");
            text.put_hex((high + w.second / 4 % 1024) as u64, 5);
        }
    }
}

#[tactic(auto, unfolding(crate::specs::Reasons::start_text))]
fn put_start<const N: usize>(text: &mut Text<N>, w: Way)
    requires room { length text.old + 60 ≤ N }
    ensures text { text.new ≡ text.old ++ lines.start_text w }
    ensures bound { length text.new ≤ length text.old + 60 }
{
    match w.start {
        0 => put_pages_of(text, w),
        1 => {
            text.put(b", the walk in record ");
            text.put_number(w.number as u64);
        }
        _ => {
            text.put(b", the pending store in record ");
            text.put_number(w.number as u64);
        }
    }
}

#[tactic(auto, unfolding(crate::specs::Reasons::entries_text))]
fn put_entries<const N: usize>(text: &mut Text<N>, w: Way)
    requires room { length text.old + 42 ≤ N }
    ensures text { text.new ≡ text.old ++ lines.entries_text w }
    ensures bound { length text.new ≤ length text.old + 42 }
{
    match w.entries {
        0 => {}
        1 => {
            text.put(b", entry at ");
            text.put_hex(w.first as u64, 8);
        }
        _ => {
            text.put(b", entries at ");
            text.put_hex(w.first as u64, 8);
            text.put(b" and ");
            text.put_hex(w.second as u64, 8);
        }
    }
}

// A way, to the end of the line: at most 128 bytes.
#[tactic(auto, unfolding(crate::specs::Reasons::way_text))]
fn put_way<const N: usize>(text: &mut Text<N>, w: Way)
    requires room { length text.old + 128 ≤ N }
    ensures text { text.new ≡ text.old ++ lines.way_text w }
    ensures bound { length text.new ≤ length text.old + 128 }
{
    text.put(b"core ");
    text.put_number(w.core as u64);
    put_start(text, w);
    put_entries(text, w);
    text.put(b"\n");
}

// What is done to a page, and by which way.
#[tactic(auto, unfolding(crate::specs::Reasons::spoil_text))]
fn put_spoil<const N: usize>(text: &mut Text<N>, does: &[u8], more: &[u8], w: Way)
    requires room { length text.old + 228 ≤ N }
    requires words { (length does.now ≤ 40) × (length more.now ≤ 40) }
    ensures text { text.new ≡ text.old ++ lines.spoil_text does.now more.now w }
    ensures bound { length text.new ≤ length text.old + 228 }
{
    text.put(does);
    text.put_number(w.page as u64);
    text.put(more);
    put_way(text, w);
}

fn put_user<const N: usize>(text: &mut Text<N>, w: Way)
    requires room { length text.old + 100 ≤ N }
    ensures text { text.new ≡ text.old ++ lines.user_text w }
    ensures bound { length text.new ≤ length text.old + 100 }
{
    text.put(b"core ");
    text.put_number(w.core as u64);
    text.put(b" is not running in user mode\n");
}

// What reason 6 says of a page: the rest writes it, or uses it as a table.
fn put_touch<const N: usize>(text: &mut Text<N>, w: Way)
    requires room { length text.old + 228 ≤ N }
    ensures text { text.new ≡ text.old ++ lines.touch_text w }
    ensures bound { length text.new ≤ length text.old + 228 }
{
    match w.level {
        0 => put_spoil(
            text,
            b"the rest can write page ",
            b", which the group reaches: ",
            w,
        ),
        _ => put_spoil(
            text,
            b"the rest uses page ",
            b", which the group reaches, as a table: ",
            w,
        ),
    }
}

// The line of reason n: at most 228 bytes.
#[tactic(auto, unfolding(crate::specs::Reasons::fault_text))]
fn put_fault<const N: usize>(text: &mut Text<N>, n: u32, w: Way)
    requires room { length text.old + 228 ≤ N }
    ensures text { text.new ≡ text.old ++ lines.fault_text n w }
    ensures bound { length text.new ≤ length text.old + 228 }
{
    match n {
        1 => put_user(text, w),
        2 => put_spoil(text, b"the group reaches page ", b", beyond memory: ", w),
        3 => put_spoil(text, b"the rest reaches page ", b", beyond memory: ", w),
        4 => put_spoil(text, b"the group can write its own table page ", b": ", w),
        5 => put_spoil(text, b"the rest can write its own table page ", b": ", w),
        _ => put_touch(text, w),
    }
}

// The second line of reason 6: at most 228 bytes.
fn put_own<const N: usize>(text: &mut Text<N>, n: u32, v: Way)
    requires room { length text.old + 228 ≤ N }
    ensures text { text.new ≡ text.old ++ lines.own_text n v }
    ensures bound { length text.new ≤ length text.old + 228 }
{
    if n == 6 {
        put_spoil(text, b"the group reaches page ", b": ", v);
    }
}

// All of reason n, with both of its ways: at most 456 bytes.
#[tactic(auto, unfolding(crate::specs::Reasons::reason_text))]
fn put_reason<const N: usize>(text: &mut Text<N>, n: u32, w: Way, v: Way)
    requires room { length text.old + 456 ≤ N }
    ensures text { text.new ≡ text.old ++ lines.reason_text n w v }
    ensures bound { length text.new ≤ length text.old + 456 }
{
    put_fault(text, n, w);
    put_own(text, n, v);
}

// A reason by its number, as the words of its ways say it.
pub fn put_told<const N: usize>(text: &mut Text<N>, n: u32, a: Option<Reason>)
    requires room { length text.old + 456 ≤ N }
    ensures text { text.new ≡ text.old ++ lines.reason_text n (lines.way_of (first_words a)) (lines.way_of (second_words a)) }
    ensures bound { length text.new ≤ length text.old + 456 }
{
    let first = reasons::words::first_words(a);
    let second = reasons::words::second_words(a);
    put_reason(text, n, way_of(&first), way_of(&second));
}
