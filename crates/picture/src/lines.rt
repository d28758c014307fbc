// The lines of a report (specs/Lines.antt).
ghost use Rattle.std.specs.Prelude.{if◌then◌else◌, ◌≡◌, ◌∷◌, [], ◌++◌, ◌+◌, ◌≤◌, ◌<◌, length};
ghost use Rattle.word.specs.Word.{is_set};
ghost use Rattle.reach.specs.Reach.{members};
ghost use Rattle.picture.specs.Lines as lines;

use crate::pages::Tally;
use separation::sides::is_member;
use text::Text;

// How many cores of n are of a group.
pub fn count_cores(group: u32, n: u32) -> u32
    requires { n ≤ 4 }
    ensures { result ≡ length (members group n) }
{
    let mut count: u32 = 0;
    for k in 0..n {
        count += word::flag(is_member(group, k));
    }
    count
}

fn put_core_word<const N: usize>(text: &mut Text<N>, n: u32)
    requires room { length text.old + 8 ≤ N }
    ensures text { text.new ≡ text.old ++ lines.core_word n }
    ensures bound { length text.new ≤ length text.old + 8 }
{
    match n {
        0 => text.put(b"no cores"),
        1 => text.put(b"core"),
        _ => text.put(b"cores"),
    }
}

// A blank and core k, where it is of the group.
#[tactic(auto, unfolding(crate::specs::Lines::listed))]
fn put_core<const N: usize>(text: &mut Text<N>, group: u32, k: u32)
    requires room { length text.old + 2 ≤ N }
    requires small { k < 4 }
    ensures text { text.new ≡ text.old ++ lines.listed (if is_set group k then k ∷ [] else []) }
    ensures bound { length text.new ≤ length text.old + 2 }
{
    if is_member(group, k) {
        text.put_byte(b' ');
        text.put_byte(48 + k as u8);
    }
}

// A blank and a number for each core of the group, among n.
fn put_listed<const N: usize>(text: &mut Text<N>, group: u32, n: u32)
    requires room { length text.old + 8 ≤ N }
    requires few { n ≤ 4 }
    ensures text { text.new ≡ text.old ++ lines.listed (members group n) }
    ensures bound { length text.new ≤ length text.old + 8 }
{
    for k in 0..n {
        put_core(text, group, k);
    }
}

// The cores of a group, among n: at most 16 bytes.
#[tactic(auto, unfolding(crate::specs::Lines::cores_text))]
pub fn put_cores<const N: usize>(text: &mut Text<N>, group: u32, n: u32)
    requires room { length text.old + 16 ≤ N }
    requires few { n ≤ 4 }
    ensures text { text.new ≡ text.old ++ lines.cores_text (members group n) }
    ensures bound { length text.new ≤ length text.old + 16 }
{
    put_core_word(text, count_cores(group, n));
    put_listed(text, group, n);
}

// This and `put_tables` differ in a word: one function for both would take both forms of it, and a bound on them.
fn put_pages<const N: usize>(text: &mut Text<N>, n: u32)
    requires room { length text.old + 26 ≤ N }
    ensures text { text.new ≡ text.old ++ lines.pages_text n }
    ensures bound { length text.new ≤ length text.old + 26 }
{
    text.put_number(n as u64);
    match n {
        1 => text.put(b" page"),
        _ => text.put(b" pages"),
    }
}

fn put_tables<const N: usize>(text: &mut Text<N>, n: u32)
    requires room { length text.old + 31 ≤ N }
    ensures text { text.new ≡ text.old ++ lines.tables_text n }
    ensures bound { length text.new ≤ length text.old + 31 }
{
    text.put_number(n as u64);
    match n {
        1 => text.put(b" as a table"),
        _ => text.put(b" as tables"),
    }
}

// How many pages a side reaches, writes and uses as tables, to the end of the line: at most 104 bytes.
#[tactic(auto, unfolding(crate::specs::Lines::tally_text))]
fn put_tally<const N: usize>(text: &mut Text<N>, map: &[u8])
    requires room { length text.old + 104 ≤ N }
    requires map_len { length map.now ≤ 4096 }
    ensures text { text.new ≡ text.old ++ lines.tally_text map.now }
    ensures bound { length text.new ≤ length text.old + 104 }
{
    let tally = Tally::of(map);
    text.put(b"; reaches ");
    put_pages(text, tally.reached);
    text.put(b", writes ");
    text.put_number(tally.written as u64);
    text.put(b", uses ");
    put_tables(text, tally.tables);
    text.put(b"\n");
}

// The line of a side: at most 127 bytes.
#[tactic(auto, unfolding(crate::specs::Lines::side_text))]
pub fn put_side<const N: usize>(text: &mut Text<N>, name: &[u8], group: u32, n: u32, map: &[u8])
    requires room { length text.old + 127 ≤ N }
    requires name_len { length name.now ≤ 7 }
    requires few { n ≤ 4 }
    requires map_len { length map.now ≤ 4096 }
    ensures text { text.new ≡ text.old ++ lines.side_text name.now (members group n) map.now }
    ensures bound { length text.new ≤ length text.old + 127 }
{
    text.put(name);
    put_cores(text, group, n);
    put_tally(text, map);
}

// What the marks mean: three lines.
#[tactic(auto, unfolding(crate::specs::Lines::legend_text))]
pub fn put_legend<const N: usize>(text: &mut Text<N>)
    requires room { length text.old + 240 ≤ N }
    ensures text { text.new ≡ text.old ++ lines.legend_text }
    ensures bound { length text.new ≤ length text.old + 240 }
{
    text.put(b"r w t: the group reads it, writes it, uses it as a table; R W T: the rest does\n");
    text.put(b"=: both read it; +: the group writes it or uses it as a table, the rest reads it\n");
    text.put(b"!: it spoils the verdict; .: neither the group nor the rest reaches it\n");
}
