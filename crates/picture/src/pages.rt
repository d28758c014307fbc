// What the two sides do with each page (specs/Pages.antt): how many pages, and the picture.
ghost use Rattle.std.specs.Prelude.{◌≡◌, ◌++◌, ◌+◌, ◌*◌, ◌≤◌, ◌<◌, length};
ghost use Rattle.word.specs.Word.{flag};
ghost use Rattle.picture.specs.Pages as pages;

use std::cmp::min;
use text::Text;

// How many pages of a map are reached, written and used as tables.
#[derive(Clone, Copy, Debug, PartialEq, Eq)]
pub struct Tally {
    pub reached: u32,
    pub written: u32,
    pub tables: u32,
}

fn is_reached(byte: u8) -> bool
    ensures { result ≡ pages.is_reached byte }
{
    byte != 0
}

fn is_written(byte: u8) -> bool
    ensures { result ≡ pages.can_write byte }
{
    byte / 4 % 2 == 1
}

fn is_table(byte: u8) -> bool
    ensures { result ≡ pages.is_table byte }
{
    byte / 2 % 2 == 1
}

impl Tally {
    // Counts one page more.
    fn count(&mut self, byte: u8)
        requires { (self.old.reached < 4096) × (self.old.written < 4096) × (self.old.tables < 4096) }
        ensures { (self.new.reached ≡ self.old.reached + flag (pages.is_reached byte)) × (self.new.written ≡ self.old.written + flag (pages.can_write byte)) × (self.new.tables ≡ self.old.tables + flag (pages.is_table byte)) }
    {
        self.reached += word::flag(is_reached(byte));
        self.written += word::flag(is_written(byte));
        self.tables += word::flag(is_table(byte));
    }

    pub fn of(map: &[u8]) -> Tally
        requires { length map.now ≤ 4096 }
        ensures { (result.reached ≡ pages.count_of pages.is_reached map.now) × (result.written ≡ pages.count_of pages.can_write map.now) × (result.tables ≡ pages.count_of pages.is_table map.now) }
    {
        let mut tally = Tally {
            reached: 0,
            written: 0,
            tables: 0,
        };
        for byte in map {
            tally.count(*byte);
        }
        tally
    }
}

// Whether a page spoils the verdict.
fn spoils(own: u8, other: u8) -> bool
    ensures { result ≡ pages.page_spoils own other }
{
    let alone = (is_written(own) & is_table(own)) | (is_written(other) & is_table(other));
    alone | (is_reached(own) & (is_written(other) | is_table(other)))
}

fn letter(byte: u8, table: u8, write: u8, read: u8) -> u8
    ensures { result ≡ pages.letter_of byte table write read }
{
    if is_table(byte) {
        return table;
    }
    if is_written(byte) {
        return write;
    }
    read
}

// The mark of a page.
fn mark(own: u8, other: u8) -> u8
    ensures { result ≡ pages.mark_of own other }
{
    if spoils(own, other) {
        return b'!';
    }
    if is_reached(own) {
        if is_reached(other) {
            if is_written(own) | is_table(own) {
                return b'+';
            }
            return b'=';
        }
        return letter(own, b't', b'w', b'r');
    }
    if is_reached(other) {
        return letter(other, b'T', b'W', b'R');
    }
    b'.'
}

// The marks of n pages from page a on.
fn put_marks<const N: usize>(text: &mut Text<N>, own: &[u8], other: &[u8], a: usize, n: usize)
    requires room { length text.old + n ≤ N }
    requires maps { (a + n ≤ length own.now) × (a + n ≤ length other.now) }
    ensures text { text.new ≡ text.old ++ pages.mark_row own.now other.now a n }
    ensures bound { length text.new ≤ length text.old + n }
{
    for i in 0..n {
        text.put_byte(mark(own[a + i], other[a + i]));
    }
}

// Row n: at most 86 bytes.
#[tactic(auto, unfolding(crate::specs::Pages::row))]
fn put_row<const N: usize>(text: &mut Text<N>, own: &[u8], other: &[u8], n: usize)
    requires room { length text.old + 86 ≤ N }
    requires maps { (64 * n < length own.now) × (length other.now ≡ length own.now) × (n < 64) }
    ensures text { text.new ≡ text.old ++ pages.row own.now other.now n }
    ensures bound { length text.new ≤ length text.old + 86 }
{
    let first = 64 * n;
    text.put_padded(first as u64, 4);
    text.put(b" ");
    put_marks(text, own, other, first, min(64, own.len() - first));
    text.put(b"\n");
}

// All rows: at most 64 of them.
pub fn put_picture<const N: usize>(text: &mut Text<N>, own: &[u8], other: &[u8])
    requires room { length text.old + 5504 ≤ N }
    requires maps { (length own.now ≤ 4096) × (length other.now ≡ length own.now) }
    ensures text { text.new ≡ text.old ++ pages.picture own.now other.now }
    ensures bound { length text.new ≤ length text.old + 5504 }
{
    for n in 0..own.len().div_ceil(64) {
        put_row(text, own, other, n);
    }
}
