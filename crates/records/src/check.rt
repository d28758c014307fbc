// Whether the records of a block are sound, for any words whatever (specs/Records.antt, specs/Contents.antt).
ghost use Rattle.std.specs.Prelude.{◌≡◌, true, ◌&&◌, map, ℕ, ◌+◌, ◌*◌, ◌^◌, ◌<◌, ◌≤◌, length, get_or, eqb};
ghost use Rattle.records.specs.Records as x;
ghost use Rattle.records.specs.Contents as y;
ghost use Rattle.records.specs.inner.Rules as z;
ghost use Rattle.records.specs.inner.Tallied.{Tallied};

use super::chain::Chain;
use super::{Store, Walk};
use layout::{
    FREE_HEAD, IO_PORT_BYTES, IO_PORTS, LOCAL_PORT_BYTES, LOCAL_PORTS, RECORD_WORDS, RECORDS,
    STORE_HEAD, WALK_HEAD,
};

// Counts the records of a chain. False if there are more than `most`, or one is 32 or more or breaks the rule.
// A loop, and no `Chain`: whether these words are a chain at all is what it finds out.
fn tally(b: &[u32], head: usize, rule: Rule, most: usize, seen: &mut [u8; 32]) -> bool
    requires b_len { length b.now ≡ 256 }
    requires head_bound { head < 256 }
    requires most_bound { most < 32 }
    requires seen_len { length seen.old ≡ 32 }
    requires by_index { (m : ℕ) → get_or seen.old m 0 ≤ 64 }
    ensures { Tallied b.now head rule most seen.old seen.new result }
{
    let mut n = b[head];
    let mut k = most;
    while n != 0 {
        if k == 0 {
            return false;
        }
        if 32 <= n {
            return false;
        }
        if !obeys(b, n, rule) {
            return false;
        }
        let i = n as usize;
        seen[i] += 1;
        n = b[RECORDS + RECORD_WORDS * i];
        k -= 1;
    }
    true
}

// Whether each of 1 to 31 was counted once.
fn each_once(seen: &[u8; 32]) -> bool
    ensures { result ≡ x.each 31 (λ n. eqb (get_or seen.now n 0) 1) }
{
    seen[1..].iter().all(|n| *n == 1)
}

// Whether each of records 1 to 31 is on the chains once, no other is, and each chain keeps its length and its rule.
fn records_once(b: &[u32], bytes: usize) -> bool
    requires { length b.now ≡ 256 }
    ensures { result ≡ z.ruled bytes b.now && x.once_each b.now }
{
    let mut seen = [0u8; 32];
    if !tally(b, STORE_HEAD, Rule::Store(bytes), 8, &mut seen) {
        return false;
    }
    if !tally(b, WALK_HEAD, Rule::Walk, 23, &mut seen) {
        return false;
    }
    if !tally(b, FREE_HEAD, Rule::Blank, 31, &mut seen) {
        return false;
    }
    each_once(&seen)
}

// Whether an address is one of the local APIC's port bytes.
pub fn is_local_port(a: usize) -> bool
    ensures { result ≡ y.local_port a }
{
    (LOCAL_PORTS..LOCAL_PORTS + LOCAL_PORT_BYTES).contains(&a)
}

// Whether an address is one of the I/O APIC's port bytes.
pub fn is_io_port(a: usize) -> bool
    ensures { result ≡ y.io_port a }
{
    (IO_PORTS..IO_PORTS + IO_PORT_BYTES).contains(&a)
}

// Whether a byte is in memory of `bytes` bytes or in a port.
fn there(bytes: usize, a: usize) -> bool
    ensures { result ≡ y.there bytes a }
{
    (a < bytes) | (is_io_port(a) | is_local_port(a))
}

// Whether two bytes are there.
fn pair_there(bytes: usize, a: usize) -> bool
    requires { a < 2 ^ 33 }
    ensures { result ≡ y.there bytes a && y.there bytes (a + 1) }
{
    there(bytes, a) & there(bytes, a + 1)
}

// Whether a pending store is sound.
fn store_sound(bytes: usize, s: Store) -> bool
    ensures { result ≡ y.store_sound bytes s }
{
    let a = s.address as usize;
    if s.width == 1 {
        return (s.value < 0x100) & there(bytes, a);
    }
    if s.width == 2 {
        return (a % 2 == 0) & ((s.value < 0x1_0000) & pair_there(bytes, a));
    }
    if s.width == 4 {
        return (a % 4 == 0) & (pair_there(bytes, a) & pair_there(bytes, a + 2));
    }
    false
}

// Whether a walk is sound.
fn walk_sound(w: Walk) -> bool
    ensures { result ≡ y.walk_sound w }
{
    (w.first / 8 % 4 <= 2) & ((w.first / 32 % 2 == 0) & (w.second < 0x10_0000))
}

// What each record of a chain must be.
#[derive(Clone, Copy)]
enum Rule {
    Blank,
    Store(usize),
    Walk,
}

// Whether a record is what it must be.
fn obeys(b: &[u32], n: u32, rule: Rule) -> bool
    requires b_len { length b.now ≡ 256 }
    requires n_bound { n < 32 }
    ensures { result ≡ z.obeys rule b.now n }
{
    let i = RECORDS + RECORD_WORDS * (n as usize);
    let first = b[i + 1];
    let second = b[i + 2];
    let last = b[i + 3];
    match rule {
        Rule::Blank => (first == 0) & ((second == 0) & (last == 0)),
        Rule::Store(bytes) => store_sound(
            bytes,
            Store {
                address: first,
                value: second,
                width: last,
            },
        ),
        Rule::Walk => walk_sound(Walk { first, second }) & (last == 0),
    }
}

// Whether record 0 is zero.
fn first_blank(b: &[u32]) -> bool
    requires { length b.now ≡ 256 }
    ensures { result ≡ x.first_blank b.now }
{
    (b[RECORDS] == 0) & obeys(b, 0, Rule::Blank)
}

// Whether no two walks are the same.
fn walks_differ(b: &[u32]) -> bool
    requires b_len { length b.now ≡ 256 }
    requires b_value { x.all x.small (x.walk_numbers b.now) ≡ true }
    ensures { result ≡ x.differing (x.walks b.now) }
{
    let mut rest = Chain::at(b, WALK_HEAD);
    while let Some(record) = rest.next() {
        let mut others = rest;
        if others.any(|other| other.walk() == record.walk()) {
            return false;
        }
    }
    true
}

// Whether the records of a block are sound, where memory has `bytes` bytes.
pub fn sound_records(b: &[u32], bytes: usize) -> bool
    requires { length b.now ≡ 256 }
    ensures { result ≡ y.sound_records bytes b.now }
{
    if !records_once(b, bytes) {
        return false;
    }
    if !first_blank(b) {
        return false;
    }
    walks_differ(b)
}
