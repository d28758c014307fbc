// The records of a core's block: pending stores and walks in chains of records (specs/Records.antt).
#![tactic(auto)]

pub mod chain;
pub mod check;

ghost use Rattle.std.specs.Prelude.{◌≡◌, true, ◌+◌, ◌*◌, ◌<◌, length, get_or};
ghost use Rattle.layout.specs.Layout.{store_head, free_head};
ghost use Rattle.records.specs.Records as x;
ghost use Rattle.records.specs.inner.Chains.{store_of, walk_of};

use chain::Chain;
use layout::{FREE_HEAD, RECORD_WORDS, RECORDS, STORE_HEAD, WALK_HEAD};

#[derive(Clone, Copy, Debug, PartialEq, Eq)]
pub struct Store {
    pub address: u32,
    pub value: u32,
    pub width: u32,
}

#[derive(Clone, Copy, Debug, PartialEq, Eq)]
pub struct Walk {
    pub first: u32,
    pub second: u32,
}

// A record: its number and the three words after its link.
#[derive(Clone, Copy)]
pub struct Record {
    pub number: u32,
    pub first: u32,
    pub second: u32,
    pub last: u32,
}

impl Record {
    pub fn store(self) -> Store
        ensures { result ≡ store_of self }
    {
        Store {
            address: self.first,
            value: self.second,
            width: self.last,
        }
    }

    pub fn walk(self) -> Walk
        ensures { result ≡ walk_of self }
    {
        Walk {
            first: self.first,
            second: self.second,
        }
    }
}

// Which walks go: all; those of a page and address space (va * 64 + asid); those and the incomplete ones.
#[derive(Clone, Copy)]
pub enum Flush {
    All,
    Page(u32),
    Incomplete(u32),
}

// The record whose number stands in the word `at` leaves its chain and goes, blank, to the front of the free chain.
// Both this and `insert` move three links, but other ones: a common function would take all six places.
fn release(b: &mut [u32], at: usize)
    requires b_len { length b.old ≡ 256 }
    requires at_bound { at < 256 }
    requires at_bound_2 { get_or b.old at 0 < 32 }
    ensures { b.new ≡ x.release b.old at }
{
    let r = b[at];
    let i = RECORDS + RECORD_WORDS * (r as usize);
    let next = b[i];
    let free = b[FREE_HEAD];
    b[at] = next;
    b[i] = free;
    b[i + 1] = 0;
    b[i + 2] = 0;
    b[i + 3] = 0;
    b[FREE_HEAD] = r;
}

// The first free record takes three words and goes in where the word `at` points.
fn insert(b: &mut [u32], at: usize, p: u32, q: u32, s: u32)
    requires b_len { length b.old ≡ 256 }
    requires at_bound { at < 256 }
    requires free_head_bound { get_or b.old free_head 0 < 32 }
    ensures { b.new ≡ x.insert b.old at p q s }
{
    let r = b[FREE_HEAD];
    let i = RECORDS + RECORD_WORDS * (r as usize);
    let next = b[i];
    let link = b[at];
    b[at] = r;
    b[i] = link;
    b[i + 1] = p;
    b[i + 2] = q;
    b[i + 3] = s;
    b[FREE_HEAD] = next;
}

// The word with the zero at the end of the chain of stores.
fn stores_end(b: &[u32]) -> usize
    requires b_len { length b.now ≡ 256 }
    requires b_value { x.linked b.now ≡ true }
    ensures { result ≡ x.end_of store_head (x.store_numbers b.now) }
{
    Chain::at(b, STORE_HEAD).fold(STORE_HEAD, |_, record| {
        RECORDS + RECORD_WORDS * (record.number as usize)
    })
}

// A new store goes last.
pub fn put_store(b: &mut [u32], s: Store)
    requires b_len { length b.old ≡ 256 }
    requires b_value { x.linked b.old ≡ true }
    ensures { b.new ≡ x.put_store b.old s }
{
    let at = stores_end(b);
    insert(b, at, s.address, s.value, s.width);
}

// The oldest store goes.
pub fn take_store(b: &mut [u32])
    requires b_len { length b.old ≡ 256 }
    requires b_value { x.linked b.old ≡ true }
    ensures { b.new ≡ x.take_store b.old }
{
    release(b, STORE_HEAD);
}

// Whether the walk is held.
pub fn holds_walk(b: &[u32], w: Walk) -> bool
    requires b_len { length b.now ≡ 256 }
    requires b_value { x.linked b.now ≡ true }
    ensures { result ≡ x.among w (x.walks b.now) }
{
    Chain::at(b, WALK_HEAD).any(|record| record.walk() == w)
}

// A new walk goes first; one already held is not added again.
pub fn add_walk(b: &mut [u32], w: Walk)
    requires b_len { length b.old ≡ 256 }
    requires b_value { x.linked b.old ≡ true }
    ensures { b.new ≡ x.add_walk b.old w }
{
    if holds_walk(b, w) {
        return;
    }
    insert(b, WALK_HEAD, w.first, w.second, 0);
}

// Whether the walk with this first word goes.
fn goes(f: Flush, first: u32) -> bool
    ensures { result ≡ x.goes f first }
{
    match f {
        Flush::All => true,
        Flush::Page(p) => first / 64 == p,
        Flush::Incomplete(p) => !(first / 8 % 4 == 0) | (first / 64 == p),
    }
}

// The walks that match go to the free chain, one after the other.
// A loop, and no `Chain`: the links change under it.
pub fn drop_walks(b: &mut [u32], f: Flush)
    requires b_len { length b.old ≡ 256 }
    requires b_value { x.linked b.old ≡ true }
    ensures { b.new ≡ x.drop_walks f b.old }
{
    let mut at: usize = WALK_HEAD;
    let mut n = b[WALK_HEAD];
    while n != 0 {
        let i = RECORDS + RECORD_WORDS * (n as usize);
        let first = b[i + 1];
        if goes(f, first) {
            release(b, at);
            n = b[at];
        } else {
            at = i;
            n = b[i];
        }
    }
}

// How many stores are pending.
pub fn count_stores(b: &[u32]) -> usize
    requires b_len { length b.now ≡ 256 }
    requires b_value { x.linked b.now ≡ true }
    ensures { result ≡ length (x.stores b.now) }
{
    Chain::at(b, STORE_HEAD).count()
}

// How many walks are held.
pub fn count_walks(b: &[u32]) -> usize
    requires b_len { length b.now ≡ 256 }
    requires b_value { x.linked b.now ≡ true }
    ensures { result ≡ length (x.walks b.now) }
{
    Chain::at(b, WALK_HEAD).count()
}
