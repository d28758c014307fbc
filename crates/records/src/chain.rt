// The records of a chain, one after the other.
ghost use Rattle.std.specs.Prelude.{◌≡◌, true, ◌<◌, ◌≤◌, length, map};
ghost use Rattle.std.specs.Iterator.{YieldsFirst, item_count};
ghost use Rattle.records.specs.Records as x;
ghost use Rattle.records.specs.inner.Chains.{record_in, records_from};

use super::Record;
use layout::{RECORD_WORDS, RECORDS};

// The records along the links from `next`, of which at most `left` are visited.
#[derive(Clone, Copy)]
pub struct Chain<'a> {
    pub block: &'a [u32],
    pub next: u32,
    pub left: usize,
    ghost long: { length block.now ≡ 256 },
    ghost small: { x.all x.small (x.chain left block.now next) ≡ true },
    ghost few: { left ≤ 32 },
}

impl<'a> Chain<'a> {
    // The chain whose head stands in a word: it has at most 31 records, so 32 visits repeat one.
    pub fn at(block: &'a [u32], head: usize) -> Chain<'a>
        requires block_len { length block.now ≡ 256 }
        requires head_bound { head < 256 }
        requires head_value { x.all x.small (x.chain_at block.now head) ≡ true }
        ensures { records_from result.block.now result.left result.next ≡ map (record_in block.now) (x.chain_at block.now head) }
    {
        Chain {
            block,
            next: block[head],
            left: 32,
        }
    }
}

impl Iterator for Chain<'_> {
    type Item = Record;

    ghost next_gives = { YieldsFirst (λ s. records_from s.block.now s.left s.next) };

    ghost remaining = { item_count (λ s. records_from s.block.now s.left s.next) };

    fn next(&mut self) -> Option<Record> {
        let number = self.next;
        if (self.left == 0) | (number == 0) {
            return None;
        }
        let place = RECORDS + RECORD_WORDS * (number as usize);
        let record = Record {
            number,
            first: self.block[place + 1],
            second: self.block[place + 2],
            last: self.block[place + 3],
        };
        let link = self.block[place];
        self.left -= 1;
        self.next = link;
        Some(record)
    }
}
