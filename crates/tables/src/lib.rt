// The machine in lent memory: whether the tables are sound (specs/Sound.antt), the registers of a block, and Make.
#![tactic(auto)]

pub mod block;
pub mod machine;
pub mod make;
pub mod registers;

ghost use Rattle.std.specs.Prelude.{◌≡◌, ◌+◌, ◌≤◌, length};
ghost use Rattle.layout.specs.Layout.{block_at};
ghost use Rattle.tables.specs.Sound as x;

use layout::{
    BLOCK_GAP, BLOCK_REST, BLOCK_REST_WORDS, BLOCK_WORDS, CORES, GPR, HEADER_REST,
    HEADER_REST_WORDS, HEADER_WORDS, INITRR, LINES, MOST_CORES, MOST_PAGES, PAGE_BYTES, PAGES,
    RUNNING, SIPIRR, SIPIVECT,
};

// Whether the d words from i are zero.
fn zero_from(l: &[u32], i: usize, d: usize) -> bool
    requires { i + d ≤ length l.now }
    ensures { result ≡ x.zero_from d i l.now }
{
    l[i..i + d].iter().all(|x| *x == 0)
}

// Whether the words of a block below the records are sound.
fn sound_words(b: &[u32]) -> bool
    requires { length b.now ≡ 256 }
    ensures { result ≡ x.sound_words b.now }
{
    let rest = zero_from(b, BLOCK_REST, BLOCK_REST_WORDS);
    (b[GPR] == 0)
        & ((b[BLOCK_GAP] == 0)
            & (rest
                & ((b[RUNNING] <= 1)
                    & ((b[SIPIRR] <= 1) & ((b[INITRR] <= 1) & (b[SIPIVECT] < 256))))))
}

// Whether a block is sound, where memory has `bytes` bytes.
pub fn sound_block(b: &[u32], bytes: usize) -> bool
    requires { length b.now ≡ 256 }
    ensures { result ≡ x.sound_block bytes b.now }
{
    if !sound_words(b) {
        return false;
    }
    records::check::sound_records(b, bytes)
}

// Whether the blocks of the first `cores` cores are sound.
fn sound_blocks(tables: &[u32], cores: u32, bytes: usize) -> bool
    requires { (cores ≤ 4) × (block_at cores ≤ length tables.now) }
    ensures { result ≡ x.sound_blocks cores bytes tables.now }
{
    for k in (0..cores).rev() {
        if !sound_block(layout::block(tables, k), bytes) {
            return false;
        }
    }
    true
}

// Whether the header is sound and the lengths agree with it.
fn sound_header(tables: &[u32], bytes: usize) -> bool
    ensures { result ≡ x.sound_header bytes tables.now }
{
    if tables.len() < HEADER_WORDS {
        return false;
    }
    let rest = zero_from(tables, HEADER_REST, HEADER_REST_WORDS);
    let cores = tables[CORES];
    let pages = tables[PAGES];
    ((1 <= cores) & (cores <= MOST_CORES))
        & (((1 <= pages as usize) & (pages as usize <= MOST_PAGES))
            & ((tables.len() == HEADER_WORDS + BLOCK_WORDS * (cores as usize))
                & ((bytes == PAGE_BYTES * (pages as usize))
                    & (rest & (tables[LINES] < 0x100_0000)))))
}

// Whether any words are sound tables beside a memory of `bytes` bytes.
pub fn sound(tables: &[u32], bytes: usize) -> bool
    ensures { result ≡ x.sound tables.now bytes }
{
    if !sound_header(tables, bytes) {
        return false;
    }
    sound_blocks(tables, tables[CORES], bytes)
}
