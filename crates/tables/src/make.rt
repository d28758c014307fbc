// The operation Make (specs/Make.antt).
ghost use Rattle.std.specs.Prelude.{◌≡◌, ◌∷◌, ◌++◌, ◌+◌, ◌*◌, ◌<◌, ◌≤◌, length, drop, replicate};
ghost use Rattle.std.specs.Result.{result_err};
ghost use Rattle.layout.specs.Layout.{table_words, block_at, block_words};
ghost use Rattle.layout.specs.Blocks.{with_block};
ghost use Rattle.tables.specs.Make as x;

use layout::{
    BLOCK_WORDS, CORES, FREE_HEAD, HEADER_WORDS, MOST_CORES, MOST_PAGES, PAGE_BYTES, PAGES, PORTS,
    RECORD_WORDS, RECORDS, RUNNING,
};
use refusals::Refusal;

// Records 1 to 30 each name the next one.
fn chain_records(b: &mut [u32])
    requires { length b.old ≡ 256 }
    ensures { b.new ≡ x.chained 30 b.old }
{
    for r in 1..=30 {
        b[RECORDS + RECORD_WORDS * (r as usize)] = r + 1;
    }
}

// The block of core k.
fn make_block(b: &mut [u32], k: u32)
    requires { (length b.old ≡ 256) × (k < 4) }
    ensures { b.new ≡ x.made_block k }
{
    b.fill(0);
    b[RUNNING] = (k == 0) as u32;
    b[FREE_HEAD] = 1;
    b[PORTS] = k * 0x100_0000;
    chain_records(b);
}

// The header of n cores and some pages.
fn make_header(tables: &mut [u32], n: u32, pages: u32)
    requires { 32 ≤ length tables.old }
    ensures { tables.new ≡ n ∷ pages ∷ replicate 30 0 ++ drop 32 tables.old }
{
    tables[..HEADER_WORDS].fill(0);
    tables[CORES] = n;
    tables[PAGES] = pages;
}

// The block of core k in the tables.
fn make_core(tables: &mut [u32], k: u32)
    requires { (k < 4) × (block_at k + block_words ≤ length tables.old) }
    ensures { tables.new ≡ with_block tables.old k (x.made_block k) }
{
    let a = layout::block_at(k);
    let e = a + BLOCK_WORDS;
    make_block(&mut tables[a..e], k);
}

// The tables of n cores and some pages.
fn fill(tables: &mut [u32], n: u32, pages: u32)
    requires { (n ≤ 4) × (length tables.old ≡ table_words n) }
    ensures { tables.new ≡ x.made n pages }
{
    make_header(tables, n, pages);
    for k in 0..n {
        make_core(tables, k);
    }
}

// Makes a machine of n cores: fills the tables, and leaves memory. A refusal writes nothing.
pub fn make(tables: &mut [u32], memory: &[u8], n: u32) -> Result<(), Refusal>
    ensures result_value { result_err result ≡ x.refusal n (length memory.now) (length tables.old) }
    ensures number { x.number_of (result_err result) ≡ x.number_of (x.refusal n (length memory.now) (length tables.old)) }
    ensures tables_after { tables.new ≡ x.made_or (x.refusal n (length memory.now) (length tables.old)) n (length memory.now) tables.old }
{
    if (n < 1) | (MOST_CORES < n) {
        return Err(Refusal::Cores);
    }
    let pages = memory.len() / PAGE_BYTES;
    // Bounds as two comparisons each: that is the form in which the refusals are defined.
    if (memory.len() % PAGE_BYTES != 0) | ((pages < 1) | (MOST_PAGES < pages)) {
        return Err(Refusal::Memory);
    }
    if tables.len() != HEADER_WORDS + BLOCK_WORDS * (n as usize) {
        return Err(Refusal::TableLength);
    }
    fill(tables, n, pages as u32);
    Ok(())
}
