// The store buffer of a core, and the memory that the core sees through it (specs/Buffer.antt, specs/System.antt).
#![tactic(auto)]

ghost use Rattle.std.specs.Prelude.{◌≡◌, true, [], ◌/◌, ◌%◌, ◌^◌, ◌<◌, length};
ghost use Rattle.word.specs.Word.{minus};
ghost use Rattle.records.specs.Records.{stores, store_in, linked};
ghost use Rattle.records.specs.Contents.{sound_records};
ghost use Rattle.store_buffer.specs.Buffer as x;
ghost use Rattle.store_buffer.specs.System as y;
ghost use Rattle.store_buffer.specs.Leaving as z;
ghost use Rattle.store_buffer.specs.inner.Pass as p;

use layout::{IO_PORTS, LOCAL_PORTS, PORTS, RECORD_WORDS, RECORDS, STORE_HEAD};
use records::{Store, check};

// What a load gives: the value, and the pending store that served it, if one did, by its place from the oldest.
#[derive(Clone, Copy, Debug, PartialEq, Eq)]
pub struct Loaded {
    pub value: u32,
    pub served_by: Option<usize>,
}

// Why a load gives nothing: a byte is in neither memory nor a port, or its bytes have different newest pending stores.
#[derive(Clone, Copy, Debug, PartialEq, Eq)]
pub enum LoadError {
    Nowhere,
    Hazard,
}

// Where a store goes when it leaves: a port at its port address, memory, or nowhere, as it is too narrow for a port or
// beyond memory.
#[derive(Clone, Copy, Debug, PartialEq, Eq)]
pub enum Place {
    LocalPort(u32),
    IoPort(u32),
    Narrow,
    Memory,
    Beyond,
}

// The newest pending store of all bytes of an access: none, one at a place in a record, or not the same one for all.
#[derive(Clone, Copy, Debug, PartialEq, Eq)]
pub enum Source {
    Nothing,
    One(usize, u32),
    Mixed,
}

// How many of the bytes of an access a store writes.
#[derive(Clone, Copy, Debug, PartialEq, Eq)]
pub enum Cover {
    Whole,
    Part,
    Outside,
}

// How many of the d bytes at a a store writes.
fn cover_of(address: u32, width: u32, a: u32, d: u32) -> Cover
    ensures { result ≡ p.cover address width a d }
{
    let offset = word::sub(a, address);
    if offset < width {
        return if d <= width - offset {
            Cover::Whole
        } else {
            Cover::Part
        };
    }
    let begins_within = word::sub(address, a) < d;
    if begins_within {
        return if width == 0 {
            Cover::Outside
        } else {
            Cover::Part
        };
    }
    Cover::Outside
}

// What is found after one more store, at a place in a record.
fn found_after(cover: Cover, place: usize, number: u32, f: Source) -> Source
    ensures { result ≡ p.on_cover cover place number f }
{
    match cover {
        Cover::Whole => Source::One(place, number),
        Cover::Part => Source::Mixed,
        Cover::Outside => f,
    }
}

// The newest pending store of an access, in one pass. The chain of records ends where the next one is 0, which is not
// known beforehand. It reads two words of four here and no `Record`, as this loop runs for each load.
fn find(b: &[u32], a: u32, d: u32) -> Source
    requires b_len { length b.now ≡ 256 }
    requires b_value { linked b.now ≡ true }
    requires d_nonzero { 0 < d }
    ensures { result ≡ p.source_of b.now a d }
{
    let mut f = Source::Nothing;
    let mut place: usize = 0;
    let mut n = b[STORE_HEAD];
    while n != 0 {
        let i = RECORDS + RECORD_WORDS * (n as usize);
        f = found_after(cover_of(b[i + 1], b[i + 3], a, d), place, n, f);
        place += 1;
        n = b[i];
    }
    f
}

// Whether the bytes of an access have different newest pending stores.
pub fn hazard(b: &[u32], a: u32, d: u32) -> bool
    requires b_len { length b.now ≡ 256 }
    requires b_value { linked b.now ≡ true }
    requires d_nonzero { 0 < d }
    ensures { result ≡ x.sbhazard (stores b.now) a d }
{
    matches!(find(b, a, d), Source::Mixed)
}

// The d bytes of a word from byte k on.
fn part(v: u32, k: u32, d: u32) -> u32
    requires k_bound { k < 4 }
    requires d_value { y.sized d ≡ true }
    ensures { result ≡ v / 256 ^ k % 256 ^ d }
{
    let u = word::shift_right(v, 8 * k);
    match d {
        1 => u % 0x100,
        2 => u % 0x1_0000,
        _ => u,
    }
}

// The store in a record.
fn store_at(b: &[u32], number: u32) -> Store
    requires b_len { length b.now ≡ 256 }
    requires number_bound { number < 32 }
    ensures { result ≡ store_in b.now number }
{
    let i = RECORDS + RECORD_WORDS * (number as usize);
    Store {
        address: b[i + 1],
        value: b[i + 2],
        width: b[i + 3],
    }
}

// The bytes of an access that the store in a record forwards.
fn forwarded(b: &[u32], number: u32, a: u32, d: u32) -> u32
    requires b_len { length b.now ≡ 256 }
    requires number_bound { number < 32 }
    requires number_bound_2 { minus 32 a (store_in b.now number).address < 4 }
    requires d_value { y.sized d ≡ true }
    ensures { result ≡ (store_in b.now number).value / 256 ^ minus 32 a (store_in b.now number).address % 256 ^ d }
{
    let s = store_at(b, number);
    let k = word::sub(a, s.address);
    part(s.value, k, d)
}

// Whether an address is that of a port.
pub fn is_port(a: u32) -> bool
    ensures { result ≡ y.is_port a }
{
    let at = a as usize;
    check::is_local_port(at) | check::is_io_port(at)
}

// The d bytes of memory at an address.
pub fn read_memory(memory: &[u8], a: u32, d: u32) -> Option<u32>
    requires { y.aligned a d ≡ true }
    ensures { result ≡ y.reads d (y.memory_byte memory.now) a }
{
    let at = a as usize;
    let n = d as usize;
    if memory.len() < at + n {
        return None;
    }
    if d == 4 {
        return Some(word::read_word(memory, at));
    }
    Some(word::read(memory, at, n))
}

// The d bytes at an address where no pending store hits: of a port, or of memory.
fn read_beneath(b: &[u32], select: u32, window: u32, memory: &[u8], a: u32, d: u32) -> Option<u32>
    requires b_len { length b.now ≡ 256 }
    requires d_value { y.aligned a d ≡ true }
    ensures { result ≡ y.reads d (y.ms [] (y.ports_of b.now select window) memory.now) a }
{
    let at = a as usize;
    if check::is_local_port(at) {
        return Some(part(b[PORTS + (at - LOCAL_PORTS) / 4], a % 4, d));
    }
    if check::is_io_port(at) {
        let port = if at - IO_PORTS < 4 { select } else { window };
        return Some(part(port, a % 4, d));
    }
    read_memory(memory, a, d)
}

// A load: a hazard, the bytes that one pending store forwards, or those beneath.
pub fn load(
    b: &[u32],
    select: u32,
    window: u32,
    memory: &[u8],
    a: u32,
    d: u32,
) -> Result<Loaded, LoadError>
    requires b_len { length b.now ≡ 256 }
    requires b_value { sound_records (length memory.now) b.now ≡ true }
    requires d_value { y.aligned a d ≡ true }
    ensures { result ≡ y.loaded (stores b.now) (y.ports_of b.now select window) memory.now a d }
{
    match find(b, a, d) {
        Source::Nothing => match read_beneath(b, select, window, memory, a, d) {
            Some(value) => Ok(Loaded {
                value,
                served_by: None,
            }),
            None => Err(LoadError::Nowhere),
        },
        Source::One(place, number) => Ok(Loaded {
            value: forwarded(b, number, a, d),
            served_by: Some(place),
        }),
        Source::Mixed => Err(LoadError::Hazard),
    }
}

// The oldest pending store.
pub fn oldest_store(b: &[u32]) -> Option<Store>
    requires b_len { length b.now ≡ 256 }
    requires b_value { linked b.now ≡ true }
    ensures { result ≡ z.oldest (stores b.now) }
{
    let n = b[STORE_HEAD];
    if n == 0 {
        return None;
    }
    Some(store_at(b, n))
}

// Ports take words only.
fn word_only(s: Store, t: Place) -> Place
    ensures { result ≡ z.word_only s t }
{
    if s.width == 4 { t } else { Place::Narrow }
}

// Where a store goes, with memory of so many bytes.
pub fn destination(s: Store, bytes: usize) -> Place
    ensures { result ≡ z.place_of bytes s }
{
    let a = s.address;
    let at = a as usize;
    if check::is_local_port(at) {
        return word_only(s, Place::LocalPort(word::sub(a, LOCAL_PORTS as u32)));
    }
    if check::is_io_port(at) {
        return word_only(s, Place::IoPort(word::sub(a, IO_PORTS as u32)));
    }
    if at + s.width as usize <= bytes {
        return Place::Memory;
    }
    Place::Beyond
}
