// Walks and page table entries (specs/Walks.antt), and what the TLB's own steps decide (specs/Steps.antt).
#![tactic(auto)]

ghost use Rattle.std.specs.Prelude.{◌≡◌, Bool, true, false, ℕ, ◌+◌, ◌*◌, ◌<◌, ◌≤◌, ◌^◌, length};
ghost use Rattle.records.specs.Records.{linked, walks};
ghost use Rattle.tables.specs.Views.{asid_of};
ghost use Rattle.tlb.specs.Walks as x;
ghost use Rattle.tlb.specs.Steps as y;

use layout::{PTO, SPR};
use records::Walk;
use refusals::Refusal;
use tables::block;

// A translation request: address space, virtual address, rights.
#[derive(Clone, Copy, Debug, PartialEq, Eq)]
pub struct Request {
    pub asid: u32,
    pub va: u32,
    pub r: u32,
}

// The rights that a fetch, a load, and a store or cas ask for: bit 0 is write, bit 1 user, bit 2 execute. Rights are a
// number: three bits of a word of a walk or an entry (the layout), which the report too compares bit by bit.
pub const FETCH: u32 = 0b110;

pub const LOAD: u32 = 0b010;

pub const STORE: u32 = 0b011;

// Whether a request faults at a walk; undecided where the walk's entry is not in memory.
#[derive(Clone, Copy, Debug, PartialEq, Eq)]
pub enum Faulting {
    Faults,
    Passes,
    Undecided,
}

// The fields of a walk; its base page is the second word.

pub fn va(w: Walk) -> u32
    ensures { result ≡ x.walk_va w }
{
    w.first / 0x1000
}

pub fn asid(w: Walk) -> u32
    ensures { result ≡ x.walk_asid w }
{
    w.first / 64 % 64
}

pub fn level(w: Walk) -> u32
    ensures { result ≡ x.walk_level w }
{
    w.first / 8 % 4
}

pub fn rights(w: Walk) -> u32
    ensures { result ≡ x.walk_r w }
{
    w.first % 8
}

pub fn walk_of(va: u32, asid: u32, level: u32, r: u32, ba: u32) -> Walk
    requires { (va < 2 ^ 20) × (asid < 2 ^ 6) × (level < 4) × (r < 2 ^ 3) }
    ensures { result ≡ x.walk_of va asid level r ba }
{
    Walk {
        first: va * 0x1000 + asid * 64 + level * 8 + r,
        second: ba,
    }
}

// The page of an address.
pub fn page(a: u32) -> u32
    ensures { result ≡ x.base_address a }
{
    a / 0x1000
}

// The index of the entry that extends a walk, in its table.
fn index(w: Walk) -> u32
    ensures { result ≡ x.index w }
{
    if level(w) == 2 {
        w.first / 0x40_0000
    } else {
        w.first / 0x1000 % 0x400
    }
}

// The address of the entry that extends a walk.
pub fn ptea(w: Walk) -> u32
    ensures { result ≡ x.ptea w }
{
    let i = index(w);
    word::add(word::shift_left(w.second, 12), 4 * i)
}

// The entry that extends a walk, if its bytes are all in memory.
pub fn pte(m: &[u8], w: Walk) -> Option<u32>
    ensures { result ≡ x.pte m.now w }
{
    let at = ptea(w) as usize;
    if at + 4 <= m.len() {
        Some(word::read_word(m, at))
    } else {
        None
    }
}

// The fields of an entry; its base page is entry / 0x1000.

pub fn present(e: u32) -> bool
    ensures { result ≡ x.pte_p e }
{
    e / 0x800 % 2 == 1
}

pub fn entry_rights(e: u32) -> u32
    ensures { result ≡ x.pte_r e }
{
    e / 0x100 % 8
}

pub fn is_accessed(e: u32) -> bool
    ensures { result ≡ x.pte_a e }
{
    e / 0x80 % 2 == 1
}

// The entry with its accessed bit set.
pub fn set_accessed(e: u32) -> u32
    ensures { result ≡ x.set_d e }
{
    if is_accessed(e) { e } else { e + 0x80 }
}

// Whether rights s are sufficient for rights r.
pub fn suffices(r: u32, s: u32) -> bool
    ensures { result ≡ x.suffices r s }
{
    (r % 2 <= s % 2) & ((r / 2 % 2 <= s / 2 % 2) & (r / 4 % 2 <= s / 4 % 2))
}

// The walk that a translation begins with.
pub fn winit(va: u32, origin: u32, asid: u32) -> Walk
    requires { (va < 2 ^ 20) × (asid < 2 ^ 6) }
    ensures { result ≡ x.winit va origin asid }
{
    walk_of(va, asid, 2, 0b111, origin)
}

pub fn complete(w: Walk) -> bool
    ensures { result ≡ x.complete w }
{
    level(w) == 0
}

// A walk extended by its entry.
pub fn wext(w: Walk, e: u32) -> Walk
    requires { x.complete w ≡ false }
    ensures { result ≡ x.wext w e }
{
    if present(e) {
        walk_of(va(w), asid(w), level(w) - 1, entry_rights(e), e / 0x1000)
    } else {
        w
    }
}

// Whether an extension by an entry faults for rights r.
pub fn wext_faults(e: u32, r: u32) -> bool
    ensures { result ≡ x.wext_fault e r }
{
    !present(e) | !suffices(r, entry_rights(e))
}

// Whether a walk matches a request in page, address space and rights.
pub fn hit(t: Request, w: Walk) -> bool
    ensures { result ≡ x.hit t w }
{
    (va(w) == t.va / 0x1000) & ((asid(w) == t.asid) & suffices(t.r, rights(w)))
}

fn entry_fault(r: u32, e: Option<u32>) -> Faulting
    ensures { result ≡ x.entry_fault r e }
{
    match e {
        Some(v) if wext_faults(v, r) => Faulting::Faults,
        Some(_) => Faulting::Passes,
        None => Faulting::Undecided,
    }
}

// Whether a request faults at a walk.
pub fn fault(m: &[u8], t: Request, w: Walk) -> Faulting
    ensures { result ≡ x.fault m.now t w }
{
    if !complete(w) & hit(t, w) {
        entry_fault(t.r, pte(m, w))
    } else {
        Faulting::Passes
    }
}

// A page of an address space as one number, for a flush.
pub fn page_key(va: u32, asid: u32) -> u32
    requires { (va < 2 ^ 20) × (asid < 2 ^ 6) }
    ensures { result ≡ x.page_key va asid }
{
    va * 64 + asid
}

// What a step of the TLB does: a walk is added, or an entry is written to memory at an address.
#[derive(Clone, Copy)]
pub enum Change {
    Adds(Walk),
    Marks(u32, u32),
}

// The page table origin of a core's block.
pub fn origin(b: &[u32]) -> u32
    requires { length b.now ≡ 256 }
    ensures { result ≡ y.origin_of b.now }
{
    page(b[SPR + PTO])
}

// What tlb-create decides for a virtual page.
pub fn create(b: &[u32], va: u32) -> Result<Change, Refusal>
    requires b_len { length b.now ≡ 256 }
    requires va_bound { va < 2 ^ 20 }
    ensures { result ≡ y.create_on b.now va }
{
    if block::user(b) & block::runs(b) {
        return Ok(Change::Adds(winit(va, origin(b), block::asid(b))));
    }
    Err(Refusal::NoNextState)
}

// Whether a walk is held, incomplete and of the current address space.
fn extendable(b: &[u32], w: Walk) -> bool
    requires b_len { length b.now ≡ 256 }
    requires b_value { linked b.now ≡ true }
    ensures { result ≡ y.extendable (asid_of b.now) (walks b.now) w }
{
    records::holds_walk(b, w) & (!complete(w) & (asid(w) == block::asid(b)))
}

fn on_extend(w: Walk, e: Option<u32>) -> Result<Change, Refusal>
    requires { x.complete w ≡ false }
    ensures { result ≡ y.on_extend w e }
{
    match e {
        Some(v) => {
            if is_accessed(v) & !wext_faults(v, 0) {
                return Ok(Change::Adds(wext(w, v)));
            }
            Err(Refusal::NoNextState)
        }
        None => Err(Refusal::ByteNowhere),
    }
}

// What tlb-extend decides for a walk.
pub fn extend(b: &[u32], m: &[u8], w: Walk) -> Result<Change, Refusal>
    requires b_len { length b.now ≡ 256 }
    requires b_value { linked b.now ≡ true }
    ensures { result ≡ y.extend_on b.now m.now w }
{
    if block::runs(b) & extendable(b, w) {
        return on_extend(w, pte(m, w));
    }
    Err(Refusal::NoNextState)
}

fn on_accessed(w: Walk, e: Option<u32>) -> Result<Change, Refusal>
    ensures { result ≡ y.on_accessed w e }
{
    match e {
        Some(v) => {
            if present(v) {
                return Ok(Change::Marks(ptea(w), set_accessed(v)));
            }
            Err(Refusal::NoNextState)
        }
        None => Err(Refusal::ByteNowhere),
    }
}

// What tlb-accessed decides for a walk.
pub fn accessed(b: &[u32], m: &[u8], w: Walk) -> Result<Change, Refusal>
    requires b_len { length b.now ≡ 256 }
    requires b_value { linked b.now ≡ true }
    ensures { result ≡ y.accessed_on b.now m.now w }
{
    if block::user(b) & extendable(b, w) {
        return on_accessed(w, pte(m, w));
    }
    Err(Refusal::NoNextState)
}
