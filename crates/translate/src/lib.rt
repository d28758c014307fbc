// Where virtual addresses lead, by walks through the page tables in memory (specs/Translate.antt). Nothing of the
// machine is written.
#![tactic(auto)]

mod cache;

ghost use Rattle.std.specs.Prelude.{◌≡◌, [], ◌∷◌, ◌+◌, ◌*◌, ◌≤◌, length};
ghost use Rattle.std.proofs.lemmas.List.Edits.{sets};
ghost use Rattle.tlb.specs.Walks.{walk_level};
ghost use Rattle.translate.specs.Translate.{leads, needs, translation_words, reads_for, answers_for, translate_on, translated_number, reads_of};
ghost use Rattle.translate.specs.inner.Cache.{Asked};

use cache::Cache;
use records::Walk;
use refusals::Refusal;
use tables::block;
use tables::machine::Machine;

// Where an address leads: to a page with the rights of the last entry; to an entry that is absent, at a level; or to
// one beyond memory.
#[derive(Clone, Copy, Debug, PartialEq, Eq)]
pub enum Translation {
    Mapped(u32, u32),
    Absent(u32),
    Beyond,
}

// Where a walk from the first level leads.
fn lead(cache: &mut Cache, start: Walk) -> Translation
    requires { (cache.old.kept ≤ 126) × (walk_level start ≡ 2) }
    ensures to_value { result ≡ leads 2 cache.old.memory.now start }
    ensures asked { Asked cache.old.memory.now (needs 2 cache.old.memory.now start) cache.old.kept cache.old.keys cache.new.kept cache.new.keys cache.new.words cache.new.slots }
    ensures same { cache.new.memory.now ≡ cache.old.memory.now }
{
    let mut w = start;
    for level in (1..=2u32).rev() {
        let Some(e) = cache.entry(tlb::ptea(w)) else {
            return Translation::Beyond;
        };
        if !tlb::present(e) {
            return Translation::Absent(level);
        }
        w = tlb::wext(w, e);
    }
    Translation::Mapped(w.second, tlb::rights(w))
}

// Writes three words from place at on.
fn put_three(answers: &mut [u32], at: usize, first: u32, second: u32, third: u32)
    requires { at + 3 ≤ length answers.old }
    ensures { answers.new ≡ sets answers.old at (first ∷ second ∷ third ∷ []) }
{
    answers[at] = first;
    answers[at + 1] = second;
    answers[at + 2] = third;
}

// Writes the three words of an answer.
fn put(answers: &mut [u32], at: usize, to: Translation)
    requires { at + 3 ≤ length answers.old }
    ensures { answers.new ≡ sets answers.old at (translation_words to) }
{
    match to {
        Translation::Mapped(page, rights) => put_three(answers, at, 0, page, rights),
        Translation::Absent(level) => put_three(answers, at, 1, level, 0),
        Translation::Beyond => put_three(answers, at, 2, 0, 0),
    }
}

// Fills the answers for the core with block b, and says how many entries were read.
fn fill(b: &[u32], m: &[u8], addresses: &[u32], answers: &mut [u32]) -> u32
    requires { (length b.now ≡ 256) × (length addresses.now ≤ 64) × (length answers.old ≡ 3 * length addresses.now) }
    ensures value { result ≡ reads_for b.now m.now addresses.now }
    ensures answers_after { answers.new ≡ answers_for b.now m.now addresses.now }
{
    let origin = tlb::origin(b);
    let asid = block::asid(b);
    let mut cache = Cache::new(m);
    for i in 0..addresses.len() {
        let w = tlb::winit(tlb::page(addresses[i]), origin, asid);
        put(answers, 3 * i, lead(&mut cache, w));
    }
    cache.kept as u32
}

// Where the addresses lead, three words each, for a core, and how many entries were read. Refused if the tables are not
// sound, the core is not there, there are more than 64 addresses, or the words lent are not three an address.
pub fn translate(
    t: &[u32],
    m: &[u8],
    core: u32,
    addresses: &[u32],
    answers: &mut [u32],
) -> Result<u32, Refusal>
    ensures value { result ≡ (translate_on core addresses.now t.now m.now answers.old).answer }
    ensures answers_after { answers.new ≡ (translate_on core addresses.now t.now m.now answers.old).words }
    ensures number { translated_number result ≡ translated_number (translate_on core addresses.now t.now m.now answers.old).answer }
    ensures reads { reads_of result ≡ reads_of (translate_on core addresses.now t.now m.now answers.old).answer }
{
    let machine = Machine::new(t, m)?;
    if machine.cores() <= core {
        return Err(Refusal::Core);
    }
    if 64 < addresses.len() {
        return Err(Refusal::Addresses);
    }
    if answers.len() != 3 * addresses.len() {
        return Err(Refusal::AnswersLength);
    }
    Ok(fill(machine.block(core), machine.memory, addresses, answers))
}
