// Why a group is not apart (specs/Why.antt), with what holds of the answer (specs/Grounds.antt), proved in proofs/.
#![tactic(auto)]

pub mod judge;
pub mod sides;
pub mod words;

ghost use Rattle.std.specs.Prelude.{◌≡◌, true, Ok, None};
ghost use Rattle.separation.specs.Apart.{apart_on};
ghost use Rattle.reasons.specs.Why as why;
ghost use Rattle.reasons.specs.Grounds.{Grounded};

use refusals::Refusal;
use tables::machine::Machine;
use ways::Way;

#[derive(Clone, Copy, Debug, PartialEq, Eq)]
pub enum Side {
    Group,
    Rest,
}

// NotUser: a core that is not running in user mode. BeyondMemory: a page beyond memory. OwnTable: a page that a side
// can write and uses as a table, by a way that grants write. Touches: a page that both sides reach, by a way of the
// rest that grants write or uses it as a table, and by a way of the group.
#[derive(Clone, Copy, Debug, PartialEq, Eq)]
pub enum Reason {
    NotUser(u32),
    BeyondMemory(Side, Way),
    OwnTable(Side, Way),
    Touches(Way, Way),
}

// The first reason after reason `after`, by its number; after 0, the first of all. Each answer has its ground, and
// after 0 there is no reason exactly where the group is apart.
pub fn why(t: &[u32], m: &[u8], group: u32, after: u32) -> Result<Option<Reason>, Refusal>
    ensures value { result ≡ why.why_after after group t.now m.now }
    ensures grounded { Grounded group t.now m.now result }
    ensures m_value { after ≡ 0 → result ≡ Ok None → apart_on group t.now m.now ≡ Ok true }
    ensures value_2 { after ≡ 0 → apart_on group t.now m.now ≡ Ok true → result ≡ Ok None }
    ensures number { why.why_number result ≡ why.why_number (why.why_after after group t.now m.now) }
{
    let machine = Machine::new(t, m)?;
    if !reach::is_group(group, machine.cores()) {
        return Err(Refusal::Group);
    }
    Ok(judge::judge(&machine, group, after))
}

// The number of the same, with the rest of it in 18 lent words, nine for each way; a refusal writes nothing.
pub fn tell(t: &[u32], m: &[u8], group: u32, after: u32, words: &mut [u32]) -> Result<u32, Refusal>
    ensures value { result ≡ (why.told after group t.now m.now words.old).answer }
    ensures words_after { words.new ≡ (why.told after group t.now m.now words.old).words }
    ensures number { why.told_number result ≡ why.told_number (why.told after group t.now m.now words.old).answer }
{
    let machine = Machine::new(t, m)?; // Refused before the words are looked at.
    if words.len() != 18 {
        return Err(Refusal::LentLength);
    }
    if !reach::is_group(group, machine.cores()) {
        return Err(Refusal::Group);
    }
    let reason = judge::judge(&machine, group, after);
    words::put_both(words, reason);
    Ok(judge::number(reason))
}
