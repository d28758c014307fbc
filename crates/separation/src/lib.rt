// Whether a group of cores is kept apart from the rest (specs/Apart.antt), and what that promises
// (specs/Separation.antt).
#![tactic(auto)]

pub mod sides;

ghost use Rattle.std.specs.Prelude.{◌≡◌, true, length, Ok};
ghost use Rattle.tables.specs.Views.{cores_of, pages_of};
ghost use Rattle.reach.specs.Reach.{members, reach};
ghost use Rattle.separation.specs.Apart as x;
ghost use Rattle.separation.specs.Separation as y;

use layout::MOST_PAGES;
use refusals::Refusal;
use tables::machine::Machine;

// Whether the pages of the group and of the rest are apart: a map of each is filled, and the two are held side by side.
fn maps_apart(machine: &Machine, group: u32, own: &mut [u8], other: &mut [u8]) -> bool
    requires { (length own.old ≡ pages_of machine.now.tables.now) × (length other.old ≡ pages_of machine.now.tables.now) }
    ensures { result ≡ x.pages_apart (pages_of machine.now.tables.now) (reach (members group (cores_of machine.now.tables.now)) machine.now.tables.now machine.now.memory.now) (reach (x.rest group machine.now.tables.now) machine.now.tables.now machine.now.memory.now) }
{
    if reach::fill(machine, group, own) {
        return false;
    }
    let rest = sides::rest(machine, group);
    if reach::fill(machine, rest, other) {
        return false;
    }
    sides::pages_apart(own, other, machine.pages() as usize)
}

// The same with two maps of its own.
fn pages_apart(machine: &Machine, group: u32) -> bool
    ensures { result ≡ x.pages_apart (pages_of machine.now.tables.now) (reach (members group (cores_of machine.now.tables.now)) machine.now.tables.now machine.now.memory.now) (reach (x.rest group machine.now.tables.now) machine.now.tables.now machine.now.memory.now) }
{
    let pages = machine.pages() as usize;
    let mut own = [0u8; MOST_PAGES];
    let mut other = [0u8; MOST_PAGES];
    maps_apart(machine, group, &mut own[..pages], &mut other[..pages])
}

// The verdict, without its promise.
fn judged(t: &[u32], m: &[u8], group: u32) -> Result<bool, Refusal>
    ensures { result ≡ x.apart_on group t.now m.now }
{
    let machine = Machine::new(t, m)?;
    if !reach::is_group(group, machine.cores()) {
        return Err(Refusal::Group);
    }
    if !sides::all_in_user_mode(machine.tables, group) {
        return Ok(false);
    }
    Ok(pages_apart(&machine, group))
}

// Whether the group is apart from the rest. A yes promises that the group observes the same beside any other machine
// with that verdict that is alike for the group, whatever the others hold and do.
pub fn apart(t: &[u32], m: &[u8], group: u32) -> Result<bool, Refusal>
    ensures value { result ≡ x.apart_on group t.now m.now }
    ensures promised { result ≡ Ok true → y.Promised group (y.machine_of t.now m.now) }
    ensures number { x.verdict_number result ≡ x.verdict_number (x.apart_on group t.now m.now) }
{
    judged(t, m, group)
}
