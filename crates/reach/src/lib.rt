// The pages that a group of cores reaches (specs/Reach.antt).
#![tactic(auto)]

mod marks;
mod roots;

ghost use Rattle.std.specs.Prelude.{◌≡◌, not, ◌≤◌, length};
ghost use Rattle.tables.specs.Views.{cores_of, pages_of};
ghost use Rattle.reach.specs.Reach as x;

use marks::{Level, Marks};
use refusals::Refusal;
use tables::machine::Machine;

// How far a group reaches: every page reached is in memory, or one is beyond it.
#[derive(Clone, Copy, Debug, PartialEq, Eq)]
pub enum Extent {
    Inside,
    Beyond,
}

// Fills the map for the cores of a group; whether a page beyond memory is reached. An empty group reaches nothing.
pub fn fill(machine: &Machine, group: u32, map: &mut [u8]) -> bool
    requires { length map.old ≡ pages_of machine.now.tables.now }
    ensures value { result ≡ not (x.in_memory (x.reach (x.members group (cores_of machine.now.tables.now)) machine.now.tables.now machine.now.memory.now) (pages_of machine.now.tables.now)) }
    ensures map_after { map.new ≡ x.map_for (x.members group (cores_of machine.now.tables.now)) machine.now.tables.now machine.now.memory.now }
{
    let mut marks = Marks::new(machine);
    roots::mark_cores(&mut marks, machine, group);
    marks.pass(Level::First);
    marks.pass(Level::Second);
    marks.write_map(map);
    marks.beyond
}

// Whether a number stands for a group of cores.
pub fn is_group(group: u32, cores: u32) -> bool
    requires { cores ≤ 4 }
    ensures { result ≡ x.is_group group cores }
{
    (group != 0) & (group < word::shift_left(1, cores))
}

// Fills the map, unless the tables are not sound, the map has not one byte a page, or the group is empty or names a
// core that is not there.
pub fn reach(t: &[u32], m: &[u8], group: u32, map: &mut [u8]) -> Result<Extent, Refusal>
    ensures value { result ≡ (x.reach_on group t.now m.now map.old).answer }
    ensures map_after { map.new ≡ (x.reach_on group t.now m.now map.old).map }
    ensures number { x.reached_number result ≡ x.reached_number (x.reach_on group t.now m.now map.old).answer }
    ensures beyond { x.beyond_of result ≡ x.beyond_of (x.reach_on group t.now m.now map.old).answer }
{
    let machine = Machine::new(t, m)?;
    if map.len() != machine.pages() as usize {
        return Err(Refusal::LentLength);
    }
    if !is_group(group, machine.cores()) {
        return Err(Refusal::Group);
    }
    if fill(&machine, group, map) {
        return Ok(Extent::Beyond);
    }
    Ok(Extent::Inside)
}
