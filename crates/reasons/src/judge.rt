// The six reasons, each by itself (specs/Why.antt).
ghost use Rattle.std.specs.Prelude.{◌≡◌, true, not, ◌+◌, ◌-◌, ◌*◌, ◌<◌, ◌≤◌, ◌^◌, length};
ghost use Rattle.tables.specs.Views.{cores_of, pages_of};
ghost use Rattle.reach.specs.Reach.{members, reach, in_memory, map_for};
ghost use Rattle.ways.specs.Ways as ways;
ghost use Rattle.reasons.specs.Why as why;
ghost use Rattle.ways.specs.inner.Search.{sought};
ghost use Rattle.reasons.specs.inner.Judging as judging;

use super::sides::Sides;
use super::{Reason, Side};
use layout::MOST_PAGES;
use tables::machine::Machine;
use ways::Way;
use ways::roots::find;
use ways::want::{Fault, Want};

// The number of a reason, 1 to 6, and 0 for none.
pub fn number(a: Option<Reason>) -> u32
    ensures { result ≡ why.reason_number a }
{
    match a {
        None => 0,
        Some(Reason::NotUser(_)) => 1,
        Some(Reason::BeyondMemory(side, _)) => 2 + side as u32,
        Some(Reason::OwnTable(side, _)) => 4 + side as u32,
        Some(Reason::Touches(_, _)) => 6,
    }
}

// The first core, of the group or another running one, that is not running in user mode.
fn modes(machine: &Machine, group: u32) -> Option<Reason>
    ensures { result ≡ why.mode_reason group machine.now.tables.now }
{
    for k in 0..machine.cores() {
        if !separation::sides::passes(machine, group, k) {
            return Some(Reason::NotUser(k));
        }
    }
    None
}

// The way to the lowest page beyond memory, where there is one.
fn beyond(machine: &Machine, map: &[u8], group: u32, strays: bool) -> Option<Way>
    requires map_len { length map.now ≡ pages_of machine.now.tables.now }
    requires strays_value { strays ≡ not (in_memory (reach (members group (cores_of machine.now.tables.now)) machine.now.tables.now machine.now.memory.now) (pages_of machine.now.tables.now)) }
    ensures { result ≡ judging.beyond_found (members group (cores_of machine.now.tables.now)) machine.now.tables.now machine.now.memory.now }
{
    if strays {
        return find(machine, Want::Beyond, map, group);
    }
    None
}

// Whether a page is at fault by its bytes in two maps: writable and a table in the first; or in the first, and writable
// or a table in the second.
fn is_fault(fault: Fault, own: u8, other: u8) -> bool
    ensures { result ≡ judging.fault_at fault own other }
{
    match fault {
        Fault::Table => (own / 2 % 2 == 1) & (own / 4 % 2 == 1),
        Fault::Touch => (own != 0) & ((other / 4 % 2 == 1) | (other / 2 % 2 == 1)),
    }
}

// Marks the pages at fault, and gives the lowest of them; the number of pages where there is none.
fn mark_faults(fault: Fault, own: &[u8], other: &[u8], marks: &mut [u8]) -> u32
    requires { (length own.now ≡ length marks.old) × (length other.now ≡ length marks.old) × (length marks.old ≤ 4096) }
    ensures { judging.FaultsMarked fault own.now other.now marks.old marks.new result }
{
    let mut low = marks.len() as u32;
    for i in (0..marks.len()).rev() {
        let at_fault = is_fault(fault, own[i], other[i]);
        marks[i] = at_fault as u8;
        if at_fault {
            low = i as u32;
        }
    }
    low
}

// The way of a group to the lowest page at fault.
fn marked(
    machine: &Machine,
    fault: Fault,
    own: &[u8],
    other: &[u8],
    group: u32,
    marks: &mut [u8],
) -> Option<Way>
    requires { (length own.now ≡ pages_of machine.now.tables.now) × (length other.now ≡ pages_of machine.now.tables.now) × (length marks.old ≡ pages_of machine.now.tables.now) }
    ensures { result ≡ sought (judging.faulty fault (pages_of machine.now.tables.now) own.now other.now) (ways.ways (members group (cores_of machine.now.tables.now)) machine.now.tables.now machine.now.memory.now) }
{
    let low = mark_faults(fault, own, other, marks);
    if machine.pages() <= low {
        return None;
    }
    find(machine, Want::Marked(fault, low), marks, group)
}

// The same with marks of its own.
fn at_fault(machine: &Machine, fault: Fault, own: &[u8], other: &[u8], group: u32) -> Option<Way>
    requires { (length own.now ≡ pages_of machine.now.tables.now) × (length other.now ≡ pages_of machine.now.tables.now) }
    ensures { result ≡ sought (judging.faulty fault (pages_of machine.now.tables.now) own.now other.now) (ways.ways (members group (cores_of machine.now.tables.now)) machine.now.tables.now machine.now.memory.now) }
{
    let pages = machine.pages() as usize;
    let mut marks = [0u8; MOST_PAGES];
    marked(machine, fault, own, other, group, &mut marks[..pages])
}

// The way to the lowest page that a side can write and uses as a table.
fn own_table(machine: &Machine, map: &[u8], group: u32) -> Option<Way>
    requires map_value { map.now ≡ map_for (members group (cores_of machine.now.tables.now)) machine.now.tables.now machine.now.memory.now }
    ensures { result ≡ judging.table_found (members group (cores_of machine.now.tables.now)) machine.now.tables.now machine.now.memory.now }
{
    at_fault(machine, Fault::Table, map, map, group)
}

// The way of others to the lowest page of the group that they can write or use as a table.
fn touched(machine: &Machine, own: &[u8], other: &[u8], group: u32, others: u32) -> Option<Way>
    requires own_value { own.now ≡ map_for (members group (cores_of machine.now.tables.now)) machine.now.tables.now machine.now.memory.now }
    requires other_value { other.now ≡ map_for (members others (cores_of machine.now.tables.now)) machine.now.tables.now machine.now.memory.now }
    ensures { result ≡ judging.touch_found (members group (cores_of machine.now.tables.now)) (members others (cores_of machine.now.tables.now)) machine.now.tables.now machine.now.memory.now }
{
    at_fault(machine, Fault::Touch, own, other, others)
}

// The first way of a group to a page.
fn way_to(machine: &Machine, map: &[u8], group: u32, page: u32) -> Option<Way>
    requires map_len { length map.now ≡ pages_of machine.now.tables.now }
    ensures { result ≡ why.way_to page (ways.ways (members group (cores_of machine.now.tables.now)) machine.now.tables.now machine.now.memory.now) }
{
    find(machine, Want::Page(page), map, group)
}

// Reason 6: the way of the rest to the lowest page of the group that it can write or use as a table, and the group's.
fn touching(sides: &Sides) -> Option<Reason>
    ensures { result ≡ why.touch_reason (members sides.now.group (cores_of sides.now.machine.tables.now)) (members sides.now.others (cores_of sides.now.machine.tables.now)) sides.now.machine.tables.now sides.now.machine.memory.now }
{
    let machine = &sides.machine;
    let way = touched(machine, sides.own, sides.other, sides.group, sides.others)?;
    let first = way_to(machine, sides.own, sides.group, way.names.page)?;
    Some(Reason::Touches(way, first))
}

// Reason n, by the numbers of specs/Why.antt: a caller of `why` names by its number the reason to go on from.
fn reason_at(sides: &Sides, n: u32) -> Option<Reason>
    ensures { result ≡ why.reason_at sides.now.group sides.now.machine.tables.now sides.now.machine.memory.now n }
{
    let machine = &sides.machine;
    match n {
        1 => modes(machine, sides.group),
        2 => {
            let found = beyond(machine, sides.own, sides.group, sides.strays);
            found.map(|way| Reason::BeyondMemory(Side::Group, way))
        }
        3 => {
            let found = beyond(machine, sides.other, sides.others, sides.astray);
            found.map(|way| Reason::BeyondMemory(Side::Rest, way))
        }
        4 => {
            let found = own_table(machine, sides.own, sides.group);
            found.map(|way| Reason::OwnTable(Side::Group, way))
        }
        5 => {
            let found = own_table(machine, sides.other, sides.others);
            found.map(|way| Reason::OwnTable(Side::Rest, way))
        }
        _ => touching(sides),
    }
}

// The first reason after reason `after`.
pub fn first_after(sides: &Sides, after: u32) -> Option<Reason>
    ensures { result ≡ why.first_after sides.now.group sides.now.machine.tables.now sides.now.machine.memory.now (6 - after) after }
{
    for n in after..6 {
        let reason = reason_at(sides, n + 1);
        if reason.is_some() {
            return reason;
        }
    }
    None
}

// The same with two maps of its own.
pub(crate) fn judge(machine: &Machine, group: u32, after: u32) -> Option<Reason>
    ensures { result ≡ why.first_after group machine.now.tables.now machine.now.memory.now (6 - after) after }
{
    let pages = machine.pages() as usize;
    let mut own = [0u8; MOST_PAGES];
    let mut other = [0u8; MOST_PAGES];
    let sides = Sides::new(machine, group, &mut own[..pages], &mut other[..pages]);
    first_after(&sides, after)
}
