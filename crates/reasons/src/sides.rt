// The two sides of a group, with what the judge goes by.
ghost use Rattle.std.specs.Prelude.{◌≡◌, not, length};
ghost use Rattle.tables.specs.Views.{cores_of, pages_of};
ghost use Rattle.reach.specs.Reach.{members, reach, in_memory, map_for};
ghost use Rattle.separation.specs.Apart.{rest};

use tables::machine::Machine;

// The group and the rest of a machine's running cores, as groups; the map of each side, and whether it reaches a page
// beyond memory.
#[derive(Clone, Copy)]
pub struct Sides<'m, 'a> {
    pub machine: Machine<'m>,
    pub group: u32,
    pub others: u32,
    pub own: &'a [u8],
    pub other: &'a [u8],
    pub strays: bool,
    pub astray: bool,
    pub ghost others_are: { members others (cores_of machine.tables.now) ≡ rest group machine.tables.now },
    pub ghost own_map: { own.now ≡ map_for (members group (cores_of machine.tables.now)) machine.tables.now machine.memory.now },
    pub ghost other_map: { other.now ≡ map_for (members others (cores_of machine.tables.now)) machine.tables.now machine.memory.now },
    pub ghost own_strays: { strays ≡ not (in_memory (reach (members group (cores_of machine.tables.now)) machine.tables.now machine.memory.now) (pages_of machine.tables.now)) },
    pub ghost other_strays: { astray ≡ not (in_memory (reach (members others (cores_of machine.tables.now)) machine.tables.now machine.memory.now) (pages_of machine.tables.now)) },
}

impl<'m, 'a> Sides<'m, 'a> {
    // The sides of a group, with the two lent maps filled.
    pub fn new(
        machine: &Machine<'m>,
        group: u32,
        own: &'a mut [u8],
        other: &'a mut [u8],
    ) -> Sides<'m, 'a>
        requires { (length own.old ≡ pages_of machine.now.tables.now) × (length other.old ≡ pages_of machine.now.tables.now) }
        ensures { (result.machine.tables.now ≡ machine.now.tables.now) × (result.machine.memory.now ≡ machine.now.memory.now) × (result.group ≡ group) }
    {
        let others = separation::sides::rest(machine, group);
        let strays = reach::fill(machine, group, own);
        let astray = reach::fill(machine, others, other);
        Sides {
            machine: *machine,
            group,
            others,
            own,
            other,
            strays,
            astray,
        }
    }
}
