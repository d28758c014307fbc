// What a search goes by.
ghost use Rattle.std.specs.Prelude.{◌≡◌, ◌*◌, ◌≤◌, length};
ghost use Rattle.tables.specs.Views.{pages_of};

use super::want::Want;
use tables::machine::Machine;

// A machine, how many pages its memory has, a map of marks with a byte for each of them, and what is looked for.
#[derive(Clone, Copy)]
pub struct Query<'a> {
    pub machine: Machine<'a>,
    pub pages: u32,
    pub map: &'a [u8],
    pub want: Want,
    pub ghost counted: { pages ≡ pages_of machine.tables.now },
    pub ghost few: { pages ≤ 4096 },
    pub ghost whole: { length machine.memory.now ≡ 4096 * pages },
    pub ghost marked: { length map.now ≡ pages },
}
