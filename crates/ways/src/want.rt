// What is looked for.
ghost use Rattle.std.specs.Prelude.{◌≡◌};
ghost use Rattle.ways.specs.inner.Search as search;

use super::Named;

// How a page can be at fault: a side can write it and uses it as a table; or one side reaches it, and the other can
// write it or uses it as a table.
#[derive(Clone, Copy, Debug, PartialEq, Eq)]
pub enum Fault {
    Table,
    Touch,
}

impl Fault {
    // Whether what names a page shows the fault: for Table it grants write, for Touch it grants write or is of a table.
    pub fn shows(self, names: Named) -> bool
        ensures { result ≡ search.shows self names }
    {
        match self {
            Fault::Table => (names.level == 0) & names.write,
            Fault::Touch => (names.level != 0) | names.write,
        }
    }
}

// What is looked for: a page beyond memory; a page at fault that the map marks, from this page on, by a way that shows
// the fault; or this page, by any way.
#[derive(Clone, Copy, Debug, PartialEq, Eq)]
pub enum Want {
    Beyond,
    Marked(Fault, u32),
    Page(u32),
}

impl Want {
    // No lower page is looked for.
    pub fn low(self) -> u32
        ensures { result ≡ search.least_page self }
    {
        match self {
            Want::Beyond => 0,
            Want::Marked(_, low) => low,
            Want::Page(page) => page,
        }
    }
}
