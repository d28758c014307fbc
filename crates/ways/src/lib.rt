// How a core names a page (specs/Ways.antt), and the way to the lowest page among some.
#![tactic(auto)]

pub mod query;
pub mod roots;
pub mod search;
pub mod want;

// A page by what it is: level 2 a first-level table, 1 a second-level table, 0 a data page; and whether what names it
// grants write.
#[derive(Clone, Copy, Debug, PartialEq, Eq)]
pub struct Named {
    pub level: u32,
    pub page: u32,
    pub write: bool,
}

// Where a way begins: at the page in pto, at the walk or at the pending store in a record.
#[derive(Clone, Copy, Debug, PartialEq, Eq)]
pub enum Root {
    AtOrigin,
    AtWalk(u32),
    AtStore(u32),
}

// A way: a core, where it begins, the entries that it goes through (how many, and their addresses, zero where there is
// none), and what it comes to.
#[derive(Clone, Copy, Debug, PartialEq, Eq)]
pub struct Way {
    pub core: u32,
    pub root: Root,
    pub entries: u32,
    pub first: u32,
    pub second: u32,
    pub names: Named,
}
