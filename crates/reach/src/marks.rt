// Three sets of pages as marks in one array of bytes, 8,192 a set (specs/inner/Marks.antt). A mark is a plain store of 1,
// so that a table page is gone through once, entry by entry.
ghost use Rattle.std.specs.Prelude.{◌≡◌, false, [], ◌∷◌, ◌+◌, ◌-◌, ◌*◌, ◌<◌, ◌≤◌, length, Some, MatchOption};
ghost use mathlib.Core.List as lists;
ghost use Rattle.word.specs.Word.{flag};
ghost use Rattle.word.specs.Bytes.{bytes_at};
ghost use Rattle.tlb.specs.Walks.{pte_p};
ghost use Rattle.tables.specs.Views.{pages_of};
ghost use Rattle.reach.specs.Lists.{range};

use tables::machine::Machine;

// The sets: first-level tables, second-level tables, data pages.
#[derive(Clone, Copy, Debug, PartialEq, Eq)]
pub enum Set {
    Firsts,
    Seconds,
    Datas,
}

// A level of tables.
#[derive(Clone, Copy, Debug, PartialEq, Eq)]
pub enum Level {
    First,
    Second,
}

impl Set {
    ghost use Rattle.reach.specs.inner.Marks as marks;

    // Its place in the array.
    fn number(self) -> u32
        ensures { (result ≡ marks.number_of self) × (result < 3) }
    {
        match self {
            Set::Firsts => 0,
            Set::Seconds => 1,
            Set::Datas => 2,
        }
    }

    // The set of the base of a walk, by the walk's level.
    pub(crate) fn of_walk(level: u32) -> Option<Set>
        ensures { MatchOption result (3 ≤ level) (λ set. (level < 3) × (marks.number_of set ≡ 2 - level)) }
    {
        match level {
            2 => Some(Set::Firsts),
            1 => Some(Set::Seconds),
            0 => Some(Set::Datas),
            _ => None,
        }
    }
}

impl Level {
    ghost use Rattle.reach.specs.inner.Marks as marks;

    // The set of the tables of this level.
    fn tables(self) -> Set
        ensures { marks.number_of result ≡ marks.order self }
    {
        match self {
            Level::First => Set::Firsts,
            Level::Second => Set::Seconds,
        }
    }

    // The set of the pages that their entries name.
    fn named(self) -> Set
        ensures { marks.number_of result ≡ marks.order self + 1 }
    {
        match self {
            Level::First => Set::Seconds,
            Level::Second => Set::Datas,
        }
    }
}

// Whether the entry at an address is present, by the one byte that says so.
fn is_present(m: &[u8], at: usize) -> bool
    requires { at + 4 ≤ length m.now }
    ensures { result ≡ pte_p (bytes_at 4 m.now at) }
{
    m[at + 1] / 8 % 2 == 1
}

// The marks beside a memory and how many pages it has; and whether a page beyond it was named.
#[derive(Drop)]
pub struct Marks<'a> {
    pub memory: &'a [u8],
    pub pages: u32,
    pub beyond: bool,
    pub bytes: [u8; 24576],
    ghost few: { pages ≤ 4096 },
    ghost whole: { length memory.now ≡ 4096 * pages },
    ghost long: { length bytes ≡ 24576 },
}

impl<'a> Marks<'a> {
    ghost use Rattle.reach.specs.inner.Marks as marks;

    // No marks yet.
    pub(crate) fn new(machine: &Machine<'a>) -> Marks<'a>
        ensures { marks.Blank (pages_of machine.now.tables.now) machine.now.memory.now result }
    {
        Marks {
            memory: machine.memory,
            pages: machine.pages(),
            beyond: false,
            bytes: [0; 24576],
        }
    }

    // Marks a page in a set, with the write right or without it, unless it is beyond memory.
    pub(crate) fn mark(&mut self, set: Set, page: u32, write: bool)
        ensures { marks.Marked self.old self.new (marks.name (marks.number_of set) page (flag write) ∷ []) }
    {
        if page < self.pages {
            let at = (8192 * set.number() + 4096 * word::flag(write) + page) as usize;
            self.bytes[at] = 1;
        } else {
            self.beyond = true;
        }
    }

    // Marks the page that an entry names, if it is present.
    fn mark_entry(&mut self, set: Set, e: u32)
        ensures { marks.Marked self.old self.new (marks.entry_name (marks.number_of set) (Some e)) }
    {
        if tlb::present(e) {
            self.mark(set, e / 0x1000, e / 0x100 % 2 == 1);
        }
    }

    // The same for the entry at an address.
    fn mark_at(&mut self, set: Set, at: usize)
        requires { at + 4 ≤ length self.old.memory.now }
        ensures { marks.Marked self.old self.new (marks.name_from (marks.number_of set) self.old.memory.now at) }
    {
        self.mark_entry(set, word::read_word(self.memory, at));
    }

    // The same for the four entries from an address on; one test passes over four that are absent.
    fn mark_four(&mut self, set: Set, at: usize)
        requires { at + 16 ≤ length self.old.memory.now }
        ensures { marks.Marked self.old self.new (marks.four_names (marks.number_of set) self.old.memory.now at) }
    {
        let m = self.memory;
        if is_present(m, at)
            | is_present(m, at + 4)
            | is_present(m, at + 8)
            | is_present(m, at + 12)
        {
            self.mark_at(set, at);
            self.mark_at(set, at + 4);
            self.mark_at(set, at + 8);
            self.mark_at(set, at + 12);
        }
    }

    // Marks the pages that the entries of the table in a page name.
    fn scan(&mut self, set: Set, page: u32)
        requires { page < self.old.pages }
        ensures { marks.Marked self.old self.new (marks.entry_names (marks.number_of set) self.old.memory.now page) }
    {
        let start = 4096 * (page as usize);
        for i in 0..256usize {
            self.mark_four(set, start + 16 * i);
        }
    }

    // Whether a page is in a set.
    fn is_marked(&self, set: Set, page: u32) -> bool
        requires { page < self.now.pages }
        ensures { result ≡ marks.is_marked self.now.bytes (marks.number_of set) page }
    {
        let at = (8192 * set.number() + page) as usize;
        (self.bytes[at] == 1) | (self.bytes[at + 4096] == 1)
    }

    // Marks what the table in a page names, if the page is marked as a table of this level.
    fn scan_marked(&mut self, level: Level, page: u32)
        requires { page < self.old.pages }
        ensures { marks.Marked self.old self.new (marks.marked_names (marks.order level) self.old.memory.now self.old.bytes page) }
    {
        if self.is_marked(level.tables(), page) {
            self.scan(level.named(), page);
        }
    }

    // Marks what the tables of a level name.
    pub(crate) fn pass(&mut self, level: Level)
        ensures { marks.Marked self.old self.new (marks.pass_names self.old.pages (marks.order level) self.old.memory.now self.old.bytes) }
    {
        let pages = self.pages;
        for page in 0..pages {
            self.scan_marked(level, page);
        }
    }

    // The map's byte of a page.
    fn map_byte(&self, page: u32) -> u8
        requires { page < self.now.pages }
        ensures { result ≡ marks.byte_of self.now.bytes page }
    {
        let at = (20480 + page) as usize;
        let table = self.is_marked(Set::Firsts, page) | self.is_marked(Set::Seconds, page);
        let data = self.is_marked(Set::Datas, page);
        u8::from(table) * 2 + u8::from(data) + u8::from(self.bytes[at] == 1) * 4
    }

    // Writes the map.
    pub(crate) fn write_map(&self, map: &mut [u8])
        requires { length map.old ≡ self.now.pages }
        ensures { map.new ≡ lists.map (marks.byte_of self.now.bytes) (range self.now.pages) }
    {
        for page in 0..self.pages {
            map[page as usize] = self.map_byte(page);
        }
    }
}
