// The way to the lowest page that is looked for, through the entries of tables (specs/inner/Search.antt).
// A second-level table is gone through once, however many ways lead to it.
ghost use Rattle.std.specs.Prelude.{◌≡◌, ◌+◌, ◌-◌, ◌*◌, ◌%◌, ◌^◌, ◌<◌, ◌≤◌, length, Some};
ghost use mathlib.Core.List.{[], ◌∷◌, flat_map};
ghost use Rattle.tlb.specs.Walks.{pte_r, pte_ba};
ghost use Rattle.reach.specs.Reach.{grants_write};
ghost use Rattle.ways.specs.Ways as ways;
ghost use Rattle.ways.specs.inner.Search as search;

use super::query::Query;
use super::want::Want;
use super::{Named, Way};
use layout::MOST_PAGES;

// Whether a page is looked for, by what names it.
fn is_wanted(query: &Query, names: Named) -> bool
    ensures { result ≡ search.looked_for query.now names }
{
    let page = names.page;
    match query.want {
        Want::Beyond => query.pages <= page,
        Want::Marked(fault, low) => {
            if page < low {
                return false;
            }
            if query.pages <= page {
                return false;
            }
            fault.shows(names) & (query.map[page as usize] == 1)
        }
        Want::Page(wanted) => page == wanted,
    }
}

// Whether nothing lower can be found.
fn is_lowest(best: Option<Way>, low: u32) -> bool
    ensures { result ≡ search.is_lowest best low }
{
    best.is_some_and(|way| way.names.page <= low)
}

// A way where it is lower than the best so far.
fn lower(best: Option<Way>, way: Way) -> Option<Way>
    ensures { result ≡ ways.lower best (Some way) }
{
    match best {
        Some(v) if v.names.page <= way.names.page => best,
        _ => Some(way),
    }
}

// The same where it is looked for.
fn take(query: &Query, way: Way, best: Option<Way>) -> Option<Way>
    ensures { result ≡ ways.lower best (search.sought (search.looked_for query.now) (way ∷ [])) }
{
    if is_wanted(query, way.names) {
        return lower(best, way);
    }
    best
}

// What a present entry names, of a table of this level.
fn named(level: u32, e: u32) -> Named
    requires { 1 ≤ level }
    ensures { result ≡ ways.naming (level - 1) (pte_ba e) (grants_write (pte_r e)) }
{
    Named {
        level: level - 1,
        page: e / 0x1000,
        write: e / 0x100 % 2 == 1,
    }
}

// A way that goes on by an entry.
fn further(way: Way, i: u32, names: Named) -> Way
    requires { (way.entries < 2) × (i < 1024) }
    ensures { result ≡ ways.further way i names }
{
    let root = way.root;
    let at = way.names.page % 0x100000 * 0x1000 + 4 * i;
    if way.entries == 0 {
        return Way {
            core: way.core,
            root,
            entries: 1,
            first: at,
            second: 0,
            names,
        };
    }
    Way {
        core: way.core,
        root,
        entries: way.entries + 1,
        first: way.first,
        second: at,
        names,
    }
}

// Whether an entry of a table of this level names a page that is looked for.
fn is_hit(query: &Query, level: u32, e: u32) -> bool
    requires { 1 ≤ level }
    ensures { result ≡ search.hits (search.looked_for query.now) level e }
{
    if tlb::present(e) {
        return is_wanted(query, named(level, e));
    }
    false
}

// The way that goes on by entry i, whose word is e.
fn take_entry(way: Way, i: u32, e: u32, best: Option<Way>) -> Option<Way>
    requires { (way.entries < 2) × (1 ≤ way.names.level) × (i < 1024) }
    ensures { result ≡ ways.lower best (Some (ways.further way i (ways.naming (way.names.level - 1) (pte_ba e) (grants_write (pte_r e))))) }
{
    lower(best, further(way, i, named(way.names.level, e)))
}

// The ways that go on by one entry of a table. (An entry that is not looked for costs no copy of a way.)
fn scan(query: &Query, way: Way, best: Option<Way>) -> Option<Way>
    requires { (way.names.page % 2 ^ 20 < query.now.pages) × (way.entries < 2) × (1 ≤ way.names.level) }
    ensures { result ≡ ways.lower best (search.sought (search.looked_for query.now) (ways.next_ways query.now.machine.memory.now way)) }
{
    let start = 4096 * ((way.names.page % 0x100000) as usize);
    let level = way.names.level;
    let mut found = best;
    for i in 0..1024u32 {
        let e = word::read_word(query.machine.memory, start + 4 * (i as usize));
        if is_hit(query, level, e) {
            found = take_entry(way, i, e, found);
        }
    }
    found
}

// The same for a second-level table, unless it was gone through before.
fn scan_once(query: &Query, way: Way, best: Option<Way>, seen: &mut [u8; MOST_PAGES]) -> Option<Way>
    requires entries_bound { (way.entries < 2) × (way.names.level ≡ 1) }
    requires known { search.Known (search.looked_for query.now) query.now.machine.memory.now seen.old best }
    ensures { search.Searched (search.looked_for query.now) query.now.machine.memory.now best seen.old result seen.new (ways.next_ways query.now.machine.memory.now way) }
{
    if is_lowest(best, query.want.low()) {
        return best;
    }
    let page = way.names.page % 0x100000;
    if page < query.pages {
        let at = page as usize;
        if seen[at] == 1 {
            return best;
        }
        seen[at] = 1;
        return scan(query, way, best);
    }
    best
}

// A way to a second-level table, and those that go on from it.
fn from_second(
    query: &Query,
    way: Way,
    best: Option<Way>,
    seen: &mut [u8; MOST_PAGES],
) -> Option<Way>
    requires entries_bound { (way.entries < 2) × (way.names.level ≡ 1) }
    requires known { search.Known (search.looked_for query.now) query.now.machine.memory.now seen.old best }
    ensures { search.Searched (search.looked_for query.now) query.now.machine.memory.now best seen.old result seen.new (ways.onward query.now.machine.memory.now 1 way) }
{
    let found = take(query, way, best);
    scan_once(query, way, found, seen)
}

// The ways that go on by entry i of a first-level table, whose word is e.
fn from_entry(
    query: &Query,
    way: Way,
    i: u32,
    e: u32,
    best: Option<Way>,
    seen: &mut [u8; MOST_PAGES],
) -> Option<Way>
    requires entries_value { (way.entries ≡ 0) × (way.names.level ≡ 2) × (i < 1024) }
    requires known { search.Known (search.looked_for query.now) query.now.machine.memory.now seen.old best }
    ensures { search.Searched (search.looked_for query.now) query.now.machine.memory.now best seen.old result seen.new (search.through_entry query.now.machine.memory.now way i (Some e)) }
{
    if tlb::present(e) {
        let names = named(way.names.level, e);
        let on = further(way, i, names);
        return from_second(query, on, best, seen);
    }
    best
}

// The ways that go on from a first-level table.
fn from_entries(
    query: &Query,
    way: Way,
    best: Option<Way>,
    seen: &mut [u8; MOST_PAGES],
) -> Option<Way>
    requires page_bound { (way.names.page % 2 ^ 20 < query.now.pages) × (way.entries ≡ 0) × (way.names.level ≡ 2) }
    requires known { search.Known (search.looked_for query.now) query.now.machine.memory.now seen.old best }
    ensures { search.Searched (search.looked_for query.now) query.now.machine.memory.now best seen.old result seen.new (flat_map (ways.onward query.now.machine.memory.now 1) (ways.next_ways query.now.machine.memory.now way)) }
{
    let start = 4096 * ((way.names.page % 0x100000) as usize);
    let mut found = best;
    for i in 0..1024u32 {
        let e = word::read_word(query.machine.memory, start + 4 * (i as usize));
        found = from_entry(query, way, i, e, found, seen);
    }
    found
}

// A way to a first-level table, and those that go on from it.
fn from_first(
    query: &Query,
    way: Way,
    best: Option<Way>,
    seen: &mut [u8; MOST_PAGES],
) -> Option<Way>
    requires entries_value { (way.entries ≡ 0) × (way.names.level ≡ 2) }
    requires known { search.Known (search.looked_for query.now) query.now.machine.memory.now seen.old best }
    ensures { search.Searched (search.looked_for query.now) query.now.machine.memory.now best seen.old result seen.new (ways.onward query.now.machine.memory.now 2 way) }
{
    let found = take(query, way, best);
    if way.names.page % 0x100000 < query.pages {
        return from_entries(query, way, found, seen);
    }
    found
}

// A way that ends where it begins, and all that go on from it.
pub(crate) fn from_root(
    query: &Query,
    way: Way,
    best: Option<Way>,
    seen: &mut [u8; MOST_PAGES],
) -> Option<Way>
    requires entries_value { way.entries ≡ 0 }
    requires known { search.Known (search.looked_for query.now) query.now.machine.memory.now seen.old best }
    ensures { search.Searched (search.looked_for query.now) query.now.machine.memory.now best seen.old result seen.new (ways.all_from query.now.machine.memory.now way) }
{
    let level = way.names.level;
    if level == 0 {
        return take(query, way, best);
    }
    if level == 1 {
        return from_second(query, way, best, seen);
    }
    if level == 2 {
        return from_first(query, way, best, seen);
    }
    best
}
