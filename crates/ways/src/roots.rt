// The ways from the roots of blocks: the page in pto, walks and pending stores, core by core (specs/inner/Search.antt).
ghost use Rattle.std.specs.Prelude.{None, ◌≡◌, true, ◌+◌, ◌*◌, ◌<◌, ◌≤◌, length};
ghost use mathlib.Core.List.{flat_map};
ghost use Rattle.records.specs.Records.{all, small, chain_at, linked};
ghost use Rattle.tables.specs.Views.{cores_of, pages_of};
ghost use Rattle.reach.specs.Reach.{members};
ghost use Rattle.ways.specs.Ways as ways;
ghost use Rattle.ways.specs.inner.Search as search;

use super::query::Query;
use super::search::from_root;
use super::want::Want;
use super::{Named, Root, Way};
use layout::{MOST_PAGES, STORE_HEAD, WALK_HEAD};
use records::Record;
use records::chain::Chain;
use tables::machine::Machine;

// The way that ends at a pending store or a walk of core k, in a record listed in a chain.
fn record_way(k: u32, store: bool, listed: Record) -> Way
    ensures { result ≡ search.way_in k store listed }
{
    if store {
        let page = tlb::page(listed.first);
        return Way {
            core: k,
            root: Root::AtStore(listed.number),
            entries: 0,
            first: 0,
            second: 0,
            names: Named {
                level: 0,
                page,
                write: true,
            },
        };
    }
    Way {
        core: k,
        root: Root::AtWalk(listed.number),
        entries: 0,
        first: 0,
        second: 0,
        names: Named {
            level: listed.first / 8 % 4,
            page: listed.second,
            write: listed.first % 2 == 1,
        },
    }
}

// The ways from the records of a chain.
fn from_chain(
    query: &Query,
    b: &[u32],
    k: u32,
    store: bool,
    head: usize,
    best: Option<Way>,
    seen: &mut [u8; MOST_PAGES],
) -> Option<Way>
    requires b_len { (length b.now ≡ 256) × (head < 256) × (all small (chain_at b.now head) ≡ true) }
    requires known { search.Known (search.looked_for query.now) query.now.machine.memory.now seen.old best }
    ensures { search.Searched (search.looked_for query.now) query.now.machine.memory.now best seen.old result seen.new (flat_map (search.record_ways query.now.machine.memory.now b.now k store) (chain_at b.now head)) }
{
    let mut found = best;
    for record in Chain::at(b, head) {
        let way = record_way(k, store, record);
        found = from_root(query, way, found, seen);
    }
    found
}

// The ways from a block.
fn from_block(
    query: &Query,
    b: &[u32],
    k: u32,
    best: Option<Way>,
    seen: &mut [u8; MOST_PAGES],
) -> Option<Way>
    requires b_len { (length b.now ≡ 256) × (linked b.now ≡ true) }
    requires known { search.Known (search.looked_for query.now) query.now.machine.memory.now seen.old best }
    ensures { search.Searched (search.looked_for query.now) query.now.machine.memory.now best seen.old result seen.new (search.block_ways query.now.machine.memory.now b.now k) }
{
    let page = tlb::origin(b);
    let way = Way {
        core: k,
        root: Root::AtOrigin,
        entries: 0,
        first: 0,
        second: 0,
        names: Named {
            level: 2,
            page,
            write: false,
        },
    };
    let first = from_root(query, way, best, seen);
    let walks = from_chain(query, b, k, false, WALK_HEAD, first, seen);
    from_chain(query, b, k, true, STORE_HEAD, walks, seen)
}

// The ways of core k, if it is in the group.
fn from_core(
    query: &Query,
    group: u32,
    k: u32,
    best: Option<Way>,
    seen: &mut [u8; MOST_PAGES],
) -> Option<Way>
    requires k_bound { k < cores_of query.now.machine.tables.now }
    requires known { search.Known (search.looked_for query.now) query.now.machine.memory.now seen.old best }
    ensures { search.Searched (search.looked_for query.now) query.now.machine.memory.now best seen.old result seen.new (search.member_ways group query.now.machine.tables.now query.now.machine.memory.now k) }
{
    if word::shift_right(group, k) % 2 == 1 {
        return from_block(query, query.machine.block(k), k, best, seen);
    }
    best
}

// The ways of the cores of a group.
fn from_cores(query: &Query, group: u32, seen: &mut [u8; MOST_PAGES]) -> Option<Way>
    requires { search.Known (search.looked_for query.now) query.now.machine.memory.now seen.old None }
    ensures { result ≡ search.sought (search.looked_for query.now) (ways.ways (members group (cores_of query.now.machine.tables.now)) query.now.machine.tables.now query.now.machine.memory.now) }
{
    let mut found = None;
    for k in 0..query.machine.cores() {
        found = from_core(query, group, k, found, seen);
    }
    found
}

// The way to the lowest page that is looked for.
pub fn find(machine: &Machine, want: Want, map: &[u8], group: u32) -> Option<Way>
    requires { length map.now ≡ pages_of machine.now.tables.now }
    ensures { result ≡ search.sought (search.wanted want (pages_of machine.now.tables.now) map.now) (ways.ways (members group (cores_of machine.now.tables.now)) machine.now.tables.now machine.now.memory.now) }
{
    let query = Query {
        machine: *machine,
        pages: machine.pages(),
        map,
        want,
    };
    let mut seen = [0u8; MOST_PAGES];
    from_cores(&query, group, &mut seen)
}
