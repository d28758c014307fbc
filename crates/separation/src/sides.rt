// The two sides of a group: their cores, and what their maps say of a page (specs/inner/Sides.antt).
ghost use Rattle.std.specs.Prelude.{◌≡◌, ◌+◌, ◌*◌, ◌≤◌, ◌<◌, length, get_or};
ghost use Rattle.word.specs.Word.{is_set};
ghost use Rattle.records.specs.Records.{all};
ghost use Rattle.tables.specs.Views.{cores_of};
ghost use Rattle.reach.specs.Lists.{range};
ghost use Rattle.reach.specs.Reach.{members};
ghost use Rattle.separation.specs.Apart as apart;
ghost use Rattle.separation.specs.inner.Sides as y;

use layout::CORES;
use tables::machine::Machine;

// Whether core k is of the group.
pub fn is_member(group: u32, k: u32) -> bool
    requires { k < 32 }
    ensures { result ≡ is_set group k }
{
    word::shift_right(group, k) % 2 == 1
}

// The rest, as a group: the other running cores.
pub fn rest(machine: &Machine, group: u32) -> u32
    ensures value { result ≡ apart.rest_group group machine.now.tables.now }
    ensures members { members result (cores_of machine.now.tables.now) ≡ apart.rest group machine.now.tables.now }
{
    let mut r: u32 = 0;
    for k in 0..machine.cores() {
        let other = !is_member(group, k) & tables::block::runs(machine.block(k));
        r = word::put_bit(r, k, other as u32);
    }
    r
}

// Whether a core, by its block and by whether it is of the group, is of neither side, or is running in user mode.
fn block_passes(b: &[u32], member: bool) -> bool
    requires { length b.now ≡ 256 }
    ensures { result ≡ y.block_passes member b.now }
{
    let running = tables::block::runs(b);
    let user = tables::block::user(b);
    !(member | running) | (running & user)
}

// Whether core k is of neither side, or is running in user mode.
pub fn passes(machine: &Machine, group: u32, k: u32) -> bool
    requires { k < cores_of machine.now.tables.now }
    ensures { result ≡ y.passes group machine.now.tables.now k }
{
    block_passes(machine.block(k), is_member(group, k))
}

// Whether every core of both sides is running in user mode.
pub fn all_in_user_mode(t: &[u32], group: u32) -> bool
    requires { (cores_of t.now ≤ 4) × (32 + 256 * cores_of t.now ≤ length t.now) }
    ensures { result ≡ all (y.passes group t.now) (range (cores_of t.now)) }
{
    let cores = t[CORES];
    let mut good = true;
    for k in 0..cores {
        good &= block_passes(layout::block(t, k), is_member(group, k));
    }
    good
}

// Whether a byte of the map has 2 and 4.
fn both(x: u8) -> bool
    ensures { result ≡ y.both x }
{
    (x / 2 % 2 == 1) & (x / 4 % 2 == 1)
}

// Whether a page may have these bytes in the maps of the group and of the rest.
fn page_apart(own: u8, other: u8) -> bool
    ensures { result ≡ y.page_apart own other }
{
    !both(own) & (!both(other) & !((own != 0) & ((other / 4 % 2 == 1) | (other / 2 % 2 == 1))))
}

// Whether all pages may have the bytes that they have.
pub fn pages_apart(own: &[u8], other: &[u8], pages: usize) -> bool
    requires { (pages ≤ length own.now) × (pages ≤ length other.now) }
    ensures { result ≡ all (λ i. y.page_apart (get_or own.now i 0) (get_or other.now i 0)) (range pages) }
{
    let mut good = true;
    for i in 0..pages {
        good &= page_apart(own[i], other[i]);
    }
    good
}
