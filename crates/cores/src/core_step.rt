// A step of a core: the fetch, then the instruction (11.3).
ghost use Rattle.std.specs.Prelude.{◌≡◌, true, not, ◌||◌, ◌%◌, ◌^◌, length, ltb};
ghost use Rattle.isa.specs.Interrupts.{user};
ghost use Rattle.tables.specs.Views.{registers_of};
ghost use Rattle.tlb.specs.declared.Faulting.TheVariants as verdict;
ghost use Rattle.cores.specs.Guards.{settle};
ghost use Rattle.cores.specs.Core as x;

use super::{LentCore, Plan, WalkChange, access, causes, finish, translation};
use records::Walk;
use refusals::Refusal;
use tables::block;
use tlb::{Faulting, Request};

// The instruction at a physical address.
fn at_address(core: &LentCore, access: Walk, a: u32) -> Result<Plan, Refusal>
    requires a_value { a % 4 ≡ 0 }
    ensures { result ≡ settle (x.on_fetch_address (x.view_of core.now.block.now) core.now.io core.now.memory.now access a) }
{
    if store_buffer::is_port(a) {
        return Err(Refusal::NoNextState);
    }
    let r = store_buffer::read_memory(core.memory, a, 4);
    match r {
        Some(w) => {
            let i = decode::decode(w);
            access::instruction(core, access, i, w)
        }
        None => Err(Refusal::ByteNowhere),
    }
}

// A fetch that does not fault, by the walk that was used.
fn passed(core: &LentCore, fetch: Walk, access: Walk) -> Result<Plan, Refusal>
    requires b_value { (registers_of core.now.block.now).pc % 4 ≡ 0 }
    requires second_value { (not (user (registers_of core.now.block.now)) || ltb fetch.second (2 ^ 20)) ≡ true }
    ensures { result ≡ settle (x.on_fetch (x.view_of core.now.block.now) core.now.io core.now.memory.now fetch access verdict.Passes) }
{
    let user = block::user(core.block);
    if !translation::ends(user, fetch) {
        return Err(Refusal::NoNextState);
    }
    let a = translation::physical(user, fetch, block::pc(core.block));
    at_address(core, access, a)
}

fn fetch_request(b: &[u32]) -> Request
    requires { length b.now ≡ 256 }
    ensures { result ≡ x.fetch_request_of (registers_of b.now) }
{
    let asid = block::asid(b);
    Request {
        asid,
        va: block::pc(b),
        r: tlb::FETCH,
    }
}

// A fetch by the fetch walk.
fn by_walk(core: &LentCore, fetch: Walk, access: Walk) -> Result<Plan, Refusal>
    requires b_value { (registers_of core.now.block.now).pc % 4 ≡ 0 }
    ensures { result ≡ settle (x.fetch (x.view_of core.now.block.now) core.now.io core.now.memory.now fetch access) }
{
    let user = block::user(core.block);
    let t = fetch_request(core.block);
    if !translation::fits(core.block, user, t, fetch) {
        return Err(Refusal::NoNextState);
    }
    let f = translation::fault(core.memory, user, t, fetch);
    match f {
        Faulting::Passes => passed(core, fetch, access),
        Faulting::Faults => {
            let ca = causes::without(core.block, false, true);
            Ok(finish::stopped(core.block, 0, ca, translation::faulted(core.block, t.va)))
        }
        Faulting::Undecided => Err(Refusal::ByteNowhere),
    }
}

// A step of a core with the walks of its fetch and of its access.
pub fn core_step(core: &LentCore, fetch: Walk, access: Walk) -> Result<Plan, Refusal>
    ensures { result ≡ x.core_plan (x.view_of core.now.block.now) core.now.io core.now.memory.now fetch access }
{
    if !block::runs(core.block) {
        return Err(Refusal::NoNextState);
    }
    if block::pc(core.block) % 4 != 0 {
        let ca = causes::without(core.block, true, false);
        return Ok(finish::stopped(core.block, 0, ca, WalkChange::Nothing));
    }
    by_walk(core, fetch, access)
}
