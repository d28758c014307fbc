// An instruction that was fetched: data access, causes and effect (11.3).
ghost use Rattle.std.specs.Prelude.{◌≡◌, Ok, true, false, not, ◌||◌, ◌%◌, ◌*◌, ◌^◌, length, ltb};
ghost use Rattle.isa.specs.Core.{d, mal, ea};
ghost use Rattle.isa.specs.Interrupts.{user};
ghost use Rattle.records.specs.Records.{linked, stores};
ghost use Rattle.records.specs.Contents.{all_there};
ghost use Rattle.store_buffer.specs.System.{aligned, sized, loaded, reads, memory_byte};
ghost use Rattle.tables.specs.Views.{registers_of};
ghost use Rattle.tlb.specs.declared.Faulting.TheVariants as verdict;
ghost use Rattle.cores.specs.Guards.{settle};
ghost use Rattle.cores.specs.Core as x;

use super::{
    BufferChange, Fetched, LentCore, Plan, WalkChange, Write, causes, finish, translation,
};
use decode::{Instruction, classes, fields};
use isa::interrupts;
use records::{Flush, Store, Walk};
use refusals::Refusal;
use store_buffer::LoadError;
use tables::block;
use tlb::{Faulting, Request};

fn load(core: &LentCore, f: Fetched, a: u32) -> Result<Plan, Refusal>
    requires instruction_value { aligned a (d f.instruction) ≡ true }
    ensures { result ≡ x.on_load (x.view_of core.now.block.now) f.instruction f.word f.causes (loaded (stores core.now.block.now) (x.ports_beside (x.view_of core.now.block.now) core.now.io) core.now.memory.now a (d f.instruction)) }
{
    let i = f.instruction;
    let l = store_buffer::load(
        core.block,
        core.io.select,
        core.io.window,
        core.memory,
        a,
        interrupts::width(i),
    );
    match l {
        Ok(l) => Ok(finish::finished(
            core.block,
            f,
            l.value,
            BufferChange::Nothing,
            WalkChange::Nothing,
            Write::Nothing,
        )),
        Err(LoadError::Nowhere) => Err(Refusal::ByteNowhere),
        Err(LoadError::Hazard) => Err(Refusal::NoNextState),
    }
}

// Whether the bytes are all in memory or in ports; they are aligned, so the first one tells.
fn is_there(a: u32, width: u32, bytes: usize) -> bool
    requires width_value { aligned a width ≡ true }
    requires bytes_value { bytes % 4 ≡ 0 }
    ensures { result ≡ all_there width bytes a }
{
    ((a as usize) < bytes) | store_buffer::is_port(a)
}

// The low bytes of a value.
fn low(v: u32, width: u32) -> u32
    requires { sized width ≡ true }
    ensures { result ≡ v % 2 ^ (8 * width) }
{
    match width {
        1 => v % 0x100,
        2 => v % 0x1_0000,
        _ => v,
    }
}

fn stored(b: &[u32], f: Fetched, a: u32) -> Store
    requires b_len { length b.now ≡ 256 }
    requires instruction_value { sized (d f.instruction) ≡ true }
    ensures { result ≡ x.stored_from (registers_of b.now) f.instruction f.word a }
{
    let i = f.instruction;
    let width = interrupts::width(i);
    let value = low(block::general(b, fields::rt(f.word)), width);
    Store {
        address: a,
        value,
        width,
    }
}

fn store(core: &LentCore, f: Fetched, a: u32) -> Result<Plan, Refusal>
    requires instruction_value { aligned a (d f.instruction) ≡ true }
    ensures { result ≡ x.on_store (x.view_of core.now.block.now) f.instruction f.word f.causes (x.stored_from (registers_of core.now.block.now) f.instruction f.word a) (all_there (d f.instruction) (length core.now.memory.now) a) }
{
    let i = f.instruction;
    if !is_there(a, interrupts::width(i), core.memory.len()) {
        return Err(Refusal::ByteNowhere);
    }
    if 8 <= records::count_stores(core.block) {
        return Err(Refusal::StoresFull);
    }
    if core.block[layout::FREE_HEAD] == 0 {
        return Err(Refusal::NoFreeRecord);
    }
    let s = stored(core.block, f, a);
    Ok(finish::finished(
        core.block,
        f,
        0,
        BufferChange::Put(s),
        WalkChange::Nothing,
        Write::Nothing,
    ))
}

// What a cas writes that has read a word.
fn exchanged(b: &[u32], w: u32, read: u32, a: u32) -> Write
    requires { length b.now ≡ 256 }
    ensures { result ≡ x.exchanged (registers_of b.now) w read a }
{
    if read == block::general(b, fields::rd(w)) {
        return Write::Memory(a, 4, block::general(b, fields::rt(w)));
    }
    Write::Nothing
}

fn cas(core: &LentCore, f: Fetched, a: u32) -> Result<Plan, Refusal>
    requires a_value { aligned a 4 ≡ true }
    ensures { result ≡ x.on_cas (x.view_of core.now.block.now) f.instruction f.word f.causes a (reads 4 (memory_byte core.now.memory.now) a) }
{
    let r = store_buffer::read_memory(core.memory, a, 4);
    match r {
        Some(v) => {
            let write = exchanged(core.block, f.word, v, a);
            Ok(finish::finished(
                core.block,
                f,
                v,
                BufferChange::Nothing,
                WalkChange::Nothing,
                write,
            ))
        }
        None => Err(Refusal::ByteNowhere),
    }
}

// A load, store or cas at a physical address.
fn performed(core: &LentCore, f: Fetched, a: u32) -> Result<Plan, Refusal>
    requires instruction_value { x.is_access f.instruction ≡ true }
    requires instruction_value_2 { aligned a (d f.instruction) ≡ true }
    ensures { result ≡ x.performed (x.view_of core.now.block.now) core.now.io core.now.memory.now f.instruction f.word f.causes a }
{
    let i = f.instruction;
    if classes::is_load(i) {
        return load(core, f, a);
    }
    if classes::is_store(i) {
        return store(core, f, a);
    }
    cas(core, f, a)
}

// Whether an instruction may access no port.
fn avoids_ports(i: Instruction) -> bool
    ensures { result ≡ x.avoids_ports i }
{
    classes::is_cas(i) | !(interrupts::width(i) == 4)
}

// Whether a load has a hazard.
fn has_hazard(b: &[u32], i: Instruction, a: u32) -> bool
    requires b_len { length b.now ≡ 256 }
    requires b_value { linked b.now ≡ true }
    ensures { result ≡ x.has_hazard (stores b.now) i a }
{
    if classes::is_load(i) {
        return store_buffer::hazard(b, a, interrupts::width(i));
    }
    false
}

// A load, store or cas that does not fault, at its physical address.
fn at_address(core: &LentCore, f: Fetched, a: u32) -> Result<Plan, Refusal>
    requires instruction_value { x.is_access f.instruction ≡ true }
    requires a_value { a % 4 ≡ ea f.instruction (registers_of core.now.block.now) f.word % 4 }
    requires causes_value { f.causes ≡ x.causes (x.view_of core.now.block.now) f.instruction f.word false }
    ensures { result ≡ settle (x.on_address (x.view_of core.now.block.now) core.now.io core.now.memory.now f.instruction f.word a) }
{
    let i = f.instruction;
    if avoids_ports(i) & store_buffer::is_port(a) {
        return Err(Refusal::NoNextState);
    }
    if causes::suppress(f.causes) {
        if has_hazard(core.block, i, a) {
            return Err(Refusal::NoNextState);
        }
        return Ok(finish::stopped(core.block, f.word, f.causes, WalkChange::Nothing));
    }
    performed(core, f, a)
}

// A load, store or cas that does not fault, by the walk that was used.
fn passed(core: &LentCore, walk: Walk, f: Fetched) -> Result<Plan, Refusal>
    requires instruction_value { x.is_access f.instruction ≡ true }
    requires second_value { (not (user (registers_of core.now.block.now)) || ltb walk.second (2 ^ 20)) ≡ true }
    requires causes_value { f.causes ≡ x.causes (x.view_of core.now.block.now) f.instruction f.word false }
    ensures { result ≡ settle (x.on_data (x.view_of core.now.block.now) core.now.io core.now.memory.now walk f.instruction f.word verdict.Passes) }
{
    let user = block::user(core.block);
    if !translation::ends(user, walk) {
        return Err(Refusal::NoNextState);
    }
    let i = f.instruction;
    let a = translation::physical(user, walk, causes::address(core.block, i, f.word));
    at_address(core, f, a)
}

fn data_request(b: &[u32], i: Instruction, w: u32) -> Request
    requires { length b.now ≡ 256 }
    ensures { result ≡ x.data_request_of (registers_of b.now) i w }
{
    let asid = block::asid(b);
    let va = causes::address(b, i, w);
    let r = if classes::is_store(i) | classes::is_cas(i) {
        tlb::STORE
    } else {
        tlb::LOAD
    };
    Request { asid, va, r }
}

// A load, store or cas by the data walk. A page fault is one cause more.
fn access(core: &LentCore, walk: Walk, f: Fetched) -> Result<Plan, Refusal>
    requires instruction_value { x.is_access f.instruction ≡ true }
    requires causes_value { f.causes ≡ x.causes (x.view_of core.now.block.now) f.instruction f.word false }
    ensures { result ≡ settle (x.on_access (x.view_of core.now.block.now) core.now.io core.now.memory.now walk f.instruction f.word) }
{
    let user = block::user(core.block);
    let i = f.instruction;
    let t = data_request(core.block, i, f.word);
    if !translation::fits(core.block, user, t, walk) {
        return Err(Refusal::NoNextState);
    }
    let v = translation::fault(core.memory, user, t, walk);
    match v {
        Faulting::Passes => passed(core, walk, f),
        Faulting::Faults => Ok(finish::stopped(
            core.block,
            f.word,
            f.causes + 32,
            translation::faulted(core.block, t.va),
        )),
        Faulting::Undecided => Err(Refusal::ByteNowhere),
    }
}

// The walks that flush and invlpg drop.
fn dropped(b: &[u32], i: Instruction, w: u32) -> WalkChange
    requires { length b.now ≡ 256 }
    ensures { result ≡ x.dropped_by (registers_of b.now) i w }
{
    if classes::is_flush(i) {
        return WalkChange::Drop(Flush::All);
    }
    if classes::is_invlpg(i) {
        let va = tlb::page(block::general(b, fields::rd(w)));
        let asid = block::general(b, fields::rs(w)) % 64;
        return WalkChange::Drop(Flush::Incomplete(tlb::page_key(va, asid)));
    }
    WalkChange::Nothing
}

// An instruction that accesses no memory.
fn plain(b: &[u32], f: Fetched) -> Plan
    requires b_len { length b.now ≡ 256 }
    requires causes_value { f.causes ≡ x.causes (x.view_of b.now) f.instruction f.word false }
    ensures { Ok result ≡ x.without_access (x.view_of b.now) f.instruction f.word }
{
    let i = f.instruction;
    let w = f.word;
    let walks = dropped(b, i, w);
    if causes::suppress(f.causes) {
        return finish::stopped(b, w, f.causes, WalkChange::Nothing);
    }
    finish::finished(b, f, 0, BufferChange::Nothing, walks, Write::Nothing)
}

// Whether an instruction finds the buffer as it asks.
fn finds_buffer(b: &[u32], i: Instruction) -> bool
    requires b_len { length b.now ≡ 256 }
    requires b_value { linked b.now ≡ true }
    ensures { result ≡ x.finds_buffer (stores b.now) i }
{
    if classes::is_cas(i) | classes::is_mfence(i) {
        return records::count_stores(b) == 0;
    }
    true
}

fn is_access(i: Instruction) -> bool
    ensures { result ≡ x.is_access i }
{
    classes::is_load(i) | (classes::is_store(i) | classes::is_cas(i))
}

// An instruction that was fetched.
pub fn instruction(core: &LentCore, walk: Walk, i: Instruction, w: u32) -> Result<Plan, Refusal>
    ensures { result ≡ settle (x.on_instruction (x.view_of core.now.block.now) core.now.io core.now.memory.now walk i w) }
{
    if !finds_buffer(core.block, i) {
        return Err(Refusal::NoNextState);
    }
    let causes = causes::of(core.block, i, w);
    let f = Fetched {
        instruction: i,
        word: w,
        causes,
    };
    if is_access(i) {
        return access(core, walk, f);
    }
    Ok(plain(core.block, f))
}
