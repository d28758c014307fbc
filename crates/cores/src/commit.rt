// A plan is done: to the core's block, to the I/O APIC's ports and to memory.
ghost use Rattle.std.specs.Prelude.{◌≡◌, true, ◌+◌, ◌*◌, ◌≤◌, length};
ghost use Rattle.records.specs.Records.{linked};
ghost use Rattle.layout.specs.Blocks.{block};
ghost use Rattle.isa.specs.Interrupts.{delta_jisr};
ghost use Rattle.apic.specs.LocalApic.{on_jisr};
ghost use Rattle.tables.specs.Views.{registers_of, with_registers};
ghost use Rattle.cores.specs.Commit as x;
ghost use Rattle.cores.specs.inner.Ready.{port_ready, ready, fits};

use super::{BufferChange, CoreChange, Plan, WalkChange, Write};
use apic::local;
use decode::Instruction;
use ioapic::ports;
use tables::registers;

// The registers are taken out of the block, and what an instruction, an interrupt or a return makes of them is put
// back.
fn execute(b: &mut [u32], i: Instruction, w: u32, read: u32)
    requires { length b.old ≡ 256 }
    ensures { b.new ≡ x.core_after (CoreChange.Execute i w read) b.old }
{
    let c = registers::registers(b);
    registers::put_registers(b, c.execute(i, w, read));
}

fn interrupt(b: &mut [u32], w: u32, read: u32, causes: u32, vector: u32)
    requires { length b.old ≡ 256 }
    ensures { b.new ≡ on_jisr (with_registers b.old (delta_jisr (registers_of b.old) w read causes vector)) }
{
    let c = registers::registers(b);
    registers::put_registers(b, c.interrupt(w, read, causes, vector));
    local::jisr(b);
}

fn return_from(b: &mut [u32])
    requires { length b.old ≡ 256 }
    ensures { b.new ≡ x.core_after CoreChange.Return b.old }
{
    let c = registers::registers(b);
    registers::put_registers(b, c.eret());
    local::rfe(b);
}

fn core(b: &mut [u32], change: CoreChange)
    requires { length b.old ≡ 256 }
    ensures { b.new ≡ x.core_after change b.old }
{
    match change {
        CoreChange::Nothing => {}
        CoreChange::Interrupt(i) => {
            interrupt(b, i.word, i.read, i.causes, i.vector);
        }
        CoreChange::Return => {
            return_from(b);
        }
        CoreChange::Execute(i, w, read) => {
            execute(b, i, w, read);
        }
    }
}

fn buffer(b: &mut [u32], change: BufferChange)
    requires b_len { length b.old ≡ 256 }
    requires b_value { linked b.old ≡ true }
    ensures { b.new ≡ x.buffer_after change b.old }
{
    match change {
        BufferChange::Nothing => {}
        BufferChange::Put(s) => {
            records::put_store(b, s);
        }
        BufferChange::Take => {
            records::take_store(b);
        }
    }
}

fn walks(b: &mut [u32], change: WalkChange)
    requires b_len { length b.old ≡ 256 }
    requires b_value { linked b.old ≡ true }
    ensures { b.new ≡ x.walks_after change b.old }
{
    match change {
        WalkChange::Nothing => {}
        WalkChange::Add(w) => {
            records::add_walk(b, w);
        }
        WalkChange::Drop(f) => {
            records::drop_walks(b, f);
        }
    }
}

fn local_port(b: &mut [u32], write: Write)
    requires b_len { length b.old ≡ 256 }
    requires write_value { port_ready write ≡ true }
    ensures { b.new ≡ x.port_after write b.old }
{
    if let Write::LocalPort(a, v) = write {
        local::write(b, a as usize, v);
    }
}

fn on_block(b: &mut [u32], p: Plan)
    requires b_len { length b.old ≡ 256 }
    requires b_value { linked b.old ≡ true }
    requires b_value_2 { ready p b.old ≡ true }
    ensures { b.new ≡ x.block_after p b.old }
{
    let c = p.core;
    core(b, c);
    let s = p.buffer;
    buffer(b, s);
    let w = p.walks;
    walks(b, w);
    let m = p.write;
    local_port(b, m);
}

// The I/O APIC's ports and memory.
fn beyond_block(t: &mut [u32], m: &mut [u8], write: Write)
    requires in_bounds { 32 ≤ length t.old }
    requires m_value { fits write (length m.old) ≡ true }
    ensures t_after { t.new ≡ x.header_after write t.old }
    ensures m_after { m.new ≡ x.written_to write m.old }
{
    match write {
        Write::Nothing => {}
        Write::Memory(a, d, v) => {
            let at = a as usize;
            if d == 4 {
                word::write_word(m, at, v);
                return;
            }
            word::write(m, at, d as usize, v);
        }
        Write::LocalPort(_, _) => {}
        Write::IoPort(a, v) => {
            ports::write(t, a as usize, v);
        }
    }
}

// A plan of core k.
pub fn commit(t: &mut [u32], m: &mut [u8], k: u32, p: Plan)
    requires k_in_bounds { 32 + 256 * k + 256 ≤ length t.old }
    requires k_value { linked (block t.old k) ≡ true }
    requires m_value { fits p.write (length m.old) ≡ true }
    requires k_value_2 { ready p (block t.old k) ≡ true }
    ensures t_after { t.new ≡ x.tables_by_plan k p t.old }
    ensures m_after { m.new ≡ x.memory_by_plan p m.old }
{
    let a = layout::block_at(k);
    let e = a + layout::BLOCK_WORDS;
    on_block(&mut t[a..e], p);
    let w = p.write;
    beyond_block(t, m, w);
}
