// How a core's step ends: an interrupt, a return or an instruction (definition 22).
ghost use Rattle.std.specs.Prelude.{◌≡◌, length};
ghost use Rattle.apic.specs.LocalApic.{event};
ghost use Rattle.cores.specs.Plans as p;
ghost use Rattle.cores.specs.Core as x;

use super::{BufferChange, CoreChange, Fetched, Interruption, Plan, WalkChange, Write};
use apic::local;
use decode::Instruction;
use isa::interrupts;
use steps::Answer;

fn interrupted(
    b: &[u32],
    w: u32,
    read: u32,
    causes: u32,
    buffer: BufferChange,
    walks: WalkChange,
    write: Write,
) -> Plan
    requires { length b.now ≡ 256 }
    ensures { result ≡ p.interrupted w read causes (x.vector_of (event b.now)) buffer walks write }
{
    let answer = Answer::Interrupt(interrupts::level(causes));
    let core = CoreChange::Interrupt(Interruption {
        word: w,
        read,
        causes,
        vector: u32::from(local::event(b).unwrap_or(0)),
    });
    Plan {
        answer,
        core,
        buffer,
        walks,
        write,
    }
}

// An interrupt that leaves no effect but the walks that go.
pub fn stopped(b: &[u32], w: u32, causes: u32, walks: WalkChange) -> Plan
    requires { length b.now ≡ 256 }
    ensures { result ≡ p.interrupted w 0 causes (x.vector_of (event b.now)) BufferChange.Nothing walks Write.Nothing }
{
    interrupted(
        b,
        w,
        0,
        causes,
        BufferChange::Nothing,
        walks,
        Write::Nothing,
    )
}

// What a core without an interrupt does at an instruction.
fn change(i: Instruction, w: u32, read: u32) -> CoreChange
    ensures { result ≡ p.changed i w read }
{
    if interrupts::is_return(i) {
        return CoreChange::Return;
    }
    CoreChange::Execute(i, w, read)
}

// The end of an instruction that is not suppressed, with what else it does.
pub fn finished(
    b: &[u32],
    f: Fetched,
    read: u32,
    buffer: BufferChange,
    walks: WalkChange,
    write: Write,
) -> Plan
    requires { length b.now ≡ 256 }
    ensures { result ≡ p.finished f.instruction f.word read f.causes (x.vector_of (event b.now)) buffer walks write }
{
    if f.causes != 0 {
        return interrupted(b, f.word, read, f.causes, buffer, walks, write);
    }
    let i = f.instruction;
    let core = change(i, f.word, read);
    Plan {
        answer: Answer::Done,
        core,
        buffer,
        walks,
        write,
    }
}
