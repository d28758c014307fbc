// A step of one core, of its TLB or of its store buffer (kinds 0 to 4): what it decides on shared borrows, and what it
// then does to the core's block, to memory and to the I/O APIC's ports.
#![tactic(auto)]

pub mod access;
pub mod buffer_step;
pub mod causes;
pub mod commit;
pub mod core_step;
pub mod finish;
pub mod tlb_steps;
pub mod translation;

ghost use Rattle.std.specs.Prelude.{◌≡◌};
ghost use Rattle.cores.specs.Plans as x;
ghost use Rattle.cores.specs.inner.Ready.{SoundBeside};

use decode::Instruction;
use records::{Flush, Store, Walk};
use steps::Answer;

// The I/O APIC's port words: IOREGSEL and IOWIN.
#[derive(Clone, Copy)]
pub struct IoPorts {
    pub select: u32,
    pub window: u32,
}

// What a step of a core reads: its block, the I/O APIC's port words and memory.
#[derive(Clone, Copy)]
pub struct LentCore<'a> {
    pub block: &'a [u32],
    pub io: IoPorts,
    pub memory: &'a [u8],
    pub ghost sound: { SoundBeside block.now memory.now },
}

// An instruction that was fetched, its word and its masked causes.
#[derive(Clone, Copy)]
pub struct Fetched {
    pub instruction: Instruction,
    pub word: u32,
    pub causes: u32,
}

// An interrupt at a word that has read something, by its masked causes; the vector is that of the lowest external
// event.
#[derive(Clone, Copy)]
pub struct Interruption {
    pub word: u32,
    pub read: u32,
    pub causes: u32,
    pub vector: u32,
}

// Definition 22; an instruction with its word and what it has read. (In a struct these three cost 90 processor
// instructions a step.)
#[derive(Clone, Copy)]
pub enum CoreChange {
    Nothing,
    Interrupt(Interruption),
    Return,
    Execute(Instruction, u32, u32),
}

// What becomes of the pending stores, and of the walks. Nothing is one of three cases, so these are no Options.
#[derive(Clone, Copy)]
pub enum BufferChange {
    Nothing,
    Put(Store),
    Take,
}

#[derive(Clone, Copy)]
pub enum WalkChange {
    Nothing,
    Add(Walk),
    Drop(Flush),
}

// Bytes of memory (address, width, value), or a word at a port address.
#[derive(Clone, Copy)]
pub enum Write {
    Nothing,
    Memory(u32, u32, u32),
    LocalPort(u32, u32),
    IoPort(u32, u32),
}

// What a step that is not refused answers and does.
#[derive(Clone, Copy)]
pub struct Plan {
    pub answer: Answer,
    pub core: CoreChange,
    pub buffer: BufferChange,
    pub walks: WalkChange,
    pub write: Write,
}

// A step of the TLB or of the store buffer.
fn done(buffer: BufferChange, walks: WalkChange, write: Write) -> Plan
    ensures { result ≡ x.done buffer walks write }
{
    Plan {
        answer: Answer::Done,
        core: CoreChange::Nothing,
        buffer,
        walks,
        write,
    }
}
