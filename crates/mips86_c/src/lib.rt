// What C and Rust link (include/mips86.h): the operations of mips86, each under its own name.
#![tactic(auto)]

ghost use Rattle.std.specs.Prelude.{◌≡◌, length};
ghost use Rattle.tables.specs.Make as made;
ghost use Rattle.steps.specs.Answers.{answer_number};
ghost use Rattle.machine.specs.Step as one;
ghost use Rattle.machine.specs.Run as many;
ghost use Rattle.reach.specs.Reach.{reach_on, reached_number, beyond_of};
ghost use Rattle.separation.specs.Apart.{apart_on, verdict_number};
ghost use Rattle.separation.specs.Separation.{machine_of, Promised};
ghost use Rattle.reasons.specs.Why.{told, told_number};
ghost use Rattle.translate.specs.Translate.{translate_on, translated_number, reads_of};
ghost use Rattle.disassemble.specs.Disassembly.{disassemble_on, disassembled_number};
ghost use Rattle.numbers.specs.Numbers.{refusal_or0};

// Makes a machine: 0, or 100 and the number of a refusal.
#[unsafe(no_mangle)]
pub extern "C" fn mips86_make(tables: &mut [u32], memory: &[u8], cores: u32) -> u32
    ensures value { result ≡ refusal_or0 (made.refusal cores (length memory.now) (length tables.old)) }
    ensures tables_after { tables.new ≡ made.made_or (made.refusal cores (length memory.now) (length tables.old)) cores (length memory.now) tables.old }
{
    mips86::mips86_make(tables, memory, cores)
}

// One step of six words: 0 done, 1 to 8 an interrupt of level 0 to 7, 100 and the number of a refusal.
#[unsafe(no_mangle)]
pub extern "C" fn mips86_step(tables: &mut [u32], memory: &mut [u8], step: &[u32]) -> u32
    ensures value { result ≡ answer_number (one.step tables.old memory.old step.now).answer }
    ensures tables_after { tables.new ≡ (one.step tables.old memory.old step.now).tables }
    ensures memory_after { memory.new ≡ (one.step tables.old memory.old step.now).memory }
{
    mips86::mips86_step(tables, memory, step)
}

// A schedule of steps: 0 the end, 1 the limit is spent, 100 and the number of a refusal; and how many steps were
// accepted.
#[unsafe(no_mangle)]
pub extern "C" fn mips86_run(
    tables: &mut [u32],
    memory: &mut [u8],
    schedule: &[u32],
    limit: u32,
    accepted: &mut u32,
) -> u32
    ensures value { result ≡ many.stop_number (many.run tables.old memory.old schedule.now limit).why }
    ensures accepted_after { accepted.new ≡ (many.run tables.old memory.old schedule.now limit).accepted }
    ensures tables_after { tables.new ≡ (many.run tables.old memory.old schedule.now limit).tables }
    ensures memory_after { memory.new ≡ (many.run tables.old memory.old schedule.now limit).memory }
{
    mips86::mips86_run(tables, memory, schedule, limit, accepted)
}

// The pages that a group reaches: 0, or 100 and the number of a refusal; and whether a page beyond memory is reached.
#[unsafe(no_mangle)]
pub extern "C" fn mips86_reach(
    tables: &[u32],
    memory: &[u8],
    group: u32,
    map: &mut [u8],
    beyond: &mut u32,
) -> u32
    ensures value { result ≡ reached_number (reach_on group tables.now memory.now map.old).answer }
    ensures beyond_after { beyond.new ≡ beyond_of (reach_on group tables.now memory.now map.old).answer }
    ensures map_after { map.new ≡ (reach_on group tables.now memory.now map.old).map }
{
    mips86::mips86_reach(tables, memory, group, map, beyond)
}

// Whether a group is apart from the rest: 0 no, 1 yes, 100 and the number of a refusal. A yes makes the promise of
// separation.
#[unsafe(no_mangle)]
pub extern "C" fn mips86_apart(tables: &[u32], memory: &[u8], group: u32) -> u32
    ensures value { result ≡ verdict_number (apart_on group tables.now memory.now) }
    ensures promised { result ≡ 1 → Promised group (machine_of tables.now memory.now) }
{
    mips86::mips86_apart(tables, memory, group)
}

// Why a group is not apart: 0 no reason after reason `after`, 1 to 6 the first one, with the rest of it in 18 words,
// 100 and the number of a refusal.
#[unsafe(no_mangle)]
pub extern "C" fn mips86_why(
    tables: &[u32],
    memory: &[u8],
    group: u32,
    after: u32,
    words: &mut [u32],
) -> u32
    ensures value { result ≡ told_number (told after group tables.now memory.now words.old).answer }
    ensures words_after { words.new ≡ (told after group tables.now memory.now words.old).words }
{
    mips86::mips86_why(tables, memory, group, after, words)
}

// Where up to 64 virtual addresses of a core lead, three words each: 0, or 100 and the number of a refusal; and how
// many table entries were read.
#[unsafe(no_mangle)]
pub extern "C" fn mips86_translate(
    tables: &[u32],
    memory: &[u8],
    core: u32,
    addresses: &[u32],
    answers: &mut [u32],
    reads: &mut u32,
) -> u32
    ensures value { result ≡ translated_number (translate_on core addresses.now tables.now memory.now answers.old).answer }
    ensures reads_after { reads.new ≡ reads_of (translate_on core addresses.now tables.now memory.now answers.old).answer }
    ensures answers_after { answers.new ≡ (translate_on core addresses.now tables.now memory.now answers.old).words }
{
    mips86::mips86_translate(tables, memory, core, addresses, answers, reads)
}

// The text of an instruction word in 32 bytes, zero beyond it: its length, or 100 and the number of a refusal.
#[unsafe(no_mangle)]
pub extern "C" fn mips86_disassemble(word: u32, text: &mut [u8]) -> u32
    ensures value { result ≡ disassembled_number (disassemble_on word text.old).answer }
    ensures text_after { text.new ≡ (disassemble_on word text.old).bytes }
{
    mips86::mips86_disassemble(word, text)
}
