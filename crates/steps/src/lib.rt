// What a step is, as six words say it, and what it answers.
#![tactic(auto)]

ghost use Rattle.std.specs.Prelude.{◌≡◌, ◌<◌, ◌≤◌, ◌^◌, length};
ghost use Rattle.steps.specs.Answers.{answer_number};
ghost use Rattle.steps.specs.Form as form;

use records::Walk;
use refusals::Refusal;

// A step of a core, of its TLB or of its store buffer (kinds 0 to 4).
#[derive(Clone, Copy)]
pub enum ProcessorStep {
    // The fetch walk and the data walk.
    Core(Walk, Walk),
    // The virtual page.
    TlbCreate(u32),
    // The rights that the words name have no effect: the function extends with rights 000.
    TlbExtend(Walk),
    TlbAccessed(Walk),
    StoreBuffer,
}

// A step of a core's local APIC, or on a line of the I/O APIC (kinds 5 to 11).
#[derive(Clone, Copy)]
pub enum ApicStep {
    SendIpi(u32),
    SendEoi(u32),
    InitCore(u32),
    StartCore(u32),
    Sample(u32),
    Deliver(u32),
    // The line and its level.
    SetLine(u32, u32),
}

#[derive(Clone, Copy)]
pub enum Step {
    // The core, and what it does.
    ByProcessor(u32, ProcessorStep),
    ByApic(ApicStep),
}

// What a step answers that is not refused.
#[derive(Clone, Copy, Debug, PartialEq, Eq)]
pub enum Answer {
    Done,
    // The level.
    Interrupt(u32),
}

// The answer as one number.
pub fn answer_number(answer: Result<Answer, Refusal>) -> u32
    requires { answer_number answer < 2 ^ 32 }
    ensures { result ≡ answer_number answer }
{
    match answer {
        Ok(Answer::Done) => 0,
        Ok(Answer::Interrupt(level)) => 1 + level,
        Err(refusal) => 100 + u32::from(refusal),
    }
}

fn walk_at(s: &[u32], i: usize) -> Walk
    requires { (length s.now ≡ 6) × (i < 5) }
    ensures { result ≡ form.walk_at s.now i }
{
    Walk {
        first: s[i],
        second: s[i + 1],
    }
}

// Whether the words from one on, which a kind does not name, are zero.
fn zero_from(s: &[u32], from: usize) -> bool
    requires { (length s.now ≡ 6) × (from ≤ 6) }
    ensures { result ≡ form.zero_from from s.now }
{
    s[from..].iter().all(|w| *w == 0)
}

fn core_step(kind: u32, k: u32, s: &[u32]) -> Option<Step>
    requires { length s.now ≡ 6 }
    ensures { result ≡ form.step_of_core kind k s.now }
{
    match kind {
        0 => Some(Step::ByProcessor(k, ProcessorStep::Core(walk_at(s, 2), walk_at(s, 4)))),
        1 => ((s[2] < 0x10_0000) & zero_from(s, 3)).then_some(Step::ByProcessor(
            k,
            ProcessorStep::TlbCreate(s[2]),
        )),
        2 => ((s[4] < 8) & zero_from(s, 5)).then_some(Step::ByProcessor(
            k,
            ProcessorStep::TlbExtend(walk_at(s, 2)),
        )),
        3 => zero_from(s, 4).then_some(Step::ByProcessor(
            k,
            ProcessorStep::TlbAccessed(walk_at(s, 2)),
        )),
        4 => zero_from(s, 2).then_some(Step::ByProcessor(k, ProcessorStep::StoreBuffer)),
        5 => zero_from(s, 2).then_some(Step::ByApic(ApicStep::SendIpi(k))),
        6 => zero_from(s, 2).then_some(Step::ByApic(ApicStep::SendEoi(k))),
        7 => zero_from(s, 2).then_some(Step::ByApic(ApicStep::InitCore(k))),
        _ => zero_from(s, 2).then_some(Step::ByApic(ApicStep::StartCore(k))),
    }
}

fn line_step(kind: u32, n: u32, s: &[u32]) -> Option<Step>
    requires { length s.now ≡ 6 }
    ensures { result ≡ form.step_of_line kind n s.now }
{
    match kind {
        9 => zero_from(s, 2).then_some(Step::ByApic(ApicStep::Sample(n))),
        10 => zero_from(s, 2).then_some(Step::ByApic(ApicStep::Deliver(n))),
        _ => ((s[2] < 2) & zero_from(s, 3)).then_some(Step::ByApic(ApicStep::SetLine(n, s[2]))),
    }
}

// The step that the words say, for a machine of so many cores.
pub fn parse(cores: u32, s: &[u32]) -> Option<Step>
    ensures { result ≡ form.step_of cores s.now }
{
    if s.len() != 6 {
        return None;
    }
    let kind = s[0];
    let at = s[1];
    if kind < 9 {
        return if at < cores {
            core_step(kind, at, s)
        } else {
            None
        };
    }
    if kind < 12 {
        return if at < 24 {
            line_step(kind, at, s)
        } else {
            None
        };
    }
    None
}

// The word of the tables that counts a refusal of these words, for a machine of so many cores: that of the core which
// a step of kind 0 to 8 names, well formed or not, and the header's for all the rest.
pub fn count_at(cores: u32, s: &[u32]) -> usize
    ensures { result ≡ form.count_at cores s.now }
{
    if s.len() != 6 {
        return layout::REFUSALS;
    }
    if (s[0] < 9) & (s[1] < cores) {
        return layout::block_at(s[1]) + layout::CORE_REFUSALS;
    }
    layout::REFUSALS
}
