// The machine: single steps and runs on lent tables and memory.
#![tactic(auto)]

pub mod action;
pub mod decide;
pub mod run;

ghost use Rattle.std.specs.Prelude.{◌≡◌, true, ◌≤◌, ◌<◌, length, Some};
ghost use Rattle.tables.specs.Sound.{sound};
ghost use Rattle.tables.specs.Views.{cores_of};
ghost use Rattle.steps.specs.Answers.{answer_number};
ghost use Rattle.steps.specs.Form.{count_at};
ghost use Rattle.machine.specs.Decide.{by_step, decided};
ghost use Rattle.machine.specs.inner.Tried.{tried};
ghost use Rattle.steps.specs.declared.Step.TheVariants.{ByProcessor, ByApic};
ghost use Rattle.machine.specs.inner.Formed.{formed};
ghost use Rattle.machine.specs.Step as operation;

use cores::commit;
use refusals::Refusal;
use steps::{Answer, ApicStep, ProcessorStep, Step};

// One more refusal of a step of these words, in the word that counts it; a count stays at its largest.
pub(crate) fn count(t: &mut [u32], s: &[u32])
    requires in_bounds { 32 ≤ length t.old }
    requires s_in_bounds { count_at (cores_of t.old) s.now < length t.old }
    ensures { t.new ≡ operation.counted s.now t.old }
{
    let at = steps::count_at(t[layout::CORES], s);
    let n = t[at];
    if n < 0xFFFF_FFFF {
        t[at] = n + 1;
    }
}

// A step of core k, of its TLB or of its store buffer, on sound tables.
fn by_plan(t: &mut [u32], m: &mut [u8], k: u32, p: ProcessorStep) -> Result<Answer, Refusal>
    requires m_value { sound t.old (length m.old) ≡ true }
    requires p_value { formed (cores_of t.old) (ByProcessor k p) ≡ true }
    ensures value { result ≡ (tried (by_step t.old m.old (Some (ByProcessor k p))) t.old m.old).answer }
    ensures t_after { t.new ≡ (tried (by_step t.old m.old (Some (ByProcessor k p))) t.old m.old).tables }
    ensures m_after { m.new ≡ (tried (by_step t.old m.old (Some (ByProcessor k p))) t.old m.old).memory }
{
    let plan = decide::plan(t, m, k, p)?;
    commit::commit(t, m, k, plan);
    Ok(plan.answer)
}

// A step of a local APIC, or on a line, on sound tables.
fn by_action(t: &mut [u32], m: &[u8], p: ApicStep) -> Result<Answer, Refusal>
    requires m_value { sound t.old (length m.now) ≡ true }
    requires p_value { formed (cores_of t.old) (ByApic p) ≡ true }
    ensures value { result ≡ (tried (by_step t.old m.now (Some (ByApic p))) t.old m.now).answer }
    ensures t_after { t.new ≡ (tried (by_step t.old m.now (Some (ByApic p))) t.old m.now).tables }
{
    let a = decide::action(t, p)?;
    action::commit(t, a);
    Ok(Answer::Done)
}

// A step on sound tables, as its words say it, but for the count: where it is refused nothing moves, and the caller
// counts. Steps that have a plan go their own way: a plan is large, and joined with the other actions it would be
// copied from hand to hand.
pub(crate) fn take(t: &mut [u32], m: &mut [u8], s: &[u32]) -> Result<Answer, Refusal>
    requires { sound t.old (length m.old) ≡ true }
    ensures value { result ≡ (tried (decided t.old m.old s.now) t.old m.old).answer }
    ensures t_after { t.new ≡ (tried (decided t.old m.old s.now) t.old m.old).tables }
    ensures m_after { m.new ≡ (tried (decided t.old m.old s.now) t.old m.old).memory }
{
    match steps::parse(t[layout::CORES], s) {
        Some(Step::ByProcessor(k, p)) => by_plan(t, m, k, p),
        Some(Step::ByApic(p)) => by_action(t, m, p),
        None => Err(Refusal::NotAStep),
    }
}

// A step on any tables.
pub fn step(t: &mut [u32], m: &mut [u8], s: &[u32]) -> Result<Answer, Refusal>
    ensures value { result ≡ (operation.step t.old m.old s.now).answer }
    ensures t_after { t.new ≡ (operation.step t.old m.old s.now).tables }
    ensures m_after { m.new ≡ (operation.step t.old m.old s.now).memory }
    ensures result_value { answer_number result ≡ answer_number (operation.step t.old m.old s.now).answer }
{
    if !tables::sound(t, m.len()) {
        return Err(Refusal::Unsound);
    }
    let r = take(t, m, s);
    if r.is_err() {
        count(t, s);
    }
    r
}
