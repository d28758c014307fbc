// What a step decides on sound tables.
ghost use Rattle.std.specs.Prelude.{◌≡◌, true, ◌+◌, ◌*◌, ◌≤◌, ◌%◌, length};
ghost use Rattle.layout.specs.Blocks.{block};
ghost use Rattle.records.specs.Contents.{sound_records};
ghost use Rattle.tables.specs.Sound.{sound};
ghost use Rattle.tables.specs.Views.{cores_of};
ghost use Rattle.cores.specs.Core as c;
ghost use Rattle.machine.specs.Decide as x;
ghost use Rattle.machine.specs.inner.Formed.{formed};
ghost use Rattle.steps.specs.declared.Step.TheVariants.{ByProcessor, ByApic};

use super::action::Action;
use apic::active;
use apic::active::Ipi;
use cores::{IoPorts, LentCore, Plan, buffer_step, core_step, tlb_steps};
use ioapic::ports;
use records::Walk;
use refusals::Refusal;
use steps::{ApicStep, ProcessorStep};

fn core(t: &[u32], m: &[u8], k: u32, fetch: Walk, access: Walk) -> Result<Plan, Refusal>
    requires k_in_bounds { 32 + 256 * k + 256 ≤ length t.now }
    requires k_value { sound_records (length m.now) (block t.now k) ≡ true }
    requires m_len { length m.now % 4 ≡ 0 }
    ensures { result ≡ c.core_plan (c.view_of (block t.now k)) (c.io_ports_of t.now) m.now fetch access }
{
    let select = t[layout::IOREGSEL];
    let window = t[layout::IOWIN];
    let core = LentCore {
        block: layout::block(t, k),
        io: IoPorts { select, window },
        memory: m,
    };
    core_step::core_step(&core, fetch, access)
}

// What core k sends, an interrupt or an EOI message; where there is nothing to send, the step is refused.

fn to_send(k: u32, ipi: Option<Ipi>) -> Result<Action, Refusal>
    ensures { result ≡ x.to_send k ipi }
{
    let ipi = ipi.ok_or(Refusal::NoNextState)?;
    Ok(Action::SendIpi(k, ipi))
}

fn to_end(k: u32, vector: Option<u8>) -> Result<Action, Refusal>
    ensures { result ≡ x.to_end k vector }
{
    let vector = vector.ok_or(Refusal::NoNextState)?;
    Ok(Action::SendEoi(k, vector))
}

fn if_allowed(allowed: bool, a: Action) -> Result<Action, Refusal>
    ensures { result ≡ x.if_allowed allowed a }
{
    if allowed {
        Ok(a)
    } else {
        Err(Refusal::NoNextState)
    }
}

// The plan of a step of core k, of its TLB or of its store buffer.
pub fn plan(t: &[u32], m: &[u8], k: u32, p: ProcessorStep) -> Result<Plan, Refusal>
    requires m_value { sound t.now (length m.now) ≡ true }
    requires p_value { formed (cores_of t.now) (ByProcessor k p) ≡ true }
    ensures { result ≡ x.by_processor t.now m.now k p }
{
    match p {
        ProcessorStep::Core(fetch, access) => core(t, m, k, fetch, access),
        ProcessorStep::TlbCreate(va) => tlb_steps::create(layout::block(t, k), va),
        ProcessorStep::TlbExtend(w) => tlb_steps::extend(layout::block(t, k), m, w),
        ProcessorStep::TlbAccessed(w) => tlb_steps::accessed(layout::block(t, k), m, w),
        ProcessorStep::StoreBuffer => buffer_step::drain(layout::block(t, k), m.len()),
    }
}

// What a step of a local APIC, or on a line, decides.
pub fn action(t: &[u32], p: ApicStep) -> Result<Action, Refusal>
    requires t_len { length t.now ≡ 32 + 256 * cores_of t.now }
    requires p_value { formed (cores_of t.now) (ByApic p) ≡ true }
    ensures { result ≡ x.by_apic t.now p }
{
    match p {
        ApicStep::SendIpi(k) => to_send(k, active::to_send(layout::block(t, k))),
        ApicStep::SendEoi(k) => to_end(k, active::pending_eoi(layout::block(t, k))),
        ApicStep::InitCore(k) => if_allowed(
            active::may_init(layout::block(t, k)),
            Action::InitCore(k),
        ),
        ApicStep::StartCore(k) => if_allowed(
            active::may_start(layout::block(t, k)),
            Action::StartCore(k),
        ),
        ApicStep::Sample(l) => if_allowed(ports::may_sample(t, l as usize), Action::Sample(l)),
        ApicStep::Deliver(l) => if_allowed(ports::may_deliver(t, l as usize), Action::Deliver(l)),
        ApicStep::SetLine(l, level) => Ok(Action::SetLine(l, level)),
    }
}
