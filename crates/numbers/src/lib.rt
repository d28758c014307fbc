// What an operation answers, as the one number that C and Rust get, and the word beside it where there is one. The
// definitions stand beside each operation's; that of a step has its function there too (steps::answer_number).
#![tactic(auto)]

ghost use Rattle.std.specs.Prelude.{◌≡◌, ◌<◌, ◌^◌};
ghost use Rattle.machine.specs.Run.{stop_number};
ghost use Rattle.reach.specs.Reach.{reached_number, beyond_of};
ghost use Rattle.separation.specs.Apart.{verdict_number};
ghost use Rattle.translate.specs.Translate.{translated_number, reads_of};
ghost use Rattle.disassemble.specs.Disassembly.{disassembled_number};
ghost use Rattle.numbers.specs.Numbers.{made_number, IsResultNumber};

use machine::run::Stop;
use reach::Extent;
use refusals::Refusal;

// The number of an answer: what `told` gives of a success, and 100 and the number of a refusal.
pub fn result_number<T, F: FnOnce(T) -> u32>(answer: Result<T, Refusal>, told: F) -> u32
    requires { F.IsAlwaysCallable told }
    ensures { IsResultNumber (F.post told) answer result }
{
    match answer {
        Ok(value) => told(value),
        Err(refusal) => 100 + u32::from(refusal),
    }
}

// make
pub fn made_number(a: Result<(), Refusal>) -> u32
    ensures { result ≡ made_number a }
{
    result_number(a, |_made| 0)
}

// run: why it stopped
pub fn stop_number(stop: Stop) -> u32
    ensures { result ≡ stop_number stop }
{
    match stop {
        Stop::End => 0,
        Stop::Limit => 1,
        Stop::Refused(refusal) => 100 + u32::from(refusal),
    }
}

// reach
pub fn reached_number(a: Result<Extent, Refusal>) -> u32
    ensures { result ≡ reached_number a }
{
    result_number(a, |_extent| 0)
}

// reach: whether a page beyond memory is reached, the word beside it
pub fn beyond_number(a: Result<Extent, Refusal>) -> u32
    ensures { result ≡ beyond_of a }
{
    u32::from(a == Ok(Extent::Beyond))
}

// apart
pub fn verdict_number(a: Result<bool, Refusal>) -> u32
    ensures { result ≡ verdict_number a }
{
    result_number(a, u32::from)
}

// translate
pub fn translated_number(a: Result<u32, Refusal>) -> u32
    ensures { result ≡ translated_number a }
{
    result_number(a, |_reads| 0)
}

// translate: how many table entries were read, the word beside it
pub fn reads_number(a: Result<u32, Refusal>) -> u32
    ensures { result ≡ reads_of a }
{
    a.unwrap_or(0)
}

// disassemble: the length of the text, or a refusal
pub fn disassembled_number(a: Result<u32, Refusal>) -> u32
    ensures { result ≡ disassembled_number a }
{
    result_number(a, |length| length)
}
