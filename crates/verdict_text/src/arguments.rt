// The arguments in bytes, each of which ends in a zero byte (specs/Arguments.antt).
ghost use Rattle.std.specs.Prelude.{◌≡◌, ◌+◌, ◌≤◌, ◌<◌, length, take, drop, IfSome, IfOk, IfErr};
ghost use Rattle.verdict_text.specs.Arguments.{arguments_in, named_core, Cores, NoCore, asked_from};
ghost use Rattle.verdict_text.specs.inner.First.{first, core_of};

// The core that the argument at a place names, if it names one.
pub fn core_at(a: &[u8], at: usize) -> Option<u32>
    requires { at < length a.now }
    ensures core { result ≡ core_of (named_core (first (drop at a.now))) }
    ensures few { IfSome result (λ k. k < 4) }
{
    let byte = a[at];
    if byte < b'0' {
        return None;
    }
    if b'3' < byte {
        return None;
    }
    let k = word::wide(byte - b'0');
    let next = at + 1;
    if next < a.len() {
        if a[next] != 0 {
            return None;
        }
        return Some(k);
    }
    Some(k)
}

// How long the argument at a place is.
pub fn length_at(a: &[u8], at: usize) -> usize
    requires { at ≤ length a.now }
    ensures { (at + result ≤ length a.now) × (take result (drop at a.now) ≡ first (drop at a.now)) }
{
    for end in at..a.len() {
        if a[end] == 0 {
            return end - at;
        }
    }
    a.len() - at
}

// The group that the arguments name; or the place of the first that names no core. The next argument begins two bytes
// on only where this one is a digit, so its place is not known before.
pub fn ask(a: &[u8]) -> Result<u32, usize>
    requires { length a.now ≤ 4096 }
    ensures cores { IfOk result (λ group. asked_from 0 (arguments_in a.now) ≡ Cores group) }
    ensures place { IfErr result (λ at. at ≤ length a.now) }
    ensures no_core { IfErr result (λ at. asked_from 0 (arguments_in a.now) ≡ NoCore (first (drop at a.now))) }
{
    let mut group: u32 = 0;
    let mut at: usize = 0;
    while at < a.len() {
        let Some(k) = core_at(a, at) else {
            return Err(at);
        };
        group = word::put_bit(group, k, 1);
        at += 2;
    }
    Ok(group)
}
