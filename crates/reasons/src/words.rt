// An answer in words, nine for each way (specs/Why.antt).
ghost use Rattle.std.specs.Prelude.{◌≡◌, length};
ghost use Rattle.reasons.specs.Why as why;

use super::Reason;
use ways::{Root, Way};

fn root_number(r: Root) -> u32
    ensures { result ≡ why.root_number r }
{
    match r {
        Root::AtOrigin => 0,
        Root::AtWalk(_) => 1,
        Root::AtStore(_) => 2,
    }
}

fn record_number(r: Root) -> u32
    ensures { result ≡ why.record_number r }
{
    match r {
        Root::AtOrigin => 0,
        Root::AtWalk(n) => n,
        Root::AtStore(n) => n,
    }
}

#[tactic(auto, unfolding(crate::specs::Why::way_words))]
fn way_words(way: Way) -> [u32; 9]
    ensures { result ≡ why.way_words way }
{
    [
        way.core,
        way.names.page,
        way.names.level,
        u32::from(way.names.write),
        root_number(way.root),
        record_number(way.root),
        way.entries,
        way.first,
        way.second,
    ]
}

#[tactic(auto, unfolding(crate::specs::Why::core_words))]
fn core_words(k: u32) -> [u32; 9]
    ensures { result ≡ why.core_words k }
{
    [k, 0, 0, 0, 0, 0, 0, 0, 0]
}

// The words of an answer, but for its second way.
#[tactic(auto, unfolding(crate::specs::Why::first_words))]
pub fn first_words(a: Option<Reason>) -> [u32; 9]
    ensures { result ≡ why.first_words a }
{
    match a {
        None => core_words(0),
        Some(Reason::NotUser(k)) => core_words(k),
        Some(Reason::BeyondMemory(_, way)) => way_words(way),
        Some(Reason::OwnTable(_, way)) => way_words(way),
        Some(Reason::Touches(way, _)) => way_words(way),
    }
}

// The words of the second way of an answer, or zeros where it has none.
#[tactic(auto, unfolding(crate::specs::Why::second_words))]
pub fn second_words(a: Option<Reason>) -> [u32; 9]
    ensures { result ≡ why.second_words a }
{
    match a {
        Some(Reason::Touches(_, way)) => way_words(way),
        _ => core_words(0),
    }
}

// Writes an answer with both of its ways.
pub(crate) fn put_both(words: &mut [u32], a: Option<Reason>)
    requires { length words.old ≡ 18 }
    ensures { words.new ≡ why.why_words a }
{
    words[..9].copy_from_slice(&first_words(a));
    words[9..].copy_from_slice(&second_words(a));
}
