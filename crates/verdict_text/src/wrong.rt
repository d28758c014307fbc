// The one line where the arguments or the input are wrong (specs/Wrong.antt), put into a text: at most 200 bytes.
ghost use Rattle.std.specs.Prelude.{◌≡◌, map, ◌++◌, ◌+◌, ◌≤◌, length};
ghost use Rattle.verdict_text.specs.Wrong as wrong;

use text::Text;

fn shown(byte: u8) -> u8
    ensures { result ≡ wrong.shown byte }
{
    match byte {
        32..=126 => byte,
        _ => b'?',
    }
}

fn put_shown<const N: usize>(text: &mut Text<N>, argument: &[u8])
    requires room { length text.old + length argument.now ≤ N }
    ensures text { text.new ≡ text.old ++ map wrong.shown argument.now }
    ensures bound { length text.new ≤ length text.old + length argument.now }
{
    for byte in argument {
        text.put_byte(shown(*byte));
    }
}

#[tactic(auto, unfolding(crate::specs::Wrong::long_arguments_text))]
pub fn put_long_arguments<const N: usize>(text: &mut Text<N>)
    requires room { length text.old + 200 ≤ N }
    ensures text { text.new ≡ text.old ++ wrong.long_arguments_text }
    ensures bound { length text.new ≤ length text.old + 200 }
{
    text.put(b"the arguments are too long: more than 4096 bytes\n");
}

#[tactic(auto, unfolding(crate::specs::Wrong::no_group_text))]
pub fn put_no_group<const N: usize>(text: &mut Text<N>)
    requires room { length text.old + 200 ≤ N }
    ensures text { text.new ≡ text.old ++ wrong.no_group_text }
    ensures bound { length text.new ≤ length text.old + 200 }
{
    text.put(b"no group: name its cores, as in 'verdict 0 2'\n");
}

#[tactic(auto, unfolding(crate::specs::Wrong::no_core_text))]
pub fn put_no_core<const N: usize>(text: &mut Text<N>, argument: &[u8], long: bool)
    requires room { length text.old + 200 ≤ N }
    requires short { length argument.now ≤ 16 }
    ensures text { text.new ≡ text.old ++ wrong.no_core_text argument.now long }
    ensures bound { length text.new ≤ length text.old + 200 }
{
    text.put(b"'");
    put_shown(text, argument);
    if long {
        text.put(b"..' is no core number: 0 to 3\n");
    } else {
        text.put(b"' is no core number: 0 to 3\n");
    }
}

#[tactic(auto, unfolding(crate::specs::Wrong::cut_head_text))]
pub fn put_cut_head<const N: usize>(text: &mut Text<N>, n: u64)
    requires room { length text.old + 200 ≤ N }
    ensures text { text.new ≡ text.old ++ wrong.cut_head_text n }
    ensures bound { length text.new ≤ length text.old + 200 }
{
    text.put(b"the input is cut at byte ");
    text.put_number(n);
    text.put(b": words 0 and 1 are 8 bytes\n");
}

// This and `put_bad_pages` differ in two words: one function for both would take them, and a bound on them.
#[tactic(auto, unfolding(crate::specs::Wrong::bad_cores_text))]
pub fn put_bad_cores<const N: usize>(text: &mut Text<N>, n: u32)
    requires room { length text.old + 200 ≤ N }
    ensures text { text.new ≡ text.old ++ wrong.bad_cores_text n }
    ensures bound { length text.new ≤ length text.old + 200 }
{
    text.put(b"word 0 says ");
    text.put_number(n as u64);
    text.put(b" cores, not 1 to 4\n");
}

#[tactic(auto, unfolding(crate::specs::Wrong::bad_pages_text))]
pub fn put_bad_pages<const N: usize>(text: &mut Text<N>, n: u32)
    requires room { length text.old + 200 ≤ N }
    ensures text { text.new ≡ text.old ++ wrong.bad_pages_text n }
    ensures bound { length text.new ≤ length text.old + 200 }
{
    text.put(b"word 1 says ");
    text.put_number(n as u64);
    text.put(b" pages, not 1 to 4096\n");
}

// The size that a machine has: at most 120 bytes.
fn put_machine<const N: usize>(text: &mut Text<N>, cores: u32, pages: u32, bytes: u64)
    requires room { length text.old + 120 ≤ N }
    ensures text { text.new ≡ text.old ++ wrong.machine_text cores pages bytes }
    ensures bound { length text.new ≤ length text.old + 120 }
{
    text.put(b": a machine (cores: ");
    text.put_number(cores as u64);
    text.put(b", pages: ");
    text.put_number(pages as u64);
    text.put(b") has ");
    text.put_number(bytes);
    text.put(b" bytes\n");
}

#[tactic(auto, unfolding(crate::specs::Wrong::cut_text))]
pub fn put_cut<const N: usize>(text: &mut Text<N>, n: u64, cores: u32, pages: u32, bytes: u64)
    requires room { length text.old + 200 ≤ N }
    ensures text { text.new ≡ text.old ++ wrong.cut_text n cores pages bytes }
    ensures bound { length text.new ≤ length text.old + 200 }
{
    text.put(b"the input is cut at byte ");
    text.put_number(n);
    put_machine(text, cores, pages, bytes);
}

#[tactic(auto, unfolding(crate::specs::Wrong::long_text))]
pub fn put_long<const N: usize>(text: &mut Text<N>, cores: u32, pages: u32, bytes: u64)
    requires room { length text.old + 200 ≤ N }
    ensures text { text.new ≡ text.old ++ wrong.long_text cores pages bytes }
    ensures bound { length text.new ≤ length text.old + 200 }
{
    text.put(b"the input is too long");
    put_machine(text, cores, pages, bytes);
}
