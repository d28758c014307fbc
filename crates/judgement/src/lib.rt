// What is said of a group (specs/Report.antt): the lines of its sides, the picture, the reasons and the verdict.
#![tactic(auto)]

ghost use Rattle.std.specs.Prelude.{◌≡◌, true, ◌++◌, ◌+◌, ◌*◌, ◌≤◌, length};
ghost use Rattle.tables.specs.Views.{cores_of};
ghost use Rattle.reach.specs.Reach.{is_group, members};
ghost use Rattle.refusals.specs.Numbers.{number};
ghost use Rattle.reason_lines.specs.Reasons.{reason_lines};
ghost use Rattle.judgement.specs.Report as report;

use layout::MOST_PAGES;
use reasons::sides::Sides;
use refusals::Refusal;
use separation::sides::is_member;
use tables::machine::Machine;
use text::Text;

fn put_refused_why<const N: usize>(text: &mut Text<N>, refusal: Refusal)
    requires room { length text.old + 40 ≤ N }
    ensures text { text.new ≡ text.old ++ report.refused_why (number refusal) }
    ensures bound { length text.new ≤ length text.old + 40 }
{
    match refusal {
        Refusal::Unsound => text.put(b": the tables are not sound\n"),
        Refusal::Group => text.put(b": a core of the group is not there\n"),
        _ => text.put(b"\n"),
    }
}

#[tactic(auto, unfolding(crate::specs::Report::refused_text))]
fn put_refused<const N: usize>(text: &mut Text<N>, refusal: Refusal)
    requires room { length text.old + 200 ≤ N }
    ensures text { text.new ≡ text.old ++ report.refused_text (number refusal) }
    ensures bound { length text.new ≤ length text.old + 200 }
{
    text.put(b"refused ");
    text.put_number(u64::from(u32::from(refusal)));
    put_refused_why(text, refusal);
}

// The sides and the picture, by the map of each side: at most 5,998 bytes.
fn put_sides<const N: usize>(text: &mut Text<N>, sides: &Sides)
    requires room { length text.old + 5998 ≤ N }
    ensures text { text.new ≡ text.old ++ report.sides_text sides.now.group sides.now.machine.tables.now sides.now.machine.memory.now }
    ensures bound { length text.new ≤ length text.old + 5998 }
{
    let cores = sides.machine.cores();
    picture::lines::put_side(text, b"group: ", sides.group, cores, sides.own);
    picture::lines::put_side(text, b"rest: ", sides.others, cores, sides.other);
    picture::pages::put_picture(text, sides.own, sides.other);
    picture::lines::put_legend(text);
}

// The lines of each reason, of which there are at most six.
fn put_reasons<const N: usize>(text: &mut Text<N>, sides: &Sides)
    requires group { is_group sides.now.group (cores_of sides.now.machine.tables.now) ≡ true }
    requires room { length text.old + 2736 ≤ N }
    ensures text { text.new ≡ text.old ++ reason_lines 6 0 sides.now.group sides.now.machine.tables.now sides.now.machine.memory.now }
    ensures bound { length text.new ≤ length text.old + 2736 }
{
    let mut after: u32 = 0;
    for _i in 0..6usize {
        let r = reasons::judge::first_after(sides, after);
        after = reasons::judge::number(r);
        if after == 0 {
            return;
        }
        reason_lines::put_told(text, after, r);
    }
}

// The cores outside the group that do not run, as a group.
fn stopped(machine: &Machine, group: u32) -> u32
    ensures { members result (cores_of machine.now.tables.now) ≡ report.not_judged group machine.now.tables.now }
{
    let mut r: u32 = 0;
    for k in 0..machine.cores() {
        let still = !is_member(group, k) & !tables::block::runs(machine.block(k));
        r = word::put_bit(r, k, still as u32);
    }
    r
}

// The line of the cores that are not judged, where there are any: at most 45 bytes.
fn put_stopped<const N: usize>(text: &mut Text<N>, machine: &Machine, group: u32)
    requires room { length text.old + 45 ≤ N }
    ensures text { text.new ≡ text.old ++ report.stopped_text (report.not_judged group machine.now.tables.now) }
    ensures bound { length text.new ≤ length text.old + 45 }
{
    let cores = machine.cores();
    let still = stopped(machine, group);
    if picture::lines::count_cores(still, cores) == 0 {
        return;
    }
    text.put(b"not running, so not judged: ");
    picture::lines::put_cores(text, still, cores);
    text.put(b"\n");
}

// The line of the cores that are not judged, and the words of the verdict: at most 55 bytes.
fn put_end<const N: usize>(text: &mut Text<N>, machine: &Machine, group: u32, words: &[u8])
    requires room { length text.old + 55 ≤ N }
    requires words_len { length words.now ≤ 10 }
    ensures text { text.new ≡ text.old ++ report.closing_text group machine.now.tables.now words.now }
    ensures bound { length text.new ≤ length text.old + 55 }
{
    put_stopped(text, machine, group);
    text.put(words);
}

// The report on both sides. It is apart where there is no reason against it.
fn put_all<const N: usize>(text: &mut Text<N>, sides: &Sides)
    requires group { is_group sides.now.group (cores_of sides.now.machine.tables.now) ≡ true }
    requires room { length text.old + 12288 ≤ N }
    ensures text { text.new ≡ text.old ++ report.report_text sides.now.group sides.now.machine.tables.now sides.now.machine.memory.now }
    ensures bound { length text.new ≤ length text.old + 12288 }
{
    let machine = &sides.machine;
    put_sides(text, sides);
    let r = reasons::judge::first_after(sides, 0);
    if r.is_none() {
        put_end(text, machine, sides.group, b"apart\n");
        return;
    }
    put_reasons(text, sides);
    put_end(text, machine, sides.group, b"not apart\n");
}

// The same with maps of its own.
fn put_judged<const N: usize>(text: &mut Text<N>, machine: &Machine, group: u32)
    requires group { is_group group (cores_of machine.now.tables.now) ≡ true }
    requires room { length text.old + 12288 ≤ N }
    ensures text { text.new ≡ text.old ++ report.report_text group machine.now.tables.now machine.now.memory.now }
    ensures bound { length text.new ≤ length text.old + 12288 }
{
    let n = machine.pages() as usize;
    let mut own = [0u8; MOST_PAGES];
    let mut other = [0u8; MOST_PAGES];
    let sides = Sides::new(machine, group, &mut own[..n], &mut other[..n]);
    put_all(text, &sides);
}

// The verdict, and what leads to it; or a refusal.
pub fn put_report<const N: usize>(text: &mut Text<N>, t: &[u32], m: &[u8], group: u32)
    requires room { length text.old + 12288 ≤ N }
    ensures text { text.new ≡ text.old ++ report.report_text group t.now m.now }
    ensures bound { length text.new ≤ length text.old + 12288 }
{
    match Machine::new(t, m) {
        Err(refusal) => put_refused(text, refusal),
        Ok(machine) => {
            if !reach::is_group(group, machine.cores()) {
                put_refused(text, Refusal::Group);
                return;
            }
            put_judged(text, &machine, group);
        }
    }
}
