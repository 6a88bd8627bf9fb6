// Prints how long the common list is, its first and last pattern and that nothing is written past it, in document 01's case of 30 days and for the
// ward on standard input; and how many patterns of it each nurse of the ward has by the fast test, and of how many the plain one says otherwise.
#![tactic(auto)]

ghost use Rattle.std.specs.Prelude.{◌≤◌};
ghost use Rattle.fields.specs.Sizes.{day_places};
ghost use Rattle.fields.specs.Fields.{nurses};

use fields::rules::Rules;
use fields::{Body, WardNurse};
use nightlists::onward::Walk;
use std::io;
use std::io::{Read, Write};

// A longer file is read up to here.
const INPUT_MOST: u64 = 4096;

// Writes the common list where the buffer holds it, and answers how many numbers it has; where the buffer is too short, one
// more than its places, and no Option, since that number is printed.
fn list(k: &Walk, n: u64, buf: &mut [u32]) -> usize
    requires { n ≤ day_places }
{
    let cap = buf.len();
    let found = k.count(n, cap + 1);
    if found <= cap {
        return k.fill(n, buf);
    }
    found
}

// Prints what `list` answers, the list's first and last number, and how many places still hold a 7, which no pattern is: it has
// starts on days 1 and 2.
fn show_list<W: Write>(out: &mut W, k: &Walk, n: u64, buf: &mut [u32]) -> io::Result<usize>
    requires { n ≤ day_places }
{
    let found = list(k, n, buf);
    let first = buf.first().copied().unwrap_or(0);
    let last = buf.iter().copied().filter(|x| *x != 7).last().unwrap_or(0);
    let kept = buf.iter().filter(|x| **x == 7).count();
    writeln!(out, " {found} {first} {last} {kept}")?;
    Ok(found)
}

// Days 30, V 5, L 1, g1 3.
fn thirty() -> Walk {
    Walk::of(Rules {
        most: 5,
        longest: 1,
        g1: 3,
        g2: 1,
        g3: 1,
    })
}

fn show_thirty<W: Write>(out: &mut W) -> io::Result<()> {
    let mut room = [7u32; 6960];
    write!(out, "thirty days")?;
    show_list(out, &thirty(), 30, &mut room)?;
    let mut short = [7u32; 6957];
    write!(out, "a place too few")?;
    show_list(out, &thirty(), 30, &mut short)?;
    Ok(())
}

// How many of the list are hers by the fast test, and of how many the plain one says otherwise.
#[derive(Clone, Copy, Default)]
pub struct Own {
    pub count: u64,
    pub differ: u64,
}

fn compare(her: &WardNurse, list: &[u32]) -> Own {
    let m = nursemasks::masks::masks_of(her);
    let mut own = Own::default();
    for p in list {
        let fast = m.passes(*p);
        let differs = fast != nights::is_hers(her, *p);
        own.count = own.count.wrapping_add(u64::from(fast));
        own.differ = own.differ.wrapping_add(u64::from(differs));
    }
    own
}

fn show_nurse<W: Write>(out: &mut W, her: &WardNurse, list: &[u32]) -> io::Result<()> {
    let own = compare(her, list);
    write!(out, "nurse {} {} {}", her.index + 1, own.count, own.differ)?;
    if nightlists::some::has_pattern(her) {
        write!(out, " some")?;
    }
    writeln!(out)
}

fn show_nurses<W: Write>(out: &mut W, w: &Body, list: &[u32]) -> io::Result<()> {
    for i in 0..w.nurses() {
        show_nurse(out, &w.nurse_at(i), list)?;
    }
    Ok(())
}

#[tactic(auto, using(fields::proofs::RuleLaws::small_rules))]
fn show_ward<W: Write>(out: &mut W, w: &Body) -> io::Result<()> {
    let mut buf = [7u32; 16384];
    write!(out, "ward")?;
    let n = w.days() as u64;
    let found = show_list(out, &Walk::of(w.rules()), n, &mut buf)?;
    if found <= 16384 {
        show_nurses(out, w, &buf[..found])?;
    }
    Ok(())
}

fn show_file<W: Write>(out: &mut W, file: &[u8]) -> io::Result<()> {
    match ward::read(file) {
        Ok(ward) => show_ward(out, &Body::of(&ward.numbers[..ward.count])),
        Err(refusal) => write!(out, " {}", refusal.question()),
    }
}

fn show<W: Write>(out: &mut W, file: &[u8]) -> io::Result<()> {
    show_thirty(out)?;
    show_file(out, file)
}

fn main(rt: HostRuntime) -> io::Result<()> {
    let mut input = Vec::new(rt.alloc());
    rt.reader().take(INPUT_MOST).read_to_end(&mut input)?;
    show(&mut io::writer(&rt), &input)
}
