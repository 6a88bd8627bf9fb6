// Plans the ward on standard input: 1,000 steps in each phase with 16,384 places. Prints nurse and row, then the night and the
// day steps; or what is left, with the phase, its penalty and its steps; or the question that refused and its place.
#![tactic(auto)]

use fields::Body;
use fields::sizes::{LETTERS, NUMBERS};
use history::Search;
use letters::written::Roster;
use planner::{Advance, Ending, Refused};
use refusals::Refusal;
use search::Record;
use std::io;
use std::io::{Read, Write};

// A ward has fewer bytes, and whatever is asked of a longer file is answered by its beginning.
const INPUT_MOST: u64 = 65536;

// A roster with the days of its month and the steps of both phases; or what is left in a phase. No Result: both are answers, and a refusal is the error.
#[derive(Clone, Copy)]
enum Plan {
    Zero {
        roster: Roster,
        days: usize,
        night_steps: u32,
        day_steps: u32,
    },
    Left {
        phase: Search,
        penalty: u64,
        steps: u32,
    },
}

fn left(phase: Search, x: &Advance) -> Plan {
    Plan::Left {
        phase,
        penalty: x.penalty,
        steps: x.steps,
    }
}

// A phase as this program alone prints it, so no Display of `Search`.
fn number_of(phase: Search) -> u32 {
    match phase {
        Search::Nights => 1,
        Search::Days => 2,
    }
}

// The days of the ward's month. Read again: the calls take the file and tell no field, and a roster's count is its nurses' and days' product.
fn days_of(file: &[u8]) -> Result<usize, Refusal> {
    let mut numbers = [0u64; NUMBERS];
    let count = ward::read_into(file, &mut numbers)?;
    Ok(Body::of(&numbers[..count]).days())
}

// The record that comes back is a fresh one here.
fn refusal_of(x: Refused) -> Refusal {
    x.refusal
}

fn planned(file: &[u8]) -> Result<Plan, Refusal> {
    let mut buffer = [0u32; 16384];
    let nights = planner::advance_nights(Record::fresh(), file, 1000, false, &mut buffer).map_err(
        refusal_of,
    )?;
    if nights.ending != Ending::Zero {
        return Ok(left(Search::Nights, &nights));
    }
    let over = nights.after.patterns;
    let days = planner::advance_days(
        Record::fresh(),
        file,
        &over,
        1000,
        false,
        &mut buffer,
    ).map_err(refusal_of)?;
    if days.ending != Ending::Zero {
        return Ok(left(Search::Days, &days));
    }
    Ok(Plan::Zero {
        roster: days.roster,
        days: days_of(file)?,
        night_steps: nights.steps,
        day_steps: days.steps,
    })
}

fn show_row<W: Write>(out: &mut W, nurse: usize, row: &[u8]) -> io::Result<()> {
    write!(out, "{nurse} ")?;
    out.write_all(row)?;
    out.write_all(b"\n")
}

// The letters in rows of n.
fn show_rows<W: Write>(out: &mut W, letters: &[u8], n: usize) -> io::Result<()> {
    if n > 0 {
        for (i, row) in letters.chunks_exact(n).enumerate() {
            show_row(out, i + 1, row)?;
        }
    }
    Ok(())
}

fn show<W: Write>(out: &mut W, plan: Result<Plan, Refusal>) -> io::Result<()> {
    match plan {
        Err(refusal) => writeln!(out, "no {refusal}"),
        Ok(
            Plan::Left {
                phase,
                penalty,
                steps,
            },
        ) => writeln!(out, "left {} {penalty} {steps}", number_of(phase)),
        Ok(
            Plan::Zero {
                roster,
                days,
                night_steps,
                day_steps,
            },
        ) => {
            let count = roster.count.min(LETTERS);
            show_rows(out, &roster.letters[..count], days)?;
            writeln!(out, "zero {night_steps} {day_steps}")
        }
    }
}

fn main(rt: HostRuntime) -> io::Result<()> {
    let mut input = Vec::new(rt.alloc());
    rt.reader().take(INPUT_MOST).read_to_end(&mut input)?;
    show(&mut io::writer(&rt), planned(&input))
}
