// The day advance on a ward that was read.
#![tactic(auto)]

ghost use Rattle.std.specs.Prelude.{◌≡◌, Bool, List, ℕ, ◌≤◌, IfOk, length};
ghost use Rattle.fields.specs.Sizes.{nurse_places};
ghost use Rattle.numbers.specs.Range.{up_from};
ghost use Rattle.refusals.specs.Refusals.{refusal_in};
ghost use Rattle.fields.specs.Fields.{nurses};
ghost use Rattle.daylists.specs.Lists.{up_to, day_lists};
ghost use Rattle.daylists.specs.CodeLists.{AllFit};
ghost use Rattle.history.specs.Record.{lacking};
ghost use Rattle.search.specs.Stored.{refusal_stored, advance_stored};
ghost use Rattle.search.specs.CodeSeek.{answer_of};
ghost use Rattle.phases.specs.Phases.{day_phase, night_of, lists_fit};
ghost use Rattle.phases.specs.CodeQuestions.{EndsOf, UnplacedZero};
ghost use Rattle.outcomes.specs.Outcomes.{letters_of, advance_of, roster_of, left_by, call_of};

use fields::Body;
use fields::sizes::{ENDS, NURSES};
use letters::written::Roster;
use outcomes::{Advance, Refused};
use phases::questions::AskedPhase;
use phases::{opening, questions};
use refusals::Refusal;
use refusals::question::Question;
use search::{Advanced, Record, Searched};

// The roster that an advance gives out: at penalty zero that of the nights and its days, else none.
fn roster_given(w: &Body, nights: &[u64; NURSES], x: Advanced) -> Roster
    requires { UnplacedZero w.now.numbers.now x.after }
    ensures { result ≡ roster_of (letters_of (answer_of (day_phase w.now.numbers.now (night_of nights.now)) x)) }
{
    if x.penalty == 0 {
        let worked = x.after.patterns;
        return letters::written::roster_of(w, *nights, worked);
    }
    Roster::default()
}

// Question 10, by where the lists of m nurses end.
fn days_lacking(ends: [usize; ENDS], m: usize) -> Result<(), Refusal>
    requires { m ≤ nurse_places }
    ensures { (lists : ℕ → List ℕ) → EndsOf lists m ends → refusal_in result ≡ lacking lists (up_from 0 m) }
{
    questions::patterns_asked(m, |i| ends[i] < ends[i + 1])
}

// Question 9: where the lists of all nurses begin and end.
fn lists_asked(w: &Body, nights: &[u64; NURSES], places: usize) -> Result<[usize; ENDS], Refusal>
    ensures asked { refusal_in result ≡ lists_fit (day_lists w.now.numbers.now nights.now) (nurses w.now.numbers.now) places }
    ensures ends { IfOk result (AllFit (day_lists w.now.numbers.now nights.now) (nurses w.now.numbers.now) places) }
{
    daylists::lists::lists_count(w, nights, places).map_err(|over| Question::Lists.at(
        over.nurse + 1,
    ))
}

// Where the lists of all nurses begin and end, or the first of questions 7 to 11 that is a no.
// This and `advance_on` have the shape of the night's: they share what they call, and the questions, lists and roster between are unlike.
fn first_no(
    rec: Record,
    w: &Body,
    nights: &[u64; NURSES],
    k: u32,
    places: usize,
) -> Result<[usize; ENDS], Refusal>
    ensures asked { (past_zero : Bool) → refusal_in result ≡ refusal_stored (day_phase w.now.numbers.now (night_of nights.now)) (call_of k past_zero places) rec }
    ensures ends { IfOk result (AllFit (day_lists w.now.numbers.now nights.now) (nurses w.now.numbers.now) places) }
{
    questions::steps_asked(rec.steps, k)?;
    opening::nights_asked(w, nights)?;
    let ends = lists_asked(w, nights, places)?;
    days_lacking(ends, w.nurses())?;
    let asked = AskedPhase {
        ward: w,
        which: Searched::Days(nights),
    };
    asked.record_asked(rec)?;
    Ok(ends)
}

// The day advance, every question answered before the first store. A ward and its nights are two parameters here and below, as in the published call:
// no fact joins them, since question 8 is asked of any nights.
pub fn advance_on(
    rec: Record,
    w: &Body,
    nights: &[u64; NURSES],
    k: u32,
    past: bool,
    buffer: &mut [u32],
) -> Result<Advance, Refused>
    ensures says { result ≡ advance_of (advance_stored (day_phase w.now.numbers.now (night_of nights.now)) (call_of k past (length buffer.old)) rec) }
    ensures leaves { buffer.new ≡ left_by (advance_stored (day_phase w.now.numbers.now (night_of nights.now)) (call_of k past (length buffer.old)) rec).0 (up_to (day_lists w.now.numbers.now nights.now) (nurses w.now.numbers.now)) buffer.old }
{
    let asked = first_no(rec, w, nights, k, buffer.len());
    let ends = outcomes::handed_back(asked, &rec)?;
    let len = daylists::lists::lists_fill(w, nights, buffer);
    let x = rec.advance(w, &buffer[..len], Searched::Days(ends), k, past);
    let roster = roster_given(w, nights, x);
    Ok(outcomes::finished(x, roster))
}
