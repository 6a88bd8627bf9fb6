// The night advance on a ward that was read.
#![tactic(auto)]

ghost use Rattle.std.specs.Prelude.{◌≡◌, Bool, length};
ghost use Rattle.refusals.specs.Refusals.{refusal_in};
ghost use Rattle.nights.specs.Nights.{common_of};
ghost use Rattle.search.specs.Stored.{refusal_stored, advance_stored};
ghost use Rattle.phases.specs.Phases.{night_phase, common_fits};
ghost use Rattle.outcomes.specs.Outcomes.{advance_of, left_by, call_of};

use fields::Body;
use letters::written::Roster;
use outcomes::{Advance, Refused};
use phases::questions;
use phases::questions::AskedPhase;
use refusals::Refusal;
use refusals::question::Question;
use search::{Record, Searched};

// Question 9.
fn common_asked(w: &Body, places: usize) -> Result<(), Refusal>
    ensures { refusal_in result ≡ common_fits w.now.numbers.now places }
{
    let need = nightlists::common::count(w, places.saturating_add(1));
    Question::Lists.unless(need <= places, 0)
}

// The first of questions 7, 9, 10 and 11 that is a no.
fn first_no(rec: Record, w: &Body, k: u32, places: usize) -> Result<(), Refusal>
    ensures { (past_zero : Bool) → refusal_in result ≡ refusal_stored (night_phase w.now.numbers.now) (call_of k past_zero places) rec }
{
    questions::steps_asked(rec.steps, k)?;
    common_asked(w, places)?;
    questions::nights_lacking(w)?;
    let asked = AskedPhase {
        ward: w,
        which: Searched::Nights,
    };
    asked.record_asked(rec)
}

// The night advance, every question answered before the first store.
pub fn advance_on(
    rec: Record,
    w: &Body,
    k: u32,
    past: bool,
    buffer: &mut [u32],
) -> Result<Advance, Refused>
    ensures says { result ≡ advance_of (advance_stored (night_phase w.now.numbers.now) (call_of k past (length buffer.old)) rec) }
    ensures leaves { buffer.new ≡ left_by (advance_stored (night_phase w.now.numbers.now) (call_of k past (length buffer.old)) rec).0 (common_of w.now.numbers.now) buffer.old }
{
    let asked = first_no(rec, w, k, buffer.len());
    outcomes::handed_back(asked, &rec)?;
    let len = nightlists::common::fill(w, buffer);
    let x = rec.advance(w, &buffer[..len], Searched::Nights, k, past);
    Ok(outcomes::finished(x, Roster::default()))
}
