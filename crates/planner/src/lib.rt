// The published calls.
#![tactic(auto)]

ghost use Rattle.std.specs.Prelude.{◌≡◌, length};
ghost use Rattle.ward.specs.Answers.{reading_of, read_ward, counted, check_ward, writing_of, left_of};
ghost use Rattle.planner.specs.Answers.{check_letters, check_says};
ghost use Rattle.planner.specs.Advances.{advance_nights, advance_days};
ghost use Rattle.outcomes.specs.Outcomes.{advance_of, call_of};
ghost use Rattle.planner.specs.Left.{night_left, day_left};
ghost use Rattle.refusals.specs.Refusals.{answer_by};
ghost use Rattle.keeping.specs.Storage.{keep_no, kept_in, returned_of};

use fields::Body;
use fields::sizes::{NUMBERS, NURSES};
pub use outcomes::{Advance, Refused, Verdict};
use refusals::Refusal;
use refusals::question::Question;
pub use search::Ending;
use search::Record;
use ward::Ward;

// The ward of a file, or the first of questions 1 to 5 that it fails.
pub fn read(file: &[u8]) -> Result<Ward, Refusal>
    ensures { result ≡ reading_of (read_ward file.now) }
{
    ward::read(file)
}

// The counted numbers as bytes from the buffer's start, and how many, or the first of questions 1, 3, 4, 5 and 6 that they fail.
pub fn write(ward: Ward, buffer: &mut [u8]) -> Result<usize, Refusal>
    ensures says { result ≡ writing_of (length buffer.old) (check_ward (counted ward)) }
    ensures leaves { buffer.new ≡ left_of buffer.old (check_ward (counted ward)) }
{
    ward::write(ward, buffer)
}

// Question 12, then the rules, over an accepted ward.
fn check_letters(w: &Body, roster: &[u8]) -> Result<Verdict, Refusal>
    ensures { result ≡ check_letters w.now.numbers.now roster.now }
{
    if let Some(place) = letters::misplaced_at(roster, w.nurses() * w.days()) {
        return Err(Question::Letters.at(place));
    }
    if rostercheck::roster_holds(w, roster) {
        return Ok(Verdict::Passed);
    }
    Ok(Verdict::Broken)
}

// Here and in the advances the ward is opened, and by no function that they share: a body handed on by `?` has no proof, and a closure not called says nothing of its buffer.
// Whether a roster keeps the rules of a ward, or the first of questions 1 to 5 and 12 that is a no.
pub fn check(file: &[u8], roster: &[u8]) -> Result<Verdict, Refusal>
    ensures { result ≡ check_says file.now roster.now }
{
    let mut numbers = [0u64; NUMBERS];
    let count = ward::read_into(file, &mut numbers)?;
    check_letters(&Body::of(&numbers[..count]), roster)
}

// Advances a night search by up to k steps, past zero or not, or says the first of questions 1 to 5, 7, 9, 10 and 11 that is a no.
// The buffer then has the common list from its start; a refused call leaves it as it was.
pub fn advance_nights(
    rec: Record,
    file: &[u8],
    k: u32,
    past: bool,
    buffer: &mut [u32],
) -> Result<Advance, Refused>
    ensures says { result ≡ advance_of (advance_nights file.now (call_of k past (length buffer.old)) rec) }
    ensures leaves { buffer.new ≡ night_left file.now rec k past buffer.old }
{
    let mut numbers = [0u64; NUMBERS];
    let asked = ward::read_into(file, &mut numbers);
    let count = outcomes::handed_back(asked, &rec)?;
    nightadvance::advance_on(rec, &Body::of(&numbers[..count]), k, past, buffer)
}

// Advances a day search over one choice of nights by up to k steps, past zero or not, or says the first of questions 1 to 5 and 7 to 11 that is a no.
// The buffer then has each nurse's day list in turn; a refused call leaves it as it was. The roster is given out where the
// advance leaves penalty zero.
pub fn advance_days(
    rec: Record,
    file: &[u8],
    nights: &[u64; NURSES],
    k: u32,
    past: bool,
    buffer: &mut [u32],
) -> Result<Advance, Refused>
    ensures says { result ≡ advance_of (advance_days file.now nights.now (call_of k past (length buffer.old)) rec) }
    ensures leaves { buffer.new ≡ day_left file.now nights.now rec k past buffer.old }
{
    let mut numbers = [0u64; NUMBERS];
    let read = ward::read_into(file, &mut numbers);
    let count = outcomes::handed_back(read, &rec)?;
    dayadvance::advance_on(rec, &Body::of(&numbers[..count]), nights, k, past, buffer)
}

// Keeps the record under the number, 1 to 8, in place of what was kept there; or says question 13, and leaves the storage as it was.
pub fn keep(rec: Record, number: u32, storage: &mut [u32]) -> Result<(), Refusal>
    ensures says { result ≡ answer_by (keep_no storage.old number) }
    ensures leaves { storage.new ≡ kept_in storage.old number rec }
{
    keeping::keep(rec, number, storage)
}

// The record that is kept under the number; or question 13, and the record in hand.
pub fn bring_back(rec: Record, number: u32, storage: &[u32]) -> Result<Record, Refused>
    ensures { result ≡ returned_of storage.now number rec }
{
    keeping::bring_back(rec, number, storage)
}
