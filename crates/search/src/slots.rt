// What a record's slots count on: everyone's columns and the penalty.
ghost use Rattle.std.specs.Prelude.{◌≡◌, false, not, ℕ, suc, ◌+◌, ◌≤◌, eqb, get_or};
ghost use Rattle.fields.specs.Sizes.{nurse_places};
ghost use Rattle.numbers.specs.Sum.{count_to, Is};
ghost use Rattle.numbers.specs.Digits.{number_of};
ghost use Rattle.fields.specs.Fields.{nurses, mark_on};
ghost use Rattle.history.specs.Slot.{Slot};
ghost use Rattle.search.specs.Stored.{slot_at};
ghost use Rattle.penalty.specs.CodeColumns.{Shown, FreeUnder};
ghost use Rattle.trials.specs.Trials.{CountsIn};
ghost use Rattle.search.specs.CodeSeek.{cost_of, pattern_for, Agree};

use crate::Record;
use fields::nurse::Nurse;
use fields::{Body, WardNurse};
use history::Search;
use numbers::pattern;
use penalty::columns::{Columns, Sets};

// The days with this mark, the file's number, as a set.
fn marked_days(b: &Nurse, mark: u64) -> u32
    ensures { result ≡ number_of (λ d. eqb (mark_on b.now.numbers.now (suc d)) mark) b.now.days }
{
    numbers::set_of(b.days, |d| b.mark(d) == mark) as u32
}

// The pattern that she counts with: hers, or while she is unplaced her marks 3 by night and her marks 2 by day, with no pair.
fn pattern_in(her: &WardNurse, rec: Record, search: Search) -> u64
    ensures { result ≡ pattern_for search her.now.ward.numbers.now her.now.index (slot_at rec her.now.index) }
{
    if let Some(p) = rec.slot(her.index) {
        return p;
    }
    // By `match`: a number for each search, and one call.
    let mark = match search {
        Search::Nights => 3,
        Search::Days => 2,
    };
    pattern::of(marked_days(&her.numbers(), mark), 0)
}

// The days on which she is available under the pattern p.
fn free_days(her: &WardNurse, p: u64) -> u32
    ensures { FreeUnder her.now.ward.numbers.now her.now.index p result }
{
    let hers = nursemasks::masks::masks_of(her);
    let off = rows::pairs::pair_days(&her.ward, pattern::pair_of(p) as usize);
    hers.available_days(pattern::days_of(p)) & !off
}

// The sets of days in which she counts under the pattern p.
pub(crate) fn sets_of(her: &WardNurse, p: u64, search: Search) -> Sets
    ensures { CountsIn search her.now.ward.numbers.now her.now.index p result.nights result.available }
{
    let days = pattern::days_of(p);
    // By `match`: each arm is a few lines over the same arguments, which closures handed in would carry all. With a trait and an impl for
    // each search, every function from `advance` down to here would be generic, with its contract, for these few lines.
    match search {
        Search::Nights => {
            let available = free_days(her, p);
            Sets {
                nights: days,
                available,
            }
        }
        Search::Days => Sets {
            nights: 0,
            available: days,
        },
    }
}

// The columns of the nurses before her, with her own.
fn with_row(cols: Columns, her: &WardNurse, rec: Record, search: Search) -> Columns
    ensures { (slots : ℕ → Slot) → slots her.now.index ≡ slot_at rec her.now.index → Shown search her.now.ward.numbers.now slots her.now.index cols → Shown search her.now.ward.numbers.now slots (her.now.index + 1) result }
{
    let p = pattern_in(her, rec, search);
    let sets = sets_of(her, p, search);
    cols.with_nurse(her.ward.days(), her.index, sets)
}

// Everyone's columns. Ward and search come apart, here and below: no fact joins them, and half of these functions take a nurse of
// the ward in place of the ward.
pub(crate) fn columns(w: &Body, rec: Record, search: Search) -> Columns
    ensures { (slots : ℕ → Slot) → Agree w.now.numbers.now rec slots → Shown search w.now.numbers.now slots (nurses w.now.numbers.now) result }
{
    let mut cols = Columns::empty();
    for i in 0..w.nurses() {
        cols = with_row(cols, &w.nurse_at(i), rec, search);
    }
    cols
}

// How many nurses of the ward are unplaced.
pub(crate) fn unplaced(rec: Record, w: &Body) -> u64
    ensures { Is result (count_to (nurses w.now.numbers.now) (λ i. not (get_or rec.placed i false))) nurse_places }
{
    rec.placed[..w.nurses()]
        .iter()
        .filter(|placed| !**placed)
        .count() as u64
}

// The penalty of a record, by its columns.
pub(crate) fn penalty_by(w: &Body, rec: Record, cols: Columns, search: Search) -> u64
    ensures { (slots : ℕ → Slot) → Agree w.now.numbers.now rec slots → Shown search w.now.numbers.now slots (nurses w.now.numbers.now) cols → result ≡ cost_of search w.now.numbers.now slots }
{
    let unplaced = unplaced(rec, w);
    let parts = penalty::parts(w, cols, unplaced, search);
    parts.total()
}

// The penalty of a record.
pub fn penalty_of(w: &Body, rec: Record, search: Search) -> u64
    ensures { (slots : ℕ → Slot) → Agree w.now.numbers.now rec slots → result ≡ cost_of search w.now.numbers.now slots }
{
    let cols = columns(w, rec, search);
    penalty_by(w, rec, cols, search)
}
