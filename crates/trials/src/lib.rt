// A trial exchange: its penalty straight from the counts in force, with one nurse's days altered.
#![tactic(auto)]

ghost use Rattle.std.specs.Prelude.{◌≡◌, ℕ, ◌≤◌};
ghost use Rattle.fields.specs.Sizes.{nurse_places};
ghost use Rattle.history.specs.Slot.{Slot, exchanged};
ghost use Rattle.penalty.specs.Penalty.{parts_of, unplaced_in, parts_in};
ghost use Rattle.penalty.specs.CodeColumns.{Shows};
ghost use Rattle.trials.specs.Trials.{CountsIn};

use fields::WardNurse;
use history::Search;
use numbers::Set;
use penalty::Penalty;
use penalty::columns::{Columns, Sets};

// The penalty after the nurse takes the pattern with which she counts in these sets, so many nurses being unplaced then. The columns of all others
// are read as they are, and none is copied. The unplaced are a number from the caller, as for `penalty::over_days`.
pub fn trial(her: &WardNurse, cols: &Columns, sets: Sets, unplaced: u64, search: Search) -> Penalty
    requires { unplaced ≤ nurse_places }
    ensures afresh { (slots : ℕ → Slot) (p : ℕ) → Shows search her.now.ward.numbers.now slots cols.now → CountsIn search her.now.ward.numbers.now her.now.index p sets.nights sets.available →
        unplaced ≡ unplaced_in her.now.ward.numbers.now (exchanged slots her.now.index p) → parts_of result ≡ parts_in search her.now.ward.numbers.now (exchanged slots her.now.index p) }
{
    let columns = |d: usize| {
        let at_night = numbers::put_bit(cols.night[d], her.index, sets.nights.has(d));
        let by_day = numbers::put_bit(cols.day[d], her.index, sets.available.has(d));
        (at_night, by_day)
    };
    penalty::over_days(&her.ward, columns, unplaced, search)
}
