// The penalty of a choice of patterns: what is short, what is over, and who is unplaced.
#![tactic(auto)]

pub mod columns;
pub mod duty;
pub mod total;
pub mod weights;

ghost use Rattle.std.specs.Prelude.{◌≡◌, ℕ, ◌<◌, ◌≤◌};
ghost use Rattle.fields.specs.Sizes.{nurse_places};
ghost use Rattle.fields.specs.Fields.{days};
ghost use Rattle.history.specs.Slot.{Slot};
ghost use Rattle.penalty.specs.Penalty.{parts_of, unplaced_in, parts_in};
ghost use Rattle.penalty.specs.CodeCounts.{DayCounts};
ghost use Rattle.penalty.specs.CodeColumns.{AllShow, Shows};

use columns::Columns;
use duty::{Conditions, Duty};
use fields::Body;
use fields::day::Shift;
use history::Search;
pub use total::Penalty;

// One day in either search: by night nights on N days, and day need and lows on available nurses, with day highs ignored; by day the night terms are zero.
pub fn on_day(w: &Body, d: usize, night: u64, day: u64, search: Search) -> Duty
    requires { d < days w.now.numbers.now }
    ensures { DayCounts search w.now.numbers.now d night day result }
{
    let daily = Conditions::of(w, Shift::Day, d);
    let by_day = daily.on_column(weights::weights(w, Shift::Day), day);
    // No closure and no trait with an impl for each search: either would take the same numbers for a few lines, and since the search comes in as a value
    // a `match` would choose the impl.
    match search {
        Search::Nights => {
            let nightly = Conditions::of(w, Shift::Night, d);
            let by_night = nightly.on_column(weights::weights(w, Shift::Night), night);
            Duty {
                short: by_night.short + by_day.short,
                over: by_night.over,
            }
        }
        Search::Days => by_day,
    }
}

// The penalty of a month whose days have these columns, by night and by day. How many are unplaced is a number from the caller: so it is
// asked here, and where it is handed on, that it is no more than the nurses' places.
pub fn over_days<F: Fn(usize) -> (u64, u64)>(
    w: &Body,
    columns: F,
    unplaced: u64,
    search: Search,
) -> Penalty
    requires few { unplaced ≤ nurse_places }
    requires callable { (d : ℕ) → d < days w.now.numbers.now → F.pre columns d }
    ensures { (slots : ℕ → Slot) → AllShow (F.post columns) search w.now.numbers.now slots → unplaced ≡ unplaced_in w.now.numbers.now slots →
        parts_of result ≡ parts_in search w.now.numbers.now slots }
{
    let mut sum = Duty::default();
    for d in 0..w.days() {
        let (night, day) = columns(d);
        sum += on_day(w, d, night, day, search);
    }
    Penalty {
        short: sum.short,
        over: sum.over,
        unplaced,
    }
}

// The penalty of columns, by night or by day.
pub fn parts(w: &Body, cols: Columns, unplaced: u64, search: Search) -> Penalty
    requires { unplaced ≤ nurse_places }
    ensures { (slots : ℕ → Slot) → Shows search w.now.numbers.now slots cols → unplaced ≡ unplaced_in w.now.numbers.now slots →
        parts_of result ≡ parts_in search w.now.numbers.now slots }
{
    over_days(w, |d| (cols.night[d], cols.day[d]), unplaced, search)
}
