// The ward's pairs of days off for one nurse, as sets of days, so that a pair is tried by one mask.
ghost use Rattle.std.specs.Prelude.{◌≡◌, List, ℕ, ◌≤◌, ◌<◌};
ghost use Rattle.numbers.specs.Range.{any_of};
ghost use Rattle.fields.specs.Sizes.{pair_most};
ghost use Rattle.fields.specs.Fields.{Accepted, nurses, pair_count, block};
ghost use Rattle.rows.specs.Pairs.{pair_numbers, pair_fits};
ghost use Rattle.nursemasks.specs.CodePairs.{PairDays, PairsOf, BusyDays};

use fields::WardNurse;
use fields::sizes::PAIRS;

// How many there are, and the days of each, from 1: none where her marks rule the pair out. An array, since there is no heap.
#[derive(Clone, Copy)]
pub struct Pairs {
    pub count: usize,
    pub days: [u32; PAIRS],
}

// The days of pair k, or none where her marks rule it out.
fn days_of(her: &WardNurse, k: usize) -> u32
    requires { (1 ≤ k) × (k ≤ pair_count her.now.ward.numbers.now) }
    ensures { PairDays her.now.ward.numbers.now her.now.index k result }
{
    let b = her.numbers();
    let second = her.ward.pair_day(k) as usize;
    if rows::pairs::is_rest_mark(b.mark(second - 1)) {
        if rows::pairs::is_rest_mark(b.mark(second)) {
            return rows::pairs::pair_days(&her.ward, k);
        }
    }
    0
}

// Her pairs.
pub fn pairs_of(her: &WardNurse) -> Pairs
    ensures { PairsOf her.now.ward.numbers.now her.now.index result }
{
    let count = her.ward.pair_count();
    let mut days = [0u32; PAIRS];
    for k in 1..=count {
        days[k] = days_of(her, k);
    }
    Pairs { count, days }
}

// Whether a pair of these days fits a row with these N and n days.
pub fn fits(days: u32, busy: u32) -> bool
    ensures { (w : List ℕ) (i p k : ℕ) → Accepted w → 1 ≤ k → k ≤ pair_count w → BusyDays (block w i) p busy → PairDays w i k days → result ≡ pair_fits w i p k }
{
    days != 0 && days & busy == 0
}

// Whether any pair fits it; in a ward without pairs there is nothing to fit.
pub fn any_fits(x: Pairs, busy: u32) -> bool
    requires { x.count ≤ pair_most }
    ensures { (w : List ℕ) (i p : ℕ) → Accepted w → PairsOf w i x → BusyDays (block w i) p busy → result ≡ any_of (pair_fits w i p) (pair_numbers w) }
{
    x.count == 0 || x.days[1..=x.count].iter().any(|days| fits(*days, busy))
}
