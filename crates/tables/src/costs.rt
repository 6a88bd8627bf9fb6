// A nurse's days one by one: a trial with days on which she is not available, and what no trial comes below.
ghost use Rattle.std.specs.Prelude.{ℕ, ◌≤◌, ◌<◌};
ghost use Rattle.numbers.specs.Sum.{Is};
ghost use Rattle.tables.specs.CodeTables.{Small, trial_of, trial_without, day_without};

use numbers::Set;

pub const COST_PLACES: usize = 108;
// Where those of an open day begin, and those of neither.
pub const OPEN: usize = 36;

pub const NONE: usize = 72;

// A nurse's costs in a month of so many days: 36 days each with her at night, open, and neither; 0 past the month. One array: contracts
// speak of her costs as one list, which rows of 36 would be flattened to, and three arrays by name would be parallel ones.
#[derive(Clone, Copy)]
pub struct Costs {
    pub costs: [u32; COST_PLACES],
    pub days: usize,
    pub ghost small: { Small costs days },
}

impl Costs {
    // A day where she is not available on the days of `off`.
    #[tactic(auto, unfolding(crate::specs::CodeTables::day_without))]
    fn day_without(&self, x: u64, off: u32, d: usize) -> u32
        requires { d < 31 }
        ensures { Is result (day_without self.now.costs x off d) 371200 }
    {
        if x.has(d + 2) {
            self.costs[d]
        } else if off.has(d) || x.has(d + 1) || x.has(d) {
            self.costs[NONE + d]
        } else {
            self.costs[OPEN + d]
        }
    }

    // What the ward's days cost after the exchange, where she is not available on the days of `off`.
    pub fn without(&self, x: u64, off: u32) -> u32
        ensures { Is result (trial_without self.now.costs self.now.days x off) 13363200 }
    {
        (0..self.days).map(|d| self.day_without(x, off, d)).sum()
    }

    // The least of each day: no trial costs less.
    pub fn least(&self) -> u32
        ensures trials { (x : ℕ) → result ≤ trial_of self.now.costs self.now.days x }
        ensures without { (x off : ℕ) → result ≤ trial_without self.now.costs self.now.days x off }
    {
        let c = &self.costs;
        (0..self.days)
            .map(|d| c[d].min(c[OPEN + d]).min(c[NONE + d]))
            .sum()
    }
}
