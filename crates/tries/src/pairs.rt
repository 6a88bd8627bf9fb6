// A night pattern of hers with each pair that fits it.
ghost use Rattle.std.specs.Prelude.{◌≡◌, true, ◌&&◌, List, map, ℕ, ◌+◌, ◌*◌, ◌^◌, ◌≤◌, ◌<◌};
ghost use Rattle.fields.specs.Sizes.{pair_most};
ghost use Rattle.fields.specs.Fields.{block, pair_count};
ghost use Rattle.numbers.specs.Patterns.{pattern, unpaired};
ghost use Rattle.rows.specs.Pairs.{pair_numbers};
ghost use Rattle.nights.specs.Hers.{hers_of};
ghost use Rattle.nights.specs.Own.{own_pattern};
ghost use Rattle.nursemasks.specs.CodePairs.{PairsOf, BusyDays};
ghost use Rattle.trials.specs.CodeTrials.{before_of, start_set, NightTrials};
ghost use Rattle.best.specs.CodeBest.{over_list};
ghost use Rattle.tries.specs.CodeTries.{allowed_by, PatternNeeds};

use crate::Trials;
use best::Exchange;
use numbers::pattern;
use nursemasks::pairs;
use nursemasks::pairs::Pairs;

// `x < 2 ^ 34` in three functions, and no type for such a set of starts, the month's and those of the two days before it:
// `over_nights` alone makes it, in one place.

// The N and n days of the row that the set of starts makes.
fn busy_days(x: u64) -> u32
    requires { x < 2 ^ 34 }
    ensures { (b : List ℕ) (p : ℕ) → x ≡ start_set (before_of b) p → BusyDays b p result }
{
    ((x / 4 | x / 2) % 4294967296) as u32
}

impl Trials<'_> {
    // The best of what is held and of the night pattern p with each of the pairs.
    fn over_pairs(&self, pairs: &Pairs, x: u64, p: u32, held: Option<Exchange>) -> Option<Exchange>
        requires { (pairs.now.count ≤ pair_most) × (x < 2 ^ 34) }
        ensures { let tried = self.now.tried.now in (w : List ℕ) (cost : ℕ → ℕ) → PatternNeeds w self.now.costs.now.days tried.nurse.index x p → PairsOf w tried.nurse.index pairs.now → 1 ≤ pair_count w →
            NightTrials w (before_of (block w tried.nurse.index)) self.now.costs.now.costs cost →
            result ≡ over_list (λ y. own_pattern w tried.nurse.index y && allowed_by tried.barred.now y) (λ y. cost y + 10000000 * tried.others) tried.nurse.index held (map (pattern p) (pair_numbers w)) }
    {
        let busy = busy_days(x);
        let mut best = held;
        for number in 1..=pairs.count {
            let off = pairs.days[number];
            if pairs::fits(off, busy) {
                let cost = self.tried.in_all(self.costs.without(x, off));
                best = self.consider(best, pattern::of(p, number as u32), cost);
            }
        }
        best
    }

    // The same in every ward: with no pair where there are none. `cost` is what p costs with no pair.
    // A function of its own, so that the loops over lists, which seldom come here, stay small.
    pub(crate) fn over_pattern(
        &self,
        x: u64,
        p: u32,
        cost: u64,
        held: Option<Exchange>,
    ) -> Option<Exchange>
        requires { x < 2 ^ 34 }
        ensures { let tried = self.now.tried.now in (price : ℕ → ℕ) → x ≡ start_set (before_of (block tried.nurse.ward.numbers.now tried.nurse.index)) p → hers_of tried.nurse.ward.numbers.now tried.nurse.index p ≡ true →
            NightTrials tried.nurse.ward.numbers.now (before_of (block tried.nurse.ward.numbers.now tried.nurse.index)) self.now.costs.now.costs price → cost ≡ price (unpaired p) + 10000000 * tried.others →
            result ≡ over_list (λ y. own_pattern tried.nurse.ward.numbers.now tried.nurse.index y && allowed_by tried.barred.now y) (λ y. price y + 10000000 * tried.others) tried.nurse.index held (map (pattern p) (pair_numbers tried.nurse.ward.numbers.now)) }
    {
        let her = &self.tried.nurse;
        if her.ward.pair_count() == 0 {
            return self.consider(held, pattern::of(p, 0), cost);
        }
        let pairs = pairs::pairs_of(her);
        self.over_pairs(&pairs, x, p, held)
    }
}
