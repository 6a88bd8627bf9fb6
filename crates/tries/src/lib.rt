// The best exchange over a nurse's list. A trial goes by her table of days, all others as they are.
#![tactic(auto)]

pub mod lists;
pub mod nurse;
mod pairs;

ghost use Rattle.std.specs.Prelude.{◌≡◌, Bool, ◌&&◌, List, map, ℕ, ◌+◌, ◌*◌};
ghost use Rattle.fields.specs.Fields.{days, block};
ghost use Rattle.numbers.specs.Patterns.{unpaired};
ghost use Rattle.nights.specs.Own.{own_pattern, with_pairs};
ghost use Rattle.tables.specs.CodeTables.{table_trial};
ghost use Rattle.trials.specs.CodeTrials.{before_of};
ghost use Rattle.best.specs.CodeBest.{considered, over_list};
ghost use Rattle.tries.specs.CodeTries.{allowed_by, Tells, NightTable, DayTable};

use best::Exchange;
use lists::Tried;
use numbers::pattern;
use tables::Table;
use tables::costs::Costs;

// What one nurse's trials go by: what is tried of her, and her costs with their table.
#[derive(Clone, Copy)]
pub(crate) struct Trials<'a> {
    tried: &'a Tried<'a>,
    costs: &'a Costs,
    table: &'a Table,
    ghost month: { costs.now.days ≡ days tried.now.nurse.ward.numbers.now },
}

impl Trials<'_> {
    // What the trial by a set of starts costs.
    fn cost(&self, starts: u64) -> u64
        ensures { result ≡ table_trial self.now.table.now starts + 10000000 * self.now.tried.now.others }
    {
        self.tried.in_all(self.table.trial(starts))
    }

    // Whether a pattern, its days with its pair, is not barred for her.
    #[inline]
    fn allows(&self, pattern: u64) -> bool
        ensures { result ≡ allowed_by self.now.tried.now.barred.now pattern }
    {
        !self.tried.barred.iter().any(|x| *x == pattern)
    }

    // The best with one exchange more, which counts if the pattern is not barred.
    // `improves` first: few exchanges pass that, and only for those the barred patterns are looked through.
    #[inline]
    pub(crate) fn consider(
        &self,
        best: Option<Exchange>,
        pattern: u64,
        cost: u64,
    ) -> Option<Exchange>
        ensures { result ≡ considered (allowed_by self.now.tried.now.barred.now) (λ q. cost) self.now.tried.now.nurse.index best pattern }
    {
        if !best::improves(best, cost) {
            return best;
        }
        if !self.allows(pattern) {
            return best;
        }
        Some(Exchange {
            nurse: self.tried.nurse.index,
            pattern,
            cost,
        })
    }

    // The best of what is held and of her day list.
    fn over_days(&self, list: &[u32], held: Option<Exchange>) -> Option<Exchange>
        ensures { let tried = self.now.tried.now in (w c : List ℕ) (cost : ℕ → ℕ) → DayTable w c self.now.table.now cost →
            result ≡ over_list (allowed_by tried.barred.now) (λ q. cost q + 10000000 * tried.others) tried.nurse.index held (map unpaired list.now) }
    {
        let mut best = held;
        for &days in list {
            let cost = self.cost((days as u64) * 4);
            best = self.consider(best, pattern::of(days, 0), cost);
        }
        best
    }

    // The same by night, with her pairs, over what `hers` tells to be hers of a list.
    fn over_nights<F: Fn(u32) -> bool>(
        &self,
        list: &[u32],
        hers: F,
        held: Option<Exchange>,
    ) -> Option<Exchange>
        requires before { let tried = self.now.tried.now in tried.before ≡ before_of (block tried.nurse.ward.numbers.now tried.nurse.index) }
        requires callable { F.IsAlwaysCallable hers }
        ensures { let tried = self.now.tried.now in (cost : ℕ → ℕ) → NightTable tried.nurse.ward.numbers.now tried.before self.now.costs.now.costs self.now.table.now cost →
            Tells (F.post hers) tried.nurse.ward.numbers.now tried.nurse.index list.now →
            result ≡ over_list (λ x. own_pattern tried.nurse.ward.numbers.now tried.nurse.index x && allowed_by tried.barred.now x) (λ x. cost x + 10000000 * tried.others) tried.nurse.index held (with_pairs tried.nurse.ward.numbers.now list.now) }
    {
        let mut best = held;
        for &nights in list {
            if hers(nights) {
                let starts = (nights as u64) * 4 + self.tried.before;
                let cost = self.cost(starts);
                // With a pair she is available on fewer days, and by night that never costs less.
                if best::improves(best, cost) {
                    best = self.over_pattern(starts, nights, cost, best);
                }
            }
        }
        best
    }
}
