// The best exchange of one nurse.
ghost use Rattle.std.specs.Prelude.{◌≡◌, Bool, ℕ, ◌+◌, ◌*◌};
ghost use Rattle.fields.specs.Fields.{days};
ghost use Rattle.history.specs.Slot.{Slot, exchanged};
ghost use Rattle.penalty.specs.Penalty.{rest, parts_in};
ghost use Rattle.penalty.specs.CodeColumns.{Shows};
ghost use Rattle.tables.specs.CodeTables.{Blank};
ghost use Rattle.trials.specs.CodeTrials.{CostTrials};
ghost use Rattle.best.specs.CodeBest.{over_list};
ghost use Rattle.tries.specs.CodeTries.{allowed_by, Bars, offered, ListNeeds, NurseNeeds, tried_in};

use crate::Trials;
use crate::lists::{Offered, Tried};
use best::Exchange;
use history::Search;
use margins::Margins;
use penalty::columns::Columns;
use tables::Table;

// What a step counts by: the columns in force, and the margins made from them.
#[derive(Clone, Copy)]
pub struct InForce<'a> {
    pub search: Search,
    pub cols: &'a Columns,
    pub margins: &'a Margins,
}

impl<'a> Offered<'a> {
    fn patterns(self) -> &'a [u32]
        ensures { result.now ≡ offered self.entry }
    {
        match self {
            Offered::Own(list) => list,
            Offered::Common(list) => list,
        }
    }
}

impl Trials<'_> {
    // The best of what is held and of her list.
    // By `match`: each arm is a line or two over the same arguments, which closures handed in would carry all.
    fn over_list(&self, search: Search, held: Option<Exchange>) -> Option<Exchange>
        requires { ListNeeds search self.now.tried.now self.now.costs.now.costs self.now.table.now }
        ensures { let tried = self.now.tried.now in (cost : ℕ → ℕ) → CostTrials search tried.nurse.ward.numbers.now tried.before self.now.costs.now.costs cost →
            result ≡ over_list (allowed_by tried.barred.now) (λ x. cost x + 10000000 * tried.others) tried.nurse.index held (tried_in search tried.nurse.ward.numbers.now tried.nurse.index (offered tried.list)) }
    {
        match (search, self.tried.list) {
            (Search::Days, list) => self.over_days(list.patterns(), held),
            (Search::Nights, Offered::Own(own)) => self.over_nights(own, |_| true, held),
            (Search::Nights, Offered::Common(all)) => {
                let hers = nursemasks::masks::masks_of(&self.tried.nurse);
                self.over_nights(all, |p| hers.passes(p), held)
            }
        }
    }
}

impl InForce<'_> {
    // The best of what is held and of what a nurse tries. No trial of hers costs less than the least of each of her days: where that does not go before
    // what is held, neither her table is made nor her list looked at.
    pub fn over_nurse(&self, t: &mut Table, x: &Tried, held: Option<Exchange>) -> Option<Exchange>
        requires { NurseNeeds self.now x.now }
        ensures tried { (slots : ℕ → Slot) (may : ℕ → Bool) → Shows self.now.search x.now.nurse.ward.numbers.now slots self.now.cols.now → Bars may x.now.barred.now →
            result ≡ over_list may (λ p. rest (parts_in self.now.search x.now.nurse.ward.numbers.now (exchanged slots x.now.nurse.index p)) + 10000000 * x.now.others) x.now.nurse.index held (tried_in self.now.search x.now.nurse.ward.numbers.now x.now.nurse.index (offered x.now.list)) }
        ensures blank { let n = days x.now.nurse.ward.numbers.now in Blank t.old n → Blank t.new n }
    {
        // No method of `InForce`, which would say this contract again for one call.
        let costs = margins::costs::nurse_costs(
            &x.nurse,
            self.cols,
            self.margins,
            x.workable,
            self.search,
        );
        let least = x.in_all(costs.least());
        if !best::improves(held, least) {
            return held;
        }
        t.fill(&costs);
        let trials = Trials {
            tried: x,
            costs: &costs,
            table: t,
        };
        trials.over_list(self.search, held)
    }
}
