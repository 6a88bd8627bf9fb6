// The exchange that a step takes, over everyone's lists.
ghost use Rattle.std.specs.Prelude.{◌≡◌, Bool, false, not, ℕ, ◌+◌, ◌*◌, ◌≤◌, ◌<◌, get_or};
ghost use Rattle.fields.specs.Sizes.{nurse_places};
ghost use Rattle.numbers.specs.Sum.{one_if};
ghost use Rattle.fields.specs.Fields.{nurses};
ghost use Rattle.history.specs.Slot.{Slot, exchanged};
ghost use Rattle.history.specs.Phase.{Phase};
ghost use Rattle.penalty.specs.Penalty.{rest, parts_in};
ghost use Rattle.penalty.specs.CodeColumns.{Shows};
ghost use Rattle.best.specs.CodeBest.{over_list, best_over};
ghost use Rattle.tries.specs.CodeTries.{MarginsIn, margins_prop};
ghost use Rattle.search.specs.Stored.{view_of};
ghost use Rattle.search.specs.CodeChoice.{MayBy, BestNeeds, tried_in_offers, SeeksIn};

use crate::Record;
use crate::offers::Offers;
use best::Exchange;
use margins::Margins;
use penalty::columns::Columns;
use removals::BARS;
use tables::Table;
use tries::lists::Tried;
use tries::nurse::InForce;

// What a step writes into, lent from step to step: the margins, and a nurse's table.
#[derive(Drop)]
pub(crate) struct Work {
    pub(crate) margins: Margins,
    pub(crate) table: Table,
}

// What a step chooses by: what is offered, the columns in force with their margins, and the record, of whom so many are unplaced.
// The record is lent, not copied: it is large, and only read.
#[derive(Clone, Copy)]
struct Choice<'a> {
    offers: &'a Offers<'a>,
    cols: &'a Columns,
    margins: &'a Margins,
    rec: &'a Record,
    unplaced: u64,
    ghost unplaced_most: { unplaced ≤ nurse_places },
    ghost made: { MarginsIn offers.now.search offers.now.ward.now.numbers.now cols.now margins.now } by { margins_prop offers.now.search offers.now.ward.now.numbers.now cols.now margins.now },
}

// The unplaced nurses besides one who is placed or not.
pub(crate) fn others_than(placed: bool, unplaced: u64) -> u64
    ensures is { (a : ℕ) → unplaced ≡ a + one_if (not placed) → result ≡ a }
    ensures most { result ≤ unplaced }
{
    unplaced.saturating_sub(u64::from(!placed))
}

impl Offers<'_> {
    // The exchange that a step takes. The margins are made once from the columns in force; each nurse's table is made from them.
    pub(crate) fn best_of(
        &self,
        cols: &Columns,
        work: &mut Work,
        rec: &Record,
        unplaced: u64,
    ) -> Option<Exchange>
        requires { BestNeeds self.now cols.now unplaced rec.now }
        ensures { (P : Phase) → SeeksIn self.now P → result ≡ best_over P (view_of P rec.now) P.nurses }
    {
        work.margins.update(self.ward, cols, self.search);
        let choice = Choice {
            offers: self,
            cols,
            margins: &work.margins,
            rec,
            unplaced,
        };
        choice.over_everyone(&mut work.table)
    }
}

impl Choice<'_> {
    // The best of what is held and of what nurse i tries.
    fn over_one(&self, table: &mut Table, i: usize, held: Option<Exchange>) -> Option<Exchange>
        requires { i < nurses self.now.offers.now.ward.now.numbers.now }
        ensures { (slots : ℕ → Slot) (may : ℕ → Bool) (others : ℕ) → Shows self.now.offers.now.search self.now.offers.now.ward.now.numbers.now slots self.now.cols.now →
            MayBy may self.now.offers.now.ward.now.numbers.now i self.now.rec.now → self.now.unplaced ≡ others + one_if (not (get_or self.now.rec.now.placed i false)) →
            result ≡ over_list may (λ p. rest (parts_in self.now.offers.now.search self.now.offers.now.ward.now.numbers.now (exchanged slots i p)) + 10000000 * others) i held (tried_in_offers self.now.offers.now i) }
    {
        let offers = self.offers;
        let placed = self.rec.placed[i];
        let current = self.rec.slot(i);
        let count = self.rec.held(offers.ward.tabu());
        let mut bars = [0u64; BARS];
        let barred = removals::bars_of(
            &self.rec.removals[..count],
            i as u32 + 1,
            current,
            &mut bars,
        );
        let tried = Tried {
            nurse: offers.ward.nurse_at(i),
            list: offers.list(i),
            workable: offers.plan[i].workable,
            before: offers.plan[i].before,
            barred: &bars[..barred],
            others: others_than(placed, self.unplaced),
        };
        let counts = InForce {
            search: offers.search,
            cols: self.cols,
            margins: self.margins,
        };
        counts.over_nurse(table, &tried, held)
    }

    // The best of what everyone tries, nurse by nurse.
    fn over_everyone(&self, table: &mut Table) -> Option<Exchange>
        requires { BestNeeds self.now.offers.now self.now.cols.now self.now.unplaced self.now.rec.now }
        ensures { (P : Phase) → SeeksIn self.now.offers.now P → result ≡ best_over P (view_of P self.now.rec.now) P.nurses }
    {
        let mut best = None;
        for i in 0..self.offers.ward.nurses() {
            best = self.over_one(table, i, best);
        }
        best
    }
}
