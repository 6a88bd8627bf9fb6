// The search, for any phase: its record, what a step makes of it, and which exchange a step takes.
#![tactic(auto)]

mod choice;
mod offers;
pub mod slots;

ghost use Rattle.std.specs.Prelude.{◌≡◌, true, false, not, ◌&&◌, [], ℕ, List, ◌+◌, ◌*◌, ◌<◌, ◌≤◌, leb, get_or, IfSome, None};
ghost use Rattle.fields.specs.Sizes.{nurse_places, tabu_most};
ghost use Rattle.std.specs.Bool.{then_some};
ghost use Rattle.numbers.specs.Sum.{one_if};
ghost use Rattle.fields.specs.Fields.{nurses, tabu};
ghost use Rattle.nights.specs.Nights.{common_of};
ghost use Rattle.history.specs.declared.Search.TheVariants.{Nights};
ghost use Rattle.history.specs.Slot.{Slot, exchanged};
ghost use Rattle.history.specs.Phase.{Phase, stops};
ghost use Rattle.penalty.specs.Penalty.{total, unplaced_in, parts_in};
ghost use Rattle.penalty.specs.CodeColumns.{Shows};
ghost use Rattle.search.specs.CodeSeek.{search_of, ends_of, Lists, Seeks, SeeksBy, tried_by, ServedSound, SoughtSound, answer_of};
ghost use Rattle.search.specs.Stored.{all_zero, held, unused_zero, Sized, sound_stored, reply_stored};
ghost use Rattle.search.specs.CodeSteps.{removal_by, exchanged_in, stepped_of};
ghost use Rattle.search.specs.CodeChoice.{ColumnsOf, SeeksIn, SoundIn, ExchangeNeeds, StepNeeds};

use best::Exchange;
use choice::Work;
use fields::Body;
use fields::sizes::{ENDS, NURSES, REMOVALS};
use history::Search;
use margins::Margins;
use offers::Offers;
use penalty::columns::Columns;
use removals::Removal;
use tables::Table;

// Everyone's pattern or none, the last TL removals, the last one first, and all steps so far.
// The removals in use are as many as the steps, but not above TL.
// The flags stand beside the patterns, and are no Options, since a record of any content comes in over C: also a pattern without its flag.
#[derive(Clone, Copy)]
pub struct Record {
    pub patterns: [u64; NURSES],
    pub placed: [bool; NURSES],
    pub removals: [Removal; REMOVALS],
    pub steps: u32,
}

// Which search it is; by day with what it needs besides: an advance where each nurse's stretch of the lists ends, the questions the
// nights. No Option: each case says which search it is.
#[derive(Clone, Copy)]
pub enum Searched<D> {
    Nights,
    Days(D),
}

// The record after an exchange, and its penalty.
#[derive(Clone, Copy)]
pub struct Stepped {
    pub after: Record,
    pub penalty: u64,
}

// How an advance ended: at penalty zero, with the steps asked, or with no exchange left.
#[derive(Clone, Copy, Debug, PartialEq, Eq)]
pub enum Ending {
    Zero,
    Asked,
    None,
}

// The record after an advance, its penalty, and the steps that the advance made.
#[derive(Clone, Copy)]
pub struct Advanced {
    pub after: Record,
    pub penalty: u64,
    pub steps: u32,
    pub ending: Ending,
}

impl<D> Searched<D> {
    fn search(&self) -> Search
        ensures { result ≡ search_of self.now }
    {
        match self {
            Searched::Nights => Search::Nights,
            Searched::Days(_) => Search::Days,
        }
    }
}

impl Record {
    pub fn fresh() -> Record
        ensures { result ≡ all_zero }
    {
        Record {
            patterns: [0; NURSES],
            placed: [false; NURSES],
            removals: [Removal::default(); REMOVALS],
            steps: 0,
        }
    }

    // How many removals are held: as many as steps so far, but not above TL.
    pub fn held(&self, tl: usize) -> usize
        ensures { result ≡ held tl self.now }
    {
        (self.steps as usize).min(tl)
    }

    // The pattern of the nurse at this place, where her flag says that she has one.
    pub fn slot(&self, nurse: usize) -> Option<u64>
        requires { nurse < nurse_places }
        ensures { result ≡ then_some (get_or self.now.placed nurse false) (get_or self.now.patterns nurse 0) }
    {
        self.placed[nurse].then_some(self.patterns[nurse])
    }

    // What a step of the nurse takes away.
    fn removal_by(self, nurse: usize) -> Removal
        requires { nurse < nurse_places }
        ensures { result ≡ removal_by self nurse }
    {
        let held = self.slot(nurse);
        Removal {
            nurse: nurse as u32 + 1,
            has: held.is_some(),
            pattern: held.unwrap_or(0),
        }
    }

    // The record after a step that gives the nurse the pattern.
    pub(crate) fn exchanged(self, tl: usize, nurse: usize, pattern: u64) -> Record
        requires { (tl ≤ tabu_most) × (nurse < nurse_places) × (self.steps < 1000000) }
        ensures { result ≡ exchanged_in tl self nurse pattern }
    {
        let removal = self.removal_by(nurse);
        let pushed = removals::push(self.removals, tl, self.steps as usize, removal);
        let mut after = self;
        after.patterns[nurse] = pattern;
        after.placed[nurse] = true;
        after.removals = pushed;
        after.steps += 1;
        after
    }

    // Whether every field that m nurses and the removals held leave unused is 0. That its arrays have their lengths is told with it.
    pub fn unused_zero(self, m: usize, tl: usize) -> bool
        ensures zero { result ≡ unused_zero m tl self }
        ensures sized { Sized self }
    {
        removals::unused::slots_zero(self.placed, self.patterns, m)
            && removals::unused::removals_zero(self.removals, self.held(tl))
    }
}

// Whether everyone's lists, each of at most n patterns, surely fit into the smaller array. Either array serves every ward.
fn fits_small(w: &Body, n: usize) -> bool
    ensures { result ≡ (leb n 1024 && leb (nurses w.now.numbers.now * n) 2048) }
{
    n <= 1024 && w.nurses() * n <= 2048
}

// Whether penalty 0 ends an advance here, unless it is to go on past zero.
fn stops(past: bool, penalty: u64) -> bool
    ensures { result ≡ stops past penalty }
{
    !past && penalty == 0
}

impl Record {
    // The exchange made: the penalty after it comes from the columns before it, with the nurse's days altered; then the columns are altered. So many
    // nurses are unplaced before it.
    fn exchange(
        self,
        offers: &Offers,
        cols: &mut Columns,
        chosen: Exchange,
        unplaced: u64,
    ) -> Stepped
        requires { ExchangeNeeds offers.now.ward.now.numbers.now chosen.nurse unplaced self }
        ensures made { result.after ≡ exchanged_in (tabu offers.now.ward.now.numbers.now) self chosen.nurse chosen.pattern }
        ensures costs { (slots : ℕ → Slot) → Shows offers.now.search offers.now.ward.now.numbers.now slots cols.old →
            unplaced ≡ unplaced_in offers.now.ward.now.numbers.now (exchanged slots chosen.nurse chosen.pattern) + one_if (not (get_or self.placed chosen.nurse false)) →
            result.penalty ≡ total (parts_in offers.now.search offers.now.ward.now.numbers.now (exchanged slots chosen.nurse chosen.pattern)) }
        ensures shows { ColumnsOf offers.now.search offers.now.ward.now.numbers.now self cols.old → ColumnsOf offers.now.search offers.now.ward.now.numbers.now result.after cols.new }
    {
        let w = offers.ward;
        let search = offers.search;
        let her = w.nurse_at(chosen.nurse);
        let sets = slots::sets_of(&her, chosen.pattern, search);
        let others = choice::others_than(self.placed[chosen.nurse], unplaced);
        let parts = trials::trial(&her, cols, sets, others, search);
        let penalty = parts.total();
        *cols = cols.with_nurse(w.days(), chosen.nurse, sets);
        let after = self.exchanged(w.tabu(), chosen.nurse, chosen.pattern);
        Stepped { after, penalty }
    }

    // One step, if there is an exchange to make: the columns are those of the record, and then those of the record after it. With none they
    // stay. No struct joins the two here and in `exchange`: the columns are changed in place, and the record comes by value. `Choice`, which reads alone, lends both.
    fn step(self, offers: &Offers, cols: &mut Columns, work: &mut Work) -> Option<Stepped>
        requires { StepNeeds offers.now cols.old self }
        ensures takes { (P : Phase) → SeeksIn offers.now P → result ≡ stepped_of P self }
        ensures shows { IfSome result (λ x. ColumnsOf offers.now.search offers.now.ward.now.numbers.now x.after cols.new) }
        ensures stays { result ≡ None → cols.new ≡ cols.old }
    {
        let unplaced = slots::unplaced(self, offers.ward);
        let best = offers.best_of(cols, work, &self, unplaced)?;
        Some(self.exchange(offers, cols, best, unplaced))
    }

    // Up to k steps, past zero or not; columns and penalty are carried through them.
    fn advance_over(self, offers: &Offers, k: u32, past: bool) -> Advanced
        requires few { self.steps + k ≤ 1000000 }
        requires sought_sound { SoundIn offers.now self }
        ensures { (P : Phase) → SeeksIn offers.now P → sound_stored P self ≡ true → reply_stored P past k self ≡ (answer_of P result, result.after) }
    {
        let mut cols = slots::columns(offers.ward, self, offers.search);
        let mut penalty = slots::penalty_by(offers.ward, self, cols, offers.search);
        let mut work = Work {
            margins: Margins::new(),
            table: Table::new(),
        };
        let mut after = self;
        let mut made: u32 = 0;
        // How many steps it makes goes by what each finds, so a range is no plainer.
        let ending = 'steps: loop {
            if stops(past, penalty) {
                break Ending::Zero;
            }
            if made == k {
                break Ending::Asked;
            }
            let Some(next) = after.step(offers, &mut cols, &mut work) else {
                break Ending::None;
            };
            after = next.after;
            penalty = next.penalty;
            made += 1;
        };
        Advanced {
            after,
            penalty,
            steps: made,
            ending,
        }
    }

    // An advance of no steps. Apart, since by night `advance_kept` would first test the common list for every nurse.
    fn advance_none(self, w: &Body, search: Search, past: bool) -> Advanced
        ensures { (P : Phase) (tried : ℕ → List ℕ) → SeeksBy search w.now.numbers.now tried P → sound_stored P self ≡ true → reply_stored P past 0 self ≡ (answer_of P result, result.after) }
    {
        let penalty = slots::penalty_of(w, self, search);
        let made = 0;
        Advanced {
            after: self,
            penalty,
            steps: made,
            ending: if stops(past, penalty) {
                Ending::Zero
            } else {
                Ending::Asked
            },
        }
    }

    // By night, with everyone's own list in so many places. Not inlined, so that the array takes no stack by day.
    #[inline(never)]
    fn advance_kept<const PLACES: usize>(
        self,
        w: &Body,
        lists: &[u32],
        k: u32,
        past: bool,
    ) -> Advanced
        requires few { PLACES ≤ 20480 }
        requires common { (lists.now ≡ common_of w.now.numbers.now) × (self.steps + k ≤ 1000000) }
        requires sought_sound { SoughtSound Nights w.now.numbers.now (tried_by Nights w.now.numbers.now lists.now []) self }
        ensures { (P : Phase) → SeeksBy Nights w.now.numbers.now (tried_by Nights w.now.numbers.now lists.now []) P → sound_stored P self ≡ true → reply_stored P past k self ≡ (answer_of P result, result.after) }
    {
        let mut own = [0u32; PLACES];
        let places = ownlists::own_lists(w, lists, &mut own);
        let plan = ownlists::lent(&own, &places);
        // `&*w`, not `w`, here and below: the offers borrow the ward for a shorter time.
        let offers = Offers {
            ward: &*w,
            search: Search::Nights,
            lists,
            plan: &plan,
        };
        self.advance_over(&offers, k, past)
    }

    // Up to k steps, past zero or not. Both are parameters of the published calls; a struct of them would be made here only, and
    // `advance_over` alone reads both.
    pub fn advance(
        self,
        w: &Body,
        lists: &[u32],
        searched: Searched<[usize; ENDS]>,
        k: u32,
        past: bool,
    ) -> Advanced
        requires lists { Lists (search_of searched) w.now.numbers.now lists.now (ends_of searched) × (self.steps + k ≤ 1000000) }
        requires served_sound { ServedSound (search_of searched) w.now.numbers.now lists.now (ends_of searched) self }
        ensures { (P : Phase) → Seeks (search_of searched) w.now.numbers.now lists.now (ends_of searched) P → sound_stored P self ≡ true → reply_stored P past k self ≡ (answer_of P result, result.after) }
    {
        if k == 0 {
            return self.advance_none(w, searched.search(), past);
        }
        // By `match`: each arm lends lists of its own making.
        match searched {
            Searched::Nights => {
                if fits_small(w, lists.len()) {
                    self.advance_kept::<2048>(w, lists, k, past)
                } else {
                    self.advance_kept::<20480>(w, lists, k, past)
                }
            }
            Searched::Days(ends) => {
                let offers = Offers {
                    ward: &*w,
                    search: Search::Days,
                    lists,
                    plan: &offers::day_plan(lists, ends),
                };
                self.advance_over(&offers, k, past)
            }
        }
    }
}
