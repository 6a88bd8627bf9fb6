// A nurse's own night patterns: those of the common list that her last days, her marks and her bounds allow.
#![tactic(auto)]

ghost use Rattle.std.specs.Prelude.{◌≡◌, ◌+◌, ◌≤◌, ◌<◌, ◌&&◌, leb, length};
ghost use Rattle.fields.specs.Sizes.{day_places};
ghost use Rattle.fields.specs.CodeRules.{SmallRules};
ghost use Rattle.fields.specs.Fields.{days, block, least_nights_of, most_nights_of};
ghost use Rattle.fields.specs.Rules.{rules_of};
ghost use Rattle.rows.specs.Rows.{marks_allow};
ghost use Rattle.nights.specs.Nights.{allowed, run_with, follow, starts};
ghost use Rattle.nights.specs.Hers.{shifted, last_run, hers, hers_of};
ghost use Rattle.nights.specs.Own.{own_pattern};

use fields::nurse::Nurse;
use fields::rules::Rules;
use fields::{WardNurse, nurse};
use numbers::Set;

// The day of the last start, and how many starts its run has; 0 and 0 for none, and no Option, since `with` makes both cases by one sum.
#[derive(Clone, Copy, Default)]
pub struct Run {
    pub prev: u64,
    pub run: u64,
}

impl Run {
    // The run that a start on day s is in, after this one.
    fn with(self, s: u64) -> Run
        requires { (self.prev ≤ 100) × (self.run ≤ 100) }
        ensures value { (result.prev ≡ s) × (result.run ≡ run_with self.prev self.run s) }
        ensures upper_bound { result.run ≤ self.run + 1 }
    {
        let run = if s == self.prev + 2 { self.run + 1 } else { 1 };
        Run { prev: s, run }
    }

    // Whether a start on day s may follow it. That the rules are small is asked here and in `keeps`, and no field of `Rules` says it: rules of any numbers are
    // public and have a gap.
    fn allows(self, r: Rules, s: u64) -> bool
        requires small_rules { SmallRules r }
        requires bounds { (self.prev ≤ 100) × (self.run ≤ 100) }
        ensures { result ≡ allowed r self.prev self.run s }
    {
        if self.run == 0 {
            return true;
        }
        if s == self.prev + 2 {
            return self.run + 1 <= r.longest;
        }
        let g = r.gap_after(self.run);
        self.prev + 2 + g <= s
    }
}

// The run that the seven days end with, the oldest being day 1.
pub fn last_run(numbers: &[u64]) -> Run
    requires { 7 ≤ length numbers.now }
    ensures prev_value { (result.prev ≡ (last_run numbers.now).0) × (result.run ≡ (last_run numbers.now).1) }
    ensures prev_bound { (result.prev ≤ 7) × (result.run ≤ 7) }
{
    let mut last = Run::default();
    for i in 0..7usize {
        if nurse::duty(numbers, i) == 2 {
            last = last.with(i as u64 + 1);
        }
    }
    last
}

// Whether the starts of p, each `off` days on, follow the run that ends at `from`.
pub fn keeps(r: Rules, from: Run, off: u64, n: usize, p: u32) -> bool
    requires small_rules { SmallRules r }
    requires within { (n ≤ day_places) × (off ≤ 7) × (from.prev ≤ 7) × (from.run ≤ 7) }
    ensures { result ≡ follow r from.prev from.run (shifted off (starts n p)) }
{
    let mut last = from;
    for day in 0..n {
        if p.has(day) {
            let s = day as u64 + 1 + off;
            if !last.allows(r, s) {
                return false;
            }
            last = last.with(s);
        }
    }
    true
}

// Whether her marks allow the row that p makes.
fn marks_allow(table: &[[u8; 4]; 7], b: &Nurse, p: u32) -> bool
    ensures { result ≡ marks_allow table.now b.now.numbers.now b.now.days p }
{
    let states = rows::states(b.numbers, b.days, p);
    (0..b.days).all(|d| rows::mark_allows(table, b.mark(d) as usize, states[d]))
}

// Whether so many starts are within her bounds.
fn in_bounds(b: &Nurse, k: u64) -> bool
    ensures { result ≡ (leb (least_nights_of b.now.numbers.now) k && leb k (most_nights_of b.now.numbers.now)) }
{
    (b.least_nights()..=b.most_nights()).contains(&k)
}

// Whether p is in her list by such a table.
#[tactic(auto, using(fields::proofs::RuleLaws::small_rules, crate::proofs::StartLaws::count_starts, crate::proofs::HersLaws::shifted_zero), unfolding(crate::specs::Hers::hers, crate::specs::Nights::in_common))]
fn is_hers_by(table: &[[u8; 4]; 7], her: &WardNurse, p: u32) -> bool
    ensures { result ≡ hers table.now (rules_of her.now.ward.numbers.now) (days her.now.ward.numbers.now) (block her.now.ward.numbers.now her.now.index) p }
{
    let b = her.numbers();
    let r = her.ward.rules();
    let k = p.ones();
    p < numbers::bit(b.days as u64)
        && k <= r.most
        && in_bounds(&b, k)
        && keeps(r, Run::default(), 0, b.days, p)
        && keeps(r, last_run(b.numbers), 7, b.days, p)
        && marks_allow(table, &b, p)
}

// Whether p is in her list.
pub fn is_hers(her: &WardNurse, p: u32) -> bool
    ensures { result ≡ hers_of her.now.ward.numbers.now her.now.index p }
{
    let table = rows::allow_table();
    is_hers_by(&table, her, p)
}

// Whether c is one of her own patterns.
#[tactic(auto, unfolding(crate::specs::Own::own_pattern))]
pub fn is_own(her: &WardNurse, c: u64) -> bool
    ensures { result ≡ own_pattern her.now.ward.numbers.now her.now.index c }
{
    let p = numbers::pattern::days_of(c);
    is_hers(her, p) && rows::pairs::pair_fits(her, p, numbers::pattern::pair_of(c) as usize)
}
