// A fast test of a pattern of the common list for one nurse: her marks, bounds and last days as sets of days.
// In these sets day d of the month is bit d, and day 0 is bit 0.
ghost use Rattle.std.specs.Prelude.{◌≡◌, true, List, ℕ, suc, ◌^◌, ◌≤◌, ◌<◌, eqb};
ghost use Rattle.numbers.specs.Sum.{one_if};
ghost use Rattle.fields.specs.Sizes.{day_places};
ghost use Rattle.fields.specs.declared.rules.Rules.{Rules};
ghost use Rattle.numbers.specs.Digits.{number_of};
ghost use Rattle.fields.specs.Fields.{nurses, days, block, duty};
ghost use Rattle.fields.specs.Rules.{rules_of};
ghost use Rattle.rows.specs.States.{code};
ghost use Rattle.rows.specs.Rows.{allow_table, marks_allow};
ghost use Rattle.nights.specs.Nights.{in_common};
ghost use Rattle.nights.specs.Hers.{hers_of};
ghost use Rattle.nursemasks.specs.CodePairs.{BusyDays};
ghost use Rattle.nursemasks.specs.CodeMasks.{barred, workable, near, bars_of, masks_by, masks_of, Masked, RowOf, AvailableDays};

use fields::nurse::Nurse;
use fields::{Body, WardNurse};
use nights::Run;
use numbers::Set;
use rows::State;

// The days whose marks bar O, N, n and R.
#[derive(Clone, Copy)]
pub struct Bars {
    pub opened: u64,
    pub night: u64,
    pub second: u64,
    pub rest: u64,
}

#[derive(Clone, Copy)]
pub struct Masks {
    pub bars: Bars,
    // The pattern of the days on which no pattern of hers has a start: its own mark bars N, or the next day's mark bars n.
    pub never: u32,
    // The days whose marks let her work them where they are open.
    pub workable: u64,
    // 1 where day 0 is N, and where it is n.
    pub night: u64,
    pub second: u64,
    // The pattern of the days on which a start may be too near to last month's run, and that run.
    pub near: u32,
    pub last: Run,
    // Her bounds.
    pub least: u64,
    pub most: u64,
}

// A nurse of a ward with her masks.
#[derive(Clone, Copy)]
pub struct NurseMasks<'a> {
    pub nurse: WardNurse<'a>,
    pub masks: Masks,
    pub ghost hers: { masks ≡ masks_of (rules_of nurse.ward.numbers.now) (days nurse.ward.numbers.now) (block nurse.ward.numbers.now nurse.index) },
    pub ghost small: { Masked masks },
}

// The days of the month whose marks bar a state.
fn barred_days(table: &[[u8; 4]; 7], b: &Nurse, state: State) -> u64
    ensures { result ≡ number_of (barred table.now b.now.numbers.now (code state)) (suc b.now.days) }
{
    numbers::set_of(b.days + 1, |day| {
        day > 0 && !rows::mark_allows(table, b.mark(day - 1) as usize, state)
    })
}

// The days of the month whose marks let her work them where they are open.
fn workable_days(b: &Nurse) -> u64
    ensures { result ≡ number_of (workable b.now.numbers.now) (suc b.now.days) }
{
    numbers::set_of(
        b.days + 1,
        |day| day > 0 && State::Open.is_available(b.mark(day - 1)),
    )
}

fn bars_of(table: &[[u8; 4]; 7], b: &Nurse) -> Bars
    ensures { result ≡ bars_of table.now b.now.days b.now.numbers.now }
{
    Bars {
        opened: barred_days(table, b, State::Open),
        night: barred_days(table, b, State::Night),
        second: barred_days(table, b, State::Second),
        rest: barred_days(table, b, State::Rest),
    }
}

// How many of the month's first days are near to last month's run.
#[tactic(auto, using(fields::proofs::RuleLaws::small_rules))]
fn near_days(w: &Body, last: Run) -> u64
    requires { last.prev ≤ 7 }
    ensures is { result ≡ near (rules_of w.now.numbers.now) last.prev last.run }
    ensures few { result ≤ 7 }
{
    if last.run == 0 {
        return 0;
    }
    (last.prev + w.rules().gap_after(last.run)).saturating_sub(5)
}

// Her masks by such a table.
fn masks_by(table: &[[u8; 4]; 7], her: &WardNurse) -> Masks
    ensures is { result ≡ masks_by table.now (rules_of her.now.ward.numbers.now) (days her.now.ward.numbers.now) (block her.now.ward.numbers.now her.now.index) }
    ensures small { Masked result }
{
    let b = her.numbers();
    let bars = bars_of(table, &b);
    let last = nights::last_run(b.numbers);
    let near = numbers::bit(near_days(&her.ward, last)) - 1;
    let never = ((bars.night / 2) | (bars.second / 4)) as u32;
    Masks {
        bars,
        never,
        workable: workable_days(&b),
        night: u64::from(b.last_duty() == 2),
        second: u64::from(b.last_duty() == 3),
        near,
        last,
        least: b.least_nights(),
        most: b.most_nights(),
    }
}

pub fn masks_of<'a>(her: &WardNurse<'a>) -> NurseMasks<'a>
    ensures { result.nurse ≡ her.now }
{
    let table = rows::allow_table();
    let masks = masks_by(&table, her);
    NurseMasks { nurse: *her, masks }
}

// The days of a row, day 0 with them: N, n and R.
#[derive(Clone, Copy)]
pub struct Row {
    pub night: u64,
    pub second: u64,
    pub rest: u64,
}

// Asked of masks alone, which are public and may be those of any numbers: a ghost field would ask `Masked` of whoever makes any, where
// these methods alone ask it. `NurseMasks` has it, and whose they are.
impl Masks {
    // The row of p.
    fn row_of(&self, p: u32) -> Row
        requires { Masked self.now }
        ensures { (b : List ℕ) → self.now.night ≡ one_if (eqb (duty b 6) 2) → self.now.second ≡ one_if (eqb (duty b 6) 3) → RowOf b p result }
    {
        let night = u64::from(p) * 2 + self.night;
        let second = (night * 2 + self.second) & !night;
        let rest = (second * 2) & !night;
        Row {
            night,
            second,
            rest,
        }
    }

    // Whether her marks allow the row of p.
    fn marks_pass(&self, p: u32) -> bool
        requires { Masked self.now }
        ensures { (r : Rules) (n : ℕ) (b : List ℕ) → n ≤ day_places → self.now ≡ masks_of r n b → result ≡ marks_allow allow_table b n p }
    {
        let row = self.row_of(p);
        let bars = self.bars;
        let open = !(row.night | row.second | row.rest);
        (open & bars.opened)
            | (row.night & bars.night)
            | (row.second & bars.second)
            | (row.rest & bars.rest)
            == 0
    }

    // The days on which she is available under p, as a pattern.
    pub fn available_days(&self, p: u32) -> u32
        requires { Masked self.now }
        ensures { (r : Rules) (n : ℕ) (b : List ℕ) → n ≤ day_places → self.now ≡ masks_of r n b → AvailableDays b n p result }
    {
        let row = self.row_of(p);
        let available = self.workable & !(row.night | row.second | row.rest);
        (available / 2) as u32
    }

    // The N and n days under p, as a pattern.
    pub fn busy_days(&self, p: u32) -> u32
        requires { Masked self.now }
        ensures { (r : Rules) (n : ℕ) (b : List ℕ) → n ≤ day_places → self.now ≡ masks_of r n b → BusyDays b p result }
    {
        let row = self.row_of(p);
        // The second day of a night on the 32nd, which no month has, would not fit.
        ((row.night | row.second) / 2 % 4294967296) as u32
    }

    // Whether p of the common list is in the list of the nurse with these masks.
    pub fn passes(&self, w: &Body, p: u32) -> bool
        requires { Masked self.now }
        ensures { (i : ℕ) → self.now ≡ masks_of (rules_of w.now.numbers.now) (days w.now.numbers.now) (block w.now.numbers.now i) → p < 2 ^ days w.now.numbers.now → in_common (rules_of w.now.numbers.now) (days w.now.numbers.now) p ≡ true → result ≡ hers_of w.now.numbers.now i p }
    {
        // Nearly all patterns that are not hers fail here.
        if p & self.never != 0 {
            return false;
        }
        if !self.marks_pass(p) {
            return false;
        }
        let k = p.ones();
        if k < self.least {
            return false;
        }
        if self.most < k {
            return false;
        }
        if p & self.near == 0 {
            return true;
        }
        nights::keeps(w.rules(), self.last, 7, w.days(), p)
    }
}

impl NurseMasks<'_> {
    // The days on which she is available under p, as a pattern.
    #[inline(always)]
    pub fn available_days(&self, p: u32) -> u32
        ensures { AvailableDays (block self.now.nurse.ward.numbers.now self.now.nurse.index) (days self.now.nurse.ward.numbers.now) p result }
    {
        self.masks.available_days(p)
    }

    // The N and n days under p, as a pattern.
    #[inline(always)]
    pub fn busy_days(&self, p: u32) -> u32
        ensures { BusyDays (block self.now.nurse.ward.numbers.now self.now.nurse.index) p result }
    {
        self.masks.busy_days(p)
    }

    // Whether p of the common list is in her list.
    #[inline(always)]
    pub fn passes(&self, p: u32) -> bool
        ensures { p < 2 ^ days self.now.nurse.ward.numbers.now → in_common (rules_of self.now.nurse.ward.numbers.now) (days self.now.nurse.ward.numbers.now) p ≡ true → result ≡ hers_of self.now.nurse.ward.numbers.now self.now.nurse.index p }
    {
        self.masks.passes(&self.nurse.ward, p)
    }
}
