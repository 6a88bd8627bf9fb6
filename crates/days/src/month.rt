// A nurse's month under her nights and her pair, made ready for the day patterns: the duties where she works no day, the days
// that she may work, and the ward's and her own limits.
ghost use Rattle.std.specs.Prelude.{◌≡◌, not, ◌&&◌, ℕ, ◌≤◌, ◌<◌, get_or};
ghost use Rattle.numbers.specs.Digits.{has, number_of};
ghost use Rattle.fields.specs.Fields.{duty};
ghost use Rattle.rows.specs.States.{code};
ghost use Rattle.rows.specs.Rows.{started, available};
ghost use Rattle.days.specs.CodeMonth.{IsSheet, SmallMonth, in_bounds};

use fields::nurse::Nurse;
use fields::sizes::ROW;
use numbers::Set;
use rows::State;

// The days of the month, D, the bounds of her rests, the days that she may work, those marked 2, and the counts of
// rests within her bounds: the last three are sets.
#[derive(Clone, Copy)]
pub struct Month {
    pub days: usize,
    pub longest: usize,
    pub least: u64,
    pub most: u64,
    pub available: u64,
    pub fixed: u64,
    pub within: u64,
}

// The month with its row: the seven days, then each day's duty where she works no day.
#[derive(Clone, Copy)]
pub struct Sheet {
    pub month: Month,
    pub row: [u64; ROW],
    ghost small: { SmallMonth month },
}

// Whether a count of rests is within bounds.
pub(crate) fn in_bounds(least: u64, most: u64, k: u64) -> bool
    ensures { result ≡ in_bounds least most k }
{
    (least..=most).contains(&k)
}

// The counts from least to most.
fn bounds(least: u64, most: u64) -> u64
    ensures { result ≡ number_of (in_bounds least most) 32 }
{
    numbers::set_of(32, |k| in_bounds(least, most, k as u64))
}

// The seven days, with no duty after them.
fn seven_days(b: &Nurse) -> [u64; ROW]
    ensures { (t : ℕ) → t < 7 → get_or result t 0 ≡ duty b.now.numbers.now t }
{
    let mut row = [0u64; ROW];
    row[..7].copy_from_slice(&b.numbers[..7]);
    row
}

// Whether she may work the day of index d: it is available, and none of her pair. The mark is the file's number.
fn may_work(mark: u64, state: State, off: u32, d: usize) -> bool
    requires { d < 32 }
    ensures { result ≡ (available mark (code state) && not (has off d)) }
{
    state.is_available(mark) && !off.has(d)
}

// Her month by her numbers, her night pattern and the days of her pair.
pub(crate) fn sheet_of(b: &Nurse, longest: usize, p: u32, off: u32) -> Sheet
    requires { longest ≤ 6 }
    ensures { IsSheet b.now.numbers.now b.now.days longest p (started off) result.month result.row }
{
    let n = b.days;
    let states = rows::states(b.numbers, b.days, p);
    let mut row = seven_days(b);
    for d in 0..n {
        row[d + 7] = states[d].duty(b.mark(d), false);
    }
    let least = b.least_rests();
    let most = b.most_rests();
    let month = Month {
        days: n,
        longest,
        least,
        most,
        available: numbers::set_of(n, |d| may_work(b.mark(d), states[d], off, d)),
        fixed: numbers::set_of(n, |d| b.mark(d) == 2),
        within: bounds(least, most),
    };
    Sheet { month, row }
}
