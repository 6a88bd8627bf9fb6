// The day rule over a nurse's sheet: her choice of days, the windows, and the month's rests.
ghost use Rattle.std.specs.Prelude.{◌≡◌, cond, not, suc, ◌+◌, ◌≤◌, ◌<◌};
ghost use Rattle.fields.specs.Sizes.{day_places, row_places};
ghost use Rattle.numbers.specs.Range.{up_from, all, any_of};
ghost use Rattle.numbers.specs.Digits.{has};
ghost use Rattle.days.specs.Days.{in_run, is_rest, alternating, same, window, windows_hold, rests};
ghost use Rattle.days.specs.CodeMonth.{duty_at, choice_of, rule_of};

use crate::month::{Month, Sheet, in_bounds};
use fields::sizes::ROW;
use numbers::Set;

// A row and the days worked in it are two parameters of each test, with bounds on the place asked about: the public ones take any row, and a struct with such
// facts would ask more.

// The sequence of duties that no row has: rest, day, rest, day, rest.
const FORBIDDEN: [u64; 5] = [0, 1, 0, 1, 0];

// Which duties, as the file's numbers, count in a run of day duty: day and other.
fn in_run(duty: u64) -> bool
    ensures { result ≡ in_run duty }
{
    duty == 1 || duty == 4
}

fn is_rest(duty: u64) -> bool
    ensures { result ≡ is_rest duty }
{
    duty == 0
}

impl Month {
    // Day d is worked only where she is available, and is worked where it is marked 2.
    pub fn may_choose(&self, q: u64, d: usize) -> bool
        requires { d < 32 }
        ensures { result ≡ cond (has q d) (has self.now.available d) (not (has self.now.fixed d)) }
    {
        if q.has(d) {
            self.available.has(d)
        } else {
            !self.fixed.has(d)
        }
    }
}

// Her duty at a place of the row where she works the days of q.
#[tactic(auto, unfolding(crate::specs::CodeMonth::duty_at))]
fn duty_at(row: &[u64; ROW], q: u64, t: usize) -> u64
    requires { t < row_places }
    ensures { result ≡ duty_at row.now q t }
{
    if t >= 7 && q.has(t - 7) { 1 } else { row[t] }
}

// More than `longest` duties running that count in a run, the last at place t.
// Half-open, here and below: std has no lemma of what iterators over `a..=b` yield.
fn long_run(row: &[u64; ROW], q: u64, longest: usize, t: usize) -> bool
    requires t_lt_row_places { t < row_places }
    requires longest_le_t { longest ≤ t }
    ensures { result ≡ all in_run (window (duty_at row.now q) (suc longest) t) }
{
    (t - longest..t + 1).all(|u| in_run(duty_at(row, q, u)))
}

// A rest in the seven days that end at place t. Inlined, as `windows_hold`, which is asked for each place of a table.
#[inline(always)]
fn rested(row: &[u64; ROW], q: u64, t: usize) -> bool
    requires t_lt_row_places { t < row_places }
    requires le_t { 6 ≤ t }
    ensures { result ≡ any_of is_rest (window (duty_at row.now q) 7 t) }
{
    (t - 6..t + 1).any(|u| is_rest(duty_at(row, q, u)))
}

// The forbidden sequence, ending at place t. By the index, which is the place in both.
fn is_forbidden(row: &[u64; ROW], q: u64, t: usize) -> bool
    requires t_lt_row_places { t < row_places }
    requires le_t { 4 ≤ t }
    ensures { result ≡ same alternating (window (duty_at row.now q) 5 t) }
{
    (0..5).all(|j| FORBIDDEN[j] == duty_at(row, q, t - 4 + j))
}

// The windows that end at place t, of a row of any month and any longest run up to 6.
#[inline(always)]
#[tactic(auto, unfolding(crate::specs::Days::windows_hold, crate::specs::Days::free_of))]
pub fn windows_hold(row: &[u64; ROW], q: u64, longest: usize, t: usize) -> bool
    requires t_lt_row_places { t < row_places }
    requires le_t { 6 ≤ t }
    requires longest_bound { longest ≤ 6 }
    ensures { result ≡ windows_hold (duty_at row.now q) longest t }
{
    !long_run(row, q, longest, t) && rested(row, q, t) && !is_forbidden(row, q, t)
}

// The windows that end on the first days of the month, `count` of them.
pub fn all_windows_hold(row: &[u64; ROW], q: u64, longest: usize, count: usize) -> bool
    requires count_le_day_places { count ≤ day_places }
    requires longest_bound { longest ≤ 6 }
    ensures { result ≡ all (windows_hold (duty_at row.now q) longest) (up_from 7 count) }
{
    (7..7 + count).all(|t| windows_hold(row, q, longest, t))
}

// Whether day d is a rest.
pub fn rests_on(row: &[u64; ROW], q: u64, d: usize) -> bool
    requires { d < day_places }
    ensures { result ≡ is_rest (duty_at row.now q (d + 7)) }
{
    is_rest(duty_at(row, q, d + 7))
}

// In each of these she works the days of q. The first two are a call each of those for any row.
impl Sheet {
    #[inline(always)]
    pub fn windows_hold(&self, q: u64, t: usize) -> bool
        requires t_lt_row_places { t < row_places }
        requires le_t { 6 ≤ t }
        ensures { result ≡ windows_hold (duty_at self.now.row q) self.now.month.longest t }
    {
        windows_hold(&self.row, q, self.month.longest, t)
    }

    pub fn all_windows_hold(&self, q: u64, count: usize) -> bool
        requires { count ≤ day_places }
        ensures { result ≡ all (windows_hold (duty_at self.now.row q) self.now.month.longest) (up_from 7 count) }
    {
        all_windows_hold(&self.row, q, self.month.longest, count)
    }

    // The rests of the month.
    fn rests_of(&self, q: u64) -> u64
        ensures { result ≡ rests (duty_at self.now.row q) self.now.month.days }
    {
        (7..7 + self.month.days)
            .filter(|t| is_rest(duty_at(&self.row, q, *t)))
            .count() as u64
    }

    // A set of available days with every mark 2 in it.
    fn choice_holds(&self, q: u64) -> bool
        ensures { result ≡ choice_of self.now.month q }
    {
        let n = self.month.days;
        q < 1u64 << n && (0..n).all(|d| self.month.may_choose(q, d))
    }

    // The day rule.
    #[tactic(auto, unfolding(crate::specs::CodeMonth::rule_of))]
    pub(crate) fn rule_holds(&self, q: u64) -> bool
        ensures { result ≡ rule_of self.now.month self.now.row q }
    {
        let n = self.month.days;
        self.choice_holds(q)
            && self.all_windows_hold(q, n)
            && in_bounds(self.month.least, self.month.most, self.rests_of(q))
    }
}
