// Whether a roster meets the needs, lows and highs of every day.
ghost use Rattle.std.specs.Prelude.{◌≡◌, ◌<◌, length};
ghost use Rattle.numbers.specs.Range.{up_from, all};
ghost use Rattle.fields.specs.Shifts.{place};
ghost use Rattle.fields.specs.Fields.{days};
ghost use Rattle.rostercheck.specs.Check.{duty_letter};
ghost use Rattle.rostercheck.specs.CodeCheck.{duty_holds, day_holds};
ghost use Rattle.rostercheck.specs.CodeBounds.{bounds_hold, all_bounds_hold};

use crate::roster::Letters;
use fields::day::Shift;
use penalty::duty::Conditions;

// The low and high of the group of index g.
#[tactic(auto, unfolding(crate::specs::CodeBounds::bounds_hold))]
fn bounds_hold(c: &Conditions, col: u64, g: usize) -> bool
    requires { g < length c.now.sets.now }
    ensures { result ≡ bounds_hold c.now.sets.now c.now.needs.now (place c.now.shift) col g }
{
    let bounds = c.bounds(g);
    let count = numbers::members(col, c.sets[g]);
    (bounds.low..=bounds.high).contains(&count)
}

// Every group's. By index, since g names the group's bounds too.
fn all_bounds_hold(c: &Conditions, col: u64) -> bool
    ensures { result ≡ all_bounds_hold c.now.sets.now c.now.needs.now (place c.now.shift) col }
{
    (0..c.sets.len()).all(|g| bounds_hold(c, col, g))
}

// N by night, `-` by day. Written here again, since `letters` gives out whole rows and no letter of a duty.
#[tactic(auto, unfolding(letters::specs::Letters::letter))]
fn duty_letter(shift: Shift) -> u8
    ensures { result ≡ duty_letter (place shift) }
{
    match shift {
        Shift::Night => b'N',
        Shift::Day => b'-',
    }
}

// One duty of the day of index d.
fn duty_holds(r: &Letters, shift: Shift, d: usize) -> bool
    requires { d < days r.now.ward.numbers.now }
    ensures { result ≡ duty_holds r.now.ward.numbers.now r.now.letters.now (place shift) d }
{
    let col = r.column(d, duty_letter(shift));
    let c = Conditions::of(&r.ward, shift, d);
    c.need() <= numbers::on_duty(col) && all_bounds_hold(&c, col)
}

// Both duties of the day of index d.
#[tactic(auto, unfolding(crate::specs::CodeCheck::day_holds))]
fn day_holds(r: &Letters, d: usize) -> bool
    requires { d < days r.now.ward.numbers.now }
    ensures { result ≡ day_holds r.now.ward.numbers.now r.now.letters.now d }
{
    duty_holds(r, Shift::Night, d) && duty_holds(r, Shift::Day, d)
}

// Every day.
pub(crate) fn days_hold(r: &Letters) -> bool
    ensures { result ≡ all (day_holds r.now.ward.numbers.now r.now.letters.now) (up_from 0 (days r.now.ward.numbers.now)) }
{
    (0..r.ward.days()).all(|d| day_holds(r, d))
}
