// Day patterns over one choice of nights and pair: whether one is hers.
#![tactic(auto)]

pub mod month;
pub mod rule;

ghost use Rattle.std.specs.Prelude.{◌≡◌, ◌<◌};
ghost use Rattle.numbers.specs.Patterns.{days_of, pair_of};
ghost use Rattle.fields.specs.Fields.{nurses, days, longest_days, block};
ghost use Rattle.rows.specs.Pairs.{in_pair};
ghost use Rattle.days.specs.Days.{day_rule_of};
ghost use Rattle.days.specs.CodeMonth.{IsSheet};

use fields::WardNurse;
use month::Sheet;

// Her month under the pattern c: its nights and its pair.
pub fn nurse_sheet(her: &WardNurse, c: u64) -> Sheet
    ensures { IsSheet (block her.now.ward.numbers.now her.now.index) (days her.now.ward.numbers.now) (longest_days her.now.ward.numbers.now) (days_of c) (in_pair her.now.ward.numbers.now (pair_of c)) result.month result.row }
{
    let longest = her.ward.longest_days();
    let p = numbers::pattern::days_of(c);
    let k = numbers::pattern::pair_of(c) as usize;
    let off = rows::pairs::pair_days(&her.ward, k);
    month::sheet_of(&her.numbers(), longest, p, off)
}

// Whether q is a day pattern of hers over the pattern c.
pub fn is_day_pattern(her: &WardNurse, c: u64, q: u32) -> bool
    ensures { result ≡ day_rule_of her.now.ward.numbers.now her.now.index c q }
{
    nurse_sheet(her, c).rule_holds(u64::from(q))
}
