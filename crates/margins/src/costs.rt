// A nurse's days: what each costs in each of her states, all others as they are.
ghost use Rattle.std.specs.Prelude.{◌≡◌, ◌≤◌};
ghost use Rattle.fields.specs.Fields.{days};
ghost use Rattle.margins.specs.CodeMargins.{SearchMargins, NightSummed, DaySummed, CostsOf};

use crate::Margins;
use crate::sides::Sides;
use fields::WardNurse;
use history::Search;
use numbers::Set;
use penalty::columns::Columns;
use tables::costs::{COST_PLACES, Costs, NONE, OPEN};

// By night, from the sides of night and day; `workable` are the days that she may work where they are open.
fn night_costs(n: usize, x: &Sides, y: &Sides, workable: u32) -> Costs
    requires { n ≤ 31 }
    ensures { (result.days ≡ n) × NightSummed n x.now.sides y.now.sides workable result.costs }
{
    let mut costs = [0u32; COST_PLACES];
    for d in 0..n {
        let off = x.sides[32 + d];
        let away = y.sides[32 + d];
        let free = if workable.has(d) { y.sides[d] } else { away };
        costs[d] = x.sides[d] + away;
        costs[OPEN + d] = off + free;
        costs[NONE + d] = off + away;
    }
    Costs { costs, days: n }
}

// By day, where a day that she works stands as one at night.
fn day_costs(n: usize, y: &Sides) -> Costs
    requires { n ≤ 31 }
    ensures { (result.days ≡ n) × DaySummed n y.now.sides result.costs }
{
    let on = &y.sides[..n];
    let off = &y.sides[32..32 + n];
    let mut costs = [0u32; COST_PLACES];
    costs[..n].copy_from_slice(on);
    costs[OPEN..OPEN + n].copy_from_slice(off);
    costs[NONE..NONE + n].copy_from_slice(off);
    Costs { costs, days: n }
}

// What the nurse's days cost by the margins of these columns.
pub fn nurse_costs(
    her: &WardNurse,
    cols: &Columns,
    margins: &Margins,
    workable: u32,
    search: Search,
) -> Costs
    requires { SearchMargins search her.now.ward.numbers.now cols.now.night cols.now.day margins.now.nightly margins.now.daily }
    ensures month { result.days ≡ days her.now.ward.numbers.now }
    ensures costs { CostsOf search her.now.ward.numbers.now cols.now.night cols.now.day her.now.index workable result.costs }
{
    let n = her.ward.days();
    let y = Sides::of(her, &cols.day, &margins.daily);
    // No closure and no trait with an impl for each search: either would take the same arguments for a line or two, and since the search comes in as a
    // value a `match` would choose the impl.
    match search {
        Search::Nights => {
            let x = Sides::of(her, &cols.night, &margins.nightly);
            night_costs(n, &x, &y, workable)
        }
        Search::Days => day_costs(n, &y),
    }
}
