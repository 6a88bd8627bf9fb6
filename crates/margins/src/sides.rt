// What a duty costs on each day with a nurse on it and without her, from the margins of her conditions.
ghost use Rattle.std.specs.Prelude.{◌≡◌, ℕ, ◌+◌, ◌≤◌, ◌<◌, length, get_or};
ghost use Rattle.numbers.specs.Sum.{count_to, Is};
ghost use Rattle.numbers.specs.Digits.{has};
ghost use Rattle.tables.specs.CodeTables.{Low};
ghost use Rattle.penalty.specs.Weights.{Weights};
ghost use Rattle.margins.specs.CodeMargins.{MarginsOf, SomeMargins, RowAdded, Hers, SideFits, SideOf, SidesOf};

use crate::part::{EVERYONE, Part, STANDING};
use fields::WardNurse;
use fields::sizes::DAYS;
use numbers::Set;

// The row from `from` on added up.
fn add_row(part: &Part, from: usize, sums: &mut [u32; 64])
    requires { (from + 64 ≤ 1088) × Low sums.old 100000 }
    ensures { RowAdded part.now from sums.old sums.new }
{
    // Not by `zip`: tried, and std says nothing of what is written through an adapter of `iter_mut` other than `enumerate`.
    for (e, sum) in sums.iter_mut().enumerate() {
        *sum += part.margins[from + e];
    }
}

// The rows of nurse i's conditions added up.
fn hers(sets: &[u64], i: usize, part: &Part) -> [u32; 64]
    requires { (length sets.now ≤ 16) × (i < 64) }
    ensures { Hers sets.now i part.now result }
{
    let mut sums = [0u32; 64];
    add_row(part, EVERYONE, &mut sums);
    for (g, set) in sets.iter().enumerate() {
        if set.has(i) {
            add_row(part, 64 * g, &mut sums);
        }
    }
    sums
}

// How many conditions are nurse i's.
fn conditions(sets: &[u64], i: usize) -> u32
    requires { (length sets.now ≤ 16) × (i < 64) }
    ensures { Is result (1 + count_to (length sets.now) (λ g. has (get_or sets.now g 0) i)) 17 }
{
    1 + sets.iter().filter(|set| set.has(i)).count() as u32
}

// With her, and without her.
#[derive(Clone, Copy)]
pub struct Side {
    pub on: u32,
    pub off: u32,
}

// A day that costs so much as it stands, with her on duty or not; zero is 100 for each of her conditions.
fn both(on: bool, standing: u32, more: u32, fewer: u32, zero: u32) -> Side
    requires { SideFits on standing more fewer zero }
    ensures { SideOf on standing more fewer zero result }
{
    if on {
        Side {
            on: standing,
            off: standing + fewer - zero,
        }
    } else {
        Side {
            on: standing + more - zero,
            off: standing,
        }
    }
}

// By day: with nurse i from 0 on, without her from 32 on; small enough to be added. Two halves and no array of `Side`, since
// `costs` copies a half whole, and not two arrays by name, which would be parallel ones.
#[derive(Clone, Copy)]
pub(crate) struct Sides {
    pub(crate) sides: [u32; 64],
    pub(crate) ghost small: { Low sides 185600 },
}

impl Sides {
    // From the margins of these columns.
    #[tactic(auto, using(crate::proofs::SideLaws::sets_few))]
    pub(crate) fn of(her: &WardNurse, cols: &[u64; DAYS], part: &Part) -> Sides
        requires { SomeMargins her.now.ward.numbers.now cols.now part.now }
        ensures { (wt : Weights) (k : ℕ) → MarginsOf her.now.ward.numbers.now wt k cols.now part.now → SidesOf her.now.ward.numbers.now wt k cols.now her.now.index result.sides }
    {
        let i = her.index;
        let n = her.ward.days();
        let sets = her.ward.member_sets();
        let sums = hers(sets, i, part);
        let zero = 100 * conditions(sets, i);
        let mut sides = [0u32; 64];
        for d in 0..n {
            let on = cols[d].has(i);
            let x = both(on, part.margins[STANDING + d], sums[d], sums[32 + d], zero);
            sides[d] = x.on;
            sides[32 + d] = x.off;
        }
        Sides { sides }
    }
}
