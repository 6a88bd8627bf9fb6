// Whether the fields of a record that are not in use are 0.
ghost use Rattle.std.specs.Prelude.{◌≡◌, cond, not, ◌&&◌, ◌||◌, eqb};
ghost use Rattle.fields.specs.Sizes.{nurse_places, removal_places};
ghost use Rattle.numbers.specs.Range.{up_from, all};
ghost use Rattle.removals.specs.Removals.{slot_zero, removal_zero};

use crate::Removal;
use fields::sizes::{NURSES, REMOVALS};

// One nurse's pattern and flag; `here` where the ward has her.
fn slot_zero(here: bool, placed: bool, pattern: u64) -> bool
    ensures { result ≡ cond here (placed || eqb pattern 0) (not placed && eqb pattern 0) }
{
    if here {
        placed || pattern == 0
    } else {
        !placed && pattern == 0
    }
}

// All 48, of whom the ward has m. By index, here and below: a place in use is told by its number, and a slot stands in two arrays.
pub fn slots_zero(placed: [bool; NURSES], patterns: [u64; NURSES], m: usize) -> bool
    ensures { result ≡ all (slot_zero m placed patterns) (up_from 0 nurse_places) }
{
    (0..NURSES).all(|i| slot_zero(i < m, placed[i], patterns[i]))
}

// One removal, in use or not.
fn removal_zero(here: bool, x: Removal) -> bool
    ensures { result ≡ cond here (x.has || eqb x.pattern 0) (eqb x.nurse 0 && (not x.has && eqb x.pattern 0)) }
{
    (here || x.nurse == 0) && slot_zero(here, x.has, x.pattern)
}

// All 64, of which the first `held` are in use.
pub fn removals_zero(list: [Removal; REMOVALS], held: usize) -> bool
    ensures { result ≡ all (removal_zero held list) (up_from 0 removal_places) }
{
    (0..REMOVALS).all(|k| removal_zero(k < held, list[k]))
}
