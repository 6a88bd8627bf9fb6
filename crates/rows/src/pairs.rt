// The pairs of days off, and whether one is a nurse's under her nights.
ghost use Rattle.std.specs.Prelude.{◌≡◌, ℕ, suc, ◌<◌};
ghost use Rattle.numbers.specs.Digits.{has};
ghost use Rattle.fields.specs.Fields.{nurses};
ghost use Rattle.rows.specs.States.{code};
ghost use Rattle.rows.specs.Pairs.{in_pair, rest_mark, at_rest, pair_fits};

use crate::State;
use fields::{Body, WardNurse};

// A mark, the file's number, under which a day of a pair may stand.
pub fn is_rest_mark(mark: u64) -> bool
    ensures { result ≡ rest_mark mark }
{
    matches!(mark, 0 | 1 | 5 | 6)
}

// O or R, under such a mark.
fn is_at_rest(mark: u64, state: State) -> bool
    ensures { result ≡ at_rest mark (code state) }
{
    matches!(state, State::Open | State::Rest) && is_rest_mark(mark)
}

// The two days of pair k, as a set; none where there is no such pair.
#[tactic(auto, using(crate::proofs::PairLaws::has_none), unfolding(crate::specs::Pairs::in_pair))]
pub fn pair_days(w: &Body, k: usize) -> u32
    ensures { (d : ℕ) → has result d ≡ in_pair w.now.numbers.now k (suc d) }
{
    if k == 0 || w.pair_count() < k {
        return 0;
    }
    let second = w.pair_day(k);
    numbers::bit(second - 1) | numbers::bit(second)
}

// Whether pair k is hers under the night pattern p.
#[tactic(auto, unfolding(crate::specs::Pairs::pair_fits, crate::specs::Pairs::at_rest_on))]
pub fn pair_fits(her: &WardNurse, p: u32, k: usize) -> bool
    ensures { result ≡ pair_fits her.now.ward.numbers.now her.now.index p k }
{
    let count = her.ward.pair_count();
    if k == 0 {
        return count == 0;
    }
    if count < k {
        return false;
    }
    let b = her.numbers();
    let states = crate::states(b.numbers, b.days, p);
    let second = her.ward.pair_day(k) as usize;
    let first = second - 1;
    is_at_rest(b.mark(first), states[first]) && is_at_rest(b.mark(second), states[second])
}
