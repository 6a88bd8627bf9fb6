// The weights of an accepted ward.
ghost use Rattle.std.specs.Prelude.{◌≡◌};
ghost use Rattle.fields.specs.Shifts.{place};
ghost use Rattle.penalty.specs.CodeCounts.{weights_of, no_high};

use crate::duty::Weights;
use fields::Body;
use fields::day::Shift;

// The weights of a duty.
#[tactic(auto, unfolding(crate::specs::CodeCounts::weights_of))]
pub fn weights(w: &Body, shift: Shift) -> Weights
    ensures { result ≡ weights_of w.now.numbers.now (place shift) }
{
    let of_shift = w.weights(shift);
    Weights {
        w: of_shift[0],
        u: of_shift[1],
        v: of_shift[2],
    }
}

// The same with highs ignored.
pub fn low_weights(w: &Body, shift: Shift) -> Weights
    ensures { result ≡ no_high (weights_of w.now.numbers.now (place shift)) }
{
    Weights {
        v: 0,
        ..weights(w, shift)
    }
}
