// What an advance and the check hand back, and an advance or a return that is refused.
#![tactic(auto)]

ghost use Rattle.std.specs.Prelude.{◌≡◌};
ghost use Rattle.history.specs.Phase.{Phase};
ghost use Rattle.search.specs.CodeSeek.{answer_of};
ghost use Rattle.outcomes.specs.Outcomes.{roster_of, letters_of, handed_back, advance_of};

use letters::written::Roster;
use refusals::Refusal;
use search::{Advanced, Ending, Record};

// The record after an advance, its penalty, the steps made by the advance, how it ended, and the roster: by day its letters and
// their count where the advance leaves penalty zero, else 0, as C's words have it, and so no Option. Flat: an `Advanced` in it would put a second name
// before each part for every caller of the published calls.
#[derive(Clone, Copy)]
pub struct Advance {
    pub after: Record,
    pub penalty: u64,
    pub steps: u32,
    pub ending: Ending,
    pub roster: Roster,
}

// An advance or a return that is refused: the refusal, and the record in hand, as it was.
#[derive(Clone, Copy)]
pub struct Refused {
    pub refusal: Refusal,
    pub in_hand: Record,
}

// What the check says of a roster: it keeps the rules, or a rule is broken.
#[derive(Clone, Copy, Debug, PartialEq, Eq)]
pub enum Verdict {
    Passed,
    Broken,
}

// An answer, with the record in hand where it is a no. The record behind a reference: a yes copies none.
pub fn handed_back<T>(asked: Result<T, Refusal>, in_hand: &Record) -> Result<T, Refused>
    ensures { result ≡ handed_back asked in_hand.now }
{
    match asked {
        Ok(x) => Ok(x),
        Err(refusal) => Err(Refused {
            refusal,
            in_hand: *in_hand,
        }),
    }
}

// What an advance that ran comes to, with the roster that it gives out.
#[tactic(auto, using(crate::proofs::OutcomeLaws::finished_by))]
pub fn finished(x: Advanced, roster: Roster) -> Advance
    ensures { (P : Phase) → roster ≡ roster_of (letters_of (answer_of P x)) → Ok result ≡ advance_of (answer_of P x, x.after) }
{
    Advance {
        after: x.after,
        penalty: x.penalty,
        steps: x.steps,
        ending: x.ending,
        roster,
    }
}
