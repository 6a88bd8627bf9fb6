// The roster check over an accepted ward.
#![tactic(auto)]

mod needs;
mod roster;
mod rows_of;

ghost use Rattle.std.specs.Prelude.{◌≡◌, ◌*◌, length};
ghost use Rattle.fields.specs.Fields.{nurses, days};
ghost use Rattle.rostercheck.specs.CodeCheck.{holds};

use fields::Body;
use roster::Letters;

// Whether every row follows from patterns, and every day's needs, lows and highs hold.
#[tactic(auto, unfolding(crate::specs::CodeCheck::holds))]
pub fn roster_holds(w: &Body, roster: &[u8]) -> bool
    requires { length roster.now ≡ nurses w.now.numbers.now * days w.now.numbers.now }
    ensures { result ≡ holds w.now.numbers.now roster.now }
{
    let letters = Letters {
        ward: *w,
        letters: roster,
    };
    rows_of::rows_hold(&letters) && needs::days_hold(&letters)
}
