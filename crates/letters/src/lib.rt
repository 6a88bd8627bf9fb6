// The letters of a roster: which duty each is, question 12, and the roster that patterns make.
#![tactic(auto)]

pub mod written;

ghost use Rattle.std.specs.Prelude.{◌≡◌, ◌<◌, not, position};
ghost use Rattle.letters.specs.Letters.{letter, is_letter, misplaced};
ghost use Rattle.letters.specs.CodeLetters.{found_of};

const DUTY_LETTERS: [u8; 5] = [b'/', b'-', b'N', b'n', b'+'];

// The letter of a duty, which is the file's number.
#[tactic(auto, unfolding(crate::specs::Letters::letter))]
pub(crate) fn letter_of(duty: usize) -> u8
    requires { duty < 5 }
    ensures { result ≡ letter duty }
{
    DUTY_LETTERS[duty]
}

// One of the five.
#[tactic(auto, unfolding(crate::specs::Letters::is_letter))]
fn is_letter(c: u8) -> bool
    ensures { result ≡ is_letter c }
{
    DUTY_LETTERS.contains(&c)
}

// The first index whose letter is none of the five.
fn first_bad(roster: &[u8]) -> Option<usize>
    ensures { result ≡ position (λ c. not (is_letter c)) roster.now }
{
    roster.iter().position(|c| !is_letter(*c))
}

// The place of question 12's no.
#[tactic(auto, using(crate::proofs::LetterLaws::found_at), unfolding(crate::specs::Letters::misplaced))]
pub fn misplaced_at(roster: &[u8], size: usize) -> Option<usize>
    ensures { found_of result ≡ misplaced size roster.now }
{
    match first_bad(roster) {
        None if roster.len() != size => Some(roster.len()),
        bad => bad,
    }
}
