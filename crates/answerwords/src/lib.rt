// The six words of an answer.
#![tactic(auto)]

ghost use Rattle.std.specs.Prelude.{◌≡◌, ◌++◌, ◌≤◌, length, drop};
ghost use Rattle.fields.specs.Sizes.{letter_places};
ghost use Rattle.answerwords.specs.AnswerWords.{refusal_words, counted_words, check_words};
ghost use Rattle.answerwords.specs.CodeAnswers.{result_words};

use fields::sizes::LETTERS;
use outcomes::{Advance, Verdict};
use refusals::Refusal;
use search::Ending;

fn refusal_words(n: Refusal) -> [u64; 6]
    ensures { result ≡ refusal_words n }
{
    [u64::from(n.question()), n.place() as u64, 0, 0, 0, 0]
}

// The reader's and the writer's, with the count that was read or written; and of a keeping and a return, whose count is 0.
pub fn count_words(counted: Result<u64, Refusal>) -> [u64; 6]
    ensures { result ≡ counted_words counted }
{
    match counted {
        Err(n) => refusal_words(n),
        Ok(count) => [0, 0, 0, 0, 0, count],
    }
}

// An advance's. The ends' numbers are C's, said here alone, where the words are made, as are the check's below.
pub fn advance_words(done: &Result<Advance, Refusal>) -> [u64; 6]
    ensures { result ≡ result_words done.now }
{
    match done {
        Err(n) => refusal_words(*n),
        Ok(x) => {
            let end = match x.ending {
                Ending::Zero => 1,
                Ending::Asked => 2,
                Ending::None => 3,
            };
            [
                0,
                0,
                end,
                u64::from(x.steps),
                x.penalty,
                x.roster.count as u64,
            ]
        }
    }
}

// Writes the letters that are given out, if any, at the roster's start.
pub fn put_letters(roster: &mut [u8; LETTERS], letters: &[u8])
    requires { length letters.now ≤ letter_places }
    ensures { roster.new ≡ letters.now ++ drop (length letters.now) roster.old }
{
    roster[..letters.len()].copy_from_slice(letters);
}

// The check's.
pub fn check_words(checked: Result<Verdict, Refusal>) -> [u64; 6]
    ensures { result ≡ check_words checked }
{
    match checked {
        Err(n) => refusal_words(n),
        Ok(Verdict::Passed) => [0, 0, 1, 0, 0, 0],
        Ok(Verdict::Broken) => [0, 0, 2, 0, 0, 0],
    }
}
