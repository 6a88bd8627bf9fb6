// The C interface, over the planner's published calls. include/pantheryl.h says it for C.
#![tactic(auto)]

ghost use Rattle.std.specs.Prelude.{◌≡◌, length};
ghost use Rattle.ward.specs.Answers.{reading_of, read_ward, counted, check_ward, writing_of, left_of};
ghost use Rattle.planner.specs.Answers.{check_says};
ghost use Rattle.planner.specs.Left.{night_left, day_left};
ghost use Rattle.refusals.specs.Refusals.{answer_by};
ghost use Rattle.recordwords.specs.Words.{patterns_of_words, record_of_words, flag_of};
ghost use Rattle.keeping.specs.Storage.{keep_no, kept_in, return_no};
ghost use Rattle.answerwords.specs.AnswerWords.{count_words, advance_words, check_words};
ghost use Rattle.pantheryl.specs.CodeAfter.{words_after, CountFits, roster_with, roster_after, RosterFits};
ghost use Rattle.pantheryl.specs.Answers.{read_words, numbers_left, ward_of, write_words, words_left, nights_from, days_from, roster_left, returned_words};

use fields::sizes::{LETTERS, NUMBERS};
use letters::written::Roster;
use planner::Advance;
use recordwords::{PATTERNS, WORDS};
use refusals::Refusal;
use ward::Ward;

// The words of the record after an advance; a refused one leaves them.
fn put_record(words: &mut [u32; WORDS], done: &Result<Advance, Refusal>)
    ensures { words.new ≡ words_after done.now words.old }
{
    if let Ok(x) = done {
        *words = recordwords::words_of(x.after);
    }
}

// The letters of a roster that is given out. By value: its array's length is known of a value.
fn put_given(roster: &mut [u8; LETTERS], given: Roster)
    requires { CountFits given }
    ensures { roster.new ≡ roster_with given roster.old }
{
    answerwords::put_letters(roster, &given.letters[..given.count]);
}

// The letters that an advance gives out; a refused one leaves the roster.
fn put_roster(roster: &mut [u8; LETTERS], done: &Result<Advance, Refusal>)
    requires { RosterFits done.now }
    ensures { roster.new ≡ roster_after done.now roster.old }
{
    if let Ok(given) = done {
        put_given(roster, given.roster);
    }
}

// Reads a ward file into numbers; the count says how many.
#[unsafe(no_mangle)]
pub extern "C" fn pantheryl_read(file: &[u8], numbers: &mut [u64; NUMBERS], answer: &mut [u64; 6])
    ensures says { answer.new ≡ read_words (reading_of (read_ward file.now)) }
    ensures leaves { numbers.new ≡ numbers_left (reading_of (read_ward file.now)) numbers.old }
{
    match planner::read(file) {
        Ok(ward) => {
            *answer = answerwords::count_words(Ok(ward.count as u64));
            // By a variable: the proof does not close where an array field is stored straight.
            let filled = ward.numbers;
            *numbers = filled;
        }
        Err(n) => *answer = answerwords::count_words(Err(n)),
    }
}

// Writes the counted numbers as a ward file into buffer; the count says how many bytes.
#[unsafe(no_mangle)]
pub extern "C" fn pantheryl_write(
    numbers: &[u64; NUMBERS],
    count: u64,
    buffer: &mut [u8],
    answer: &mut [u64; 6],
)
    ensures says { answer.new ≡ write_words (writing_of (length buffer.old) (check_ward (counted (ward_of numbers.now count)))) }
    ensures leaves { buffer.new ≡ left_of buffer.old (check_ward (counted (ward_of numbers.now count))) }
{
    let numbers = *numbers;
    let ward = Ward {
        numbers,
        count: count as usize,
    };
    let written = planner::write(ward, buffer);
    *answer = answerwords::count_words(written.map(|bytes| bytes as u64));
}

// Advances the night search whose record is in words by up to k steps, past zero where `past` is not 0.
#[unsafe(no_mangle)]
pub extern "C" fn pantheryl_advance_nights(
    file: &[u8],
    words: &mut [u32; WORDS],
    k: u32,
    past: u32,
    buffer: &mut [u32],
    answer: &mut [u64; 6],
)
    ensures says { answer.new ≡ advance_words (nights_from file.now words.old k past buffer.old).0 }
    ensures keeps { words.new ≡ words_left (nights_from file.now words.old k past buffer.old) words.old }
    ensures leaves { buffer.new ≡ night_left file.now (record_of_words words.old) k (flag_of past) buffer.old }
{
    let before = *words;
    let rec = recordwords::record_of(before);
    let beyond = recordwords::flag_of(past);
    let done = planner::advance_nights(rec, file, k, beyond, buffer);
    // A refused call's record stands in the words still.
    let done = done.map_err(|x| x.refusal);
    *answer = answerwords::advance_words(&done);
    put_record(words, &done);
}

// Advances the day search over these nights whose record is in words by up to k steps, past zero where `past` is not 0. Eight parameters, as C has them.
#[unsafe(no_mangle)]
pub extern "C" fn pantheryl_advance_days(
    file: &[u8],
    nights: &[u32; PATTERNS],
    words: &mut [u32; WORDS],
    k: u32,
    past: u32,
    buffer: &mut [u32],
    roster: &mut [u8; LETTERS],
    answer: &mut [u64; 6],
)
    ensures says { answer.new ≡ advance_words (days_from file.now nights.now words.old k past buffer.old).0 }
    ensures keeps { words.new ≡ words_left (days_from file.now nights.now words.old k past buffer.old) words.old }
    ensures leaves { buffer.new ≡ day_left file.now (patterns_of_words nights.now) (record_of_words words.old) k (flag_of past) buffer.old }
    ensures gives { roster.new ≡ roster_left (days_from file.now nights.now words.old k past buffer.old).0 roster.old }
{
    let before = *words;
    let rec = recordwords::record_of(before);
    let over = recordwords::patterns_of(nights);
    let beyond = recordwords::flag_of(past);
    let advanced = planner::advance_days(rec, file, &over, k, beyond, buffer);
    // As by night.
    let advanced = advanced.map_err(|x| x.refusal);
    *answer = answerwords::advance_words(&advanced);
    put_roster(roster, &advanced);
    put_record(words, &advanced);
}

// Checks a roster against a ward file.
#[unsafe(no_mangle)]
pub extern "C" fn pantheryl_check(file: &[u8], roster: &[u8], answer: &mut [u64; 6])
    ensures { answer.new ≡ check_words (check_says file.now roster.now) }
{
    *answer = answerwords::check_words(planner::check(file, roster));
}

// Keeps the record in words under the number, in storage.
#[unsafe(no_mangle)]
pub extern "C" fn pantheryl_keep(
    words: &[u32; WORDS],
    number: u32,
    storage: &mut [u32],
    answer: &mut [u64; 6],
)
    ensures says { answer.new ≡ count_words (answer_by (keep_no storage.old number)) 0 }
    ensures leaves { storage.new ≡ kept_in storage.old number (record_of_words words.now) }
{
    let before = *words;
    let rec = recordwords::record_of(before);
    let kept = planner::keep(rec, number, storage);
    *answer = answerwords::count_words(kept.map(|()| 0));
}

// Brings back the record that is kept under the number in storage.
#[unsafe(no_mangle)]
pub extern "C" fn pantheryl_return(
    words: &mut [u32; WORDS],
    number: u32,
    storage: &[u32],
    answer: &mut [u64; 6],
)
    ensures says { answer.new ≡ count_words (answer_by (return_no storage.now number)) 0 }
    ensures keeps { words.new ≡ returned_words storage.now number words.old }
{
    let before = *words;
    let rec = recordwords::record_of(before);
    match planner::bring_back(rec, number, storage) {
        Ok(back) => {
            *answer = answerwords::count_words(Ok(0));
            *words = recordwords::words_of(back);
        }
        Err(x) => *answer = answerwords::count_words(Err(x.refusal)),
    }
}
