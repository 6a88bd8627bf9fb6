// A search record from its words, and back.
#![tactic(auto)]

ghost use Rattle.std.specs.Prelude.{◌≡◌, ℕ, List, map, ◌+◌, ◌≤◌, ◌<◌, length, get_or, take, drop};
ghost use Rattle.std.proofs.Math.Seq.{paste};
ghost use Rattle.fields.specs.Sizes.{nurse_places, removal_places};
ghost use Rattle.numbers.specs.Range.{up_from};
ghost use Rattle.numbers.specs.Patterns.{days_of, pair_of};
ghost use Rattle.recordwords.specs.Words.{pattern_words, pairs_at, flags_at, removals_at, steps_at, record_words, patterns_of_words, flag_of, removal_at, record_of_words, flag_word, removal_words, words_of_record};
ghost use Rattle.recordwords.specs.CodeWords.{removal_from, words_of_removal};

use fields::sizes::{NURSES, REMOVALS};
use numbers::pattern;
use removals::Removal;
use search::Record;
use std::array;

// The words of everyone's patterns: 48 sets of days, and 48 pairs.
pub const PATTERNS: usize = 96;

// Where the removals begin, of four words each; where the steps stand; how many words a record has.
const REMOVALS_AT: usize = 144;

const STEPS_AT: usize = 400;

pub const WORDS: usize = 401;

// Everyone's patterns, from the first words of a record.
pub fn patterns_of(words: &[u32]) -> [u64; NURSES]
    requires { pattern_words ≤ length words.now }
    ensures { result ≡ patterns_of_words words.now }
{
    array::from_fn(|i| pattern::of(words[i], words[NURSES + i]))
}

// Any word but 0 sets a flag. A function of its own, since std turns no number into a bool.
pub fn flag_of(word: u32) -> bool
    ensures { result ≡ flag_of word }
{
    word != 0
}

fn flags_of(words: &[u32; WORDS]) -> [bool; NURSES]
    ensures { result ≡ map flag_of (take nurse_places (drop flags_at words.now)) }
{
    array::from_fn(|i| flag_of(words[PATTERNS + i]))
}

fn removal_from(words: [u32; 4]) -> Removal
    ensures { result ≡ removal_from words }
{
    let [nurse, has, days, pair] = words;
    Removal {
        nurse,
        has: flag_of(has),
        pattern: pattern::of(days, pair),
    }
}

fn removals_of(words: &[u32; WORDS]) -> [Removal; REMOVALS]
    ensures { result ≡ map (removal_at words.now) (up_from 0 removal_places) }
{
    let (each, _) = words[REMOVALS_AT..STEPS_AT].as_chunks::<4>();
    array::from_fn(|j| removal_from(each[j]))
}

#[tactic(auto, unfolding(crate::specs::Words::record_of_words))]
pub fn record_of(words: [u32; WORDS]) -> Record
    ensures { result ≡ record_of_words words }
{
    let patterns = patterns_of(&words);
    let placed = flags_of(&words);
    let removals = removals_of(&words);
    let steps = words[STEPS_AT];
    Record {
        patterns,
        placed,
        removals,
        steps,
    }
}

fn words_of_removal(x: Removal) -> [u32; 4]
    ensures { result ≡ words_of_removal x }
{
    [
        x.nurse,
        u32::from(x.has),
        pattern::days_of(x.pattern),
        pattern::pair_of(x.pattern),
    ]
}

// Writes a part of the words over what stood from `at` on.
fn put_part(words: &mut [u32; WORDS], at: usize, part: &[u32])
    requires { at + length part.now ≤ record_words }
    ensures { words.new ≡ paste words.old at part.now (length part.now) }
{
    words[at..at + part.len()].copy_from_slice(part);
}

fn days_words(patterns: &[u64; NURSES]) -> [u32; NURSES]
    ensures { result ≡ map days_of patterns.now }
{
    array::from_fn(|i| pattern::days_of(patterns[i]))
}

fn pair_words(patterns: &[u64; NURSES]) -> [u32; NURSES]
    ensures { result ≡ map pair_of patterns.now }
{
    array::from_fn(|i| pattern::pair_of(patterns[i]))
}

fn flag_words(placed: &[bool; NURSES]) -> [u32; NURSES]
    ensures { result ≡ map flag_word placed.now }
{
    array::from_fn(|i| u32::from(placed[i]))
}

// The removals' words go straight to their place: an array of them, made by `map`, is copied several times before it gets there.
fn put_removals(words: &mut [u32; WORDS], removals: &[Removal; REMOVALS])
    ensures { words.new ≡ paste words.old removals_at (removal_words removals.now) (length (removal_words removals.now)) }
{
    for (j, x) in removals.iter().enumerate() {
        put_part(words, REMOVALS_AT + j * 4, &words_of_removal(*x));
    }
}

// Everyone's sets of days, everyone's pairs, who is placed, the removals, and the steps, each put as soon as it is made.
pub fn words_of(rec: Record) -> [u32; WORDS]
    ensures { result ≡ words_of_record rec }
{
    let mut words = [0u32; WORDS];
    put_part(&mut words, 0, &days_words(&rec.patterns));
    put_part(&mut words, NURSES, &pair_words(&rec.patterns));
    put_part(&mut words, PATTERNS, &flag_words(&rec.placed));
    put_removals(&mut words, &rec.removals);
    words[STEPS_AT] = rec.steps;
    words
}
