// Records kept under the numbers 1 to 8 in lent storage of 32-bit words, and brought back.
#![tactic(auto)]

ghost use Rattle.std.specs.Prelude.{◌≡◌, cond, ◌&&◌, ◌∷◌};
ghost use Rattle.refusals.specs.Refusals.{numbered, answer_by};
ghost use Rattle.refusals.specs.Questions;
ghost use Rattle.history.specs.Session.{keep_number};
ghost use Rattle.recordwords.specs.Words.{words_of_record};
ghost use Rattle.keeping.specs.Storage.{entry_at, has_room, keep_no, kept_in, returned_of};

use outcomes::Refused;
use recordwords::WORDS;
use refusals::Refusal;
use refusals::question::Question;
use search::Record;

// The words of an entry, the first of which says whether something is kept; and of all eight.
const ENTRY: usize = 402;

pub const STORAGE: usize = 3216;

// Where the entry of a number begins in storage of so many words; or question 13, without room for eight records or where the number is not 1 to 8.
// A place and no slice: `keep` cuts a `&mut` there and `bring_back` a `&`, so a slice would need a function for each.
fn entry_at(words: usize, number: u32) -> Result<usize, Refusal>
    ensures { result ≡ cond (has_room words && keep_number number) (Ok (entry_at number)) (Err (numbered Questions.storage 0)) }
{
    if words < STORAGE || !(1..=8).contains(&number) {
        return Err(Question::Storage.at(0));
    }
    Ok((number as usize - 1) * ENTRY)
}

// An entry that keeps a record.
fn entry_of(rec: Record) -> [u32; ENTRY]
    ensures { result ≡ 1 ∷ words_of_record rec }
{
    let words = recordwords::words_of(rec);
    let mut entry = [1u32; ENTRY];
    entry[1..].copy_from_slice(&words);
    entry
}

// Keeps the record under the number, in place of what was kept there; or question 13. A refused call leaves the storage as it was.
pub fn keep(rec: Record, number: u32, storage: &mut [u32]) -> Result<(), Refusal>
    ensures says { result ≡ answer_by (keep_no storage.old number) }
    ensures leaves { storage.new ≡ kept_in storage.old number rec }
{
    let at = entry_at(storage.len(), number)?;
    storage[at..at + ENTRY].copy_from_slice(&entry_of(rec));
    Ok(())
}

// The record kept under the number; or question 13, and the record in hand.
pub fn bring_back(rec: Record, number: u32, storage: &[u32]) -> Result<Record, Refused>
    ensures { result ≡ returned_of storage.now number rec }
{
    let place = entry_at(storage.len(), number);
    let at = outcomes::handed_back(place, &rec)?;
    let entry = &storage[at..at + ENTRY];
    if entry[0] == 0 {
        return Err(Refused {
            refusal: Question::Storage.at(0),
            in_hand: rec,
        });
    }
    let mut words = [0u32; WORDS];
    words.copy_from_slice(&entry[1..]);
    Ok(recordwords::record_of(words))
}
