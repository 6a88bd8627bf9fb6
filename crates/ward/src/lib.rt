// The ward file: its reader and its writer.
#![tactic(auto)]

ghost use Rattle.std.specs.Prelude.{◌≡◌, IfOk, length, replicate};
ghost use Rattle.codec.specs.Groups.{decode};
ghost use Rattle.fields.specs.Sizes.{number_places};
ghost use Rattle.layout.specs.Grammar.{failed_by};
ghost use Rattle.ward.specs.Answers.{reading_of, count_of, read_ward, counted, check_ward, writing_of, left_of};
ghost use Rattle.ward.specs.Body.{WardIn};
ghost use Rattle.ward.specs.CodeChecked.{checked_of, fault_question, said, number_asked};

use codec::{Fault, Number};
use fields::sizes::NUMBERS;
use layout::Field;
use refusals::Refusal;
use refusals::question::Question;

// The numbers of a file, in its order, and how many there are. An array with its count: there is no heap, and C hands over the same.
#[derive(Clone, Copy, Default)]
pub struct Ward {
    pub numbers: [u64; NUMBERS],
    pub count: usize,
}

// The question that bytes without a number fail. A function: by a `From` one of `codec` and `refusals` would need the other.
fn fault_question(fault: Fault) -> Question
    ensures { result ≡ fault_question fault }
{
    match fault {
        Fault::Ended => Question::Whole,
        Fault::Long => Question::Shortest,
    }
}

// Questions 3 and 4 of a number at its place.
fn ask(field: Field, v: u64, place: usize) -> Result<(), Refusal>
    ensures { result ≡ said (failed_by field v) place }
{
    layout::ask(field, v).map_err(|question| question.at(place))
}

// Questions 1 to 4 of the number at the front of what is left from `at` on.
fn number_at(rest: &[u8], at: usize, field: Field) -> Result<Number, Refusal>
    ensures { result ≡ number_asked field at (decode rest.now) }
{
    let number = codec::number_in(rest).map_err(|fault| fault_question(fault).at(at))?;
    ask(field, number.value, at)?;
    Ok(number)
}

// The ward of a file in an array of zeros that is lent, so that a call from C has no second one on its stack, and how many numbers it has, or the first question that it fails: what stands there is then of no use.
pub fn read_into(file: &[u8], numbers: &mut [u64; NUMBERS]) -> Result<usize, Refusal>
    requires { numbers.old ≡ replicate number_places 0 }
    ensures says { result ≡ count_of (reading_of (read_ward file.now)) }
    ensures leaves { IfOk (reading_of (read_ward file.now)) (λ w. numbers.new ≡ w.numbers) }
    ensures ward { IfOk result (WardIn numbers.new) }
{
    let mut count: usize = 0;
    let mut at: usize = 0;
    let mut c = layout::start();
    // The layout leads: how many numbers there are is known only at its end.
    while let Some(field) = layout::wanted_at(c) {
        let number = number_at(&file[at..], at, field)?;
        numbers[count] = number.value;
        count += 1;
        at += number.used;
        c = layout::step(c, number.value);
    }
    if at < file.len() {
        return Err(Question::End.at(at));
    }
    Ok(count)
}

// The ward of a file, or the first question that it fails.
pub fn read(file: &[u8]) -> Result<Ward, Refusal>
    ensures says { result ≡ reading_of (read_ward file.now) }
    ensures ward { IfOk result (λ w. WardIn w.numbers w.count) }
{
    let mut numbers = [0u64; NUMBERS];
    let count = read_into(file, &mut numbers)?;
    Ok(Ward { numbers, count })
}

// Questions 1, 3, 4 and 5 of a ward's counted numbers: how many bytes they take, or the first that is a no.
fn questions(ward: &Ward) -> Result<usize, Refusal>
    ensures { result ≡ checked_of (check_ward (counted ward.now)) }
{
    // A count above the array needs no answer of its own: the longest ward has 4,107 numbers, so the layout ends before the array does.
    let numbers = &ward.numbers[..ward.count.min(NUMBERS)];
    let mut bytes: usize = 0;
    let mut c = layout::start();
    for (i, v) in numbers.iter().enumerate() {
        let Some(field) = layout::wanted_at(c) else {
            return Err(Question::End.at(i));
        };
        ask(field, *v, i)?;
        bytes += codec::size(*v);
        c = layout::step(c, *v);
    }
    match layout::wanted_at(c) {
        Some(_) => Err(Question::Whole.at(ward.count)),
        None => Ok(bytes),
    }
}

// The counted numbers as bytes from the buffer's start, and how many.
pub fn write(ward: Ward, buf: &mut [u8]) -> Result<usize, Refusal>
    ensures says { result ≡ writing_of (length buf.old) (check_ward (counted ward)) }
    ensures leaves { buf.new ≡ left_of buf.old (check_ward (counted ward)) }
{
    let bytes = questions(&ward)?;
    if buf.len() < bytes {
        return Err(Question::Bytes.at(0));
    }
    let mut at: usize = 0;
    for v in &ward.numbers[..ward.count] {
        at = codec::put(buf, at, *v);
    }
    Ok(at)
}
