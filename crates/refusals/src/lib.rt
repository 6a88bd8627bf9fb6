// A refusal: the question that is a no, and a place.
#![tactic(auto)]

pub mod question;

ghost use Rattle.std.specs.Prelude.{◌≡◌};
ghost use Rattle.refusals.specs.Numbers.{number};
ghost use Rattle.refusals.specs.Refusals.{numbered, refusal_in, unless};

use question::Question;
use std::error::Error;
use std::fmt;

// The question's number in the documents, and the place.
#[derive(Clone, Copy, Debug, PartialEq, Eq)]
pub struct Refusal {
    pub question: u32,
    pub place: usize,
}

// The question of this number is a no at the place. Of any number; `Question::at` is for those of the documents.
pub fn no(question: u32, place: usize) -> Result<(), Refusal>
    ensures { result ≡ Err (numbered question place) }
{
    Err(Refusal { question, place })
}

// A question of any number that is answered yes, or its no.
pub fn unless(yes: bool, question: u32, place: usize) -> Result<(), Refusal>
    ensures { refusal_in result ≡ unless yes question place }
{
    if yes { Ok(()) } else { no(question, place) }
}

impl Question {
    // This question is a no at the place.
    pub fn at(self, place: usize) -> Refusal
        ensures { result ≡ numbered (number self) place }
    {
        Refusal {
            question: u32::from(self),
            place,
        }
    }

    // A question that is answered yes, or its no.
    pub fn unless(self, yes: bool, place: usize) -> Result<(), Refusal>
        ensures { refusal_in result ≡ unless yes (number self) place }
    {
        if yes { Ok(()) } else { Err(self.at(place)) }
    }
}

impl Refusal {
    pub fn question(self) -> u32
        ensures { result ≡ self.question }
    {
        self.question
    }

    pub fn place(self) -> usize
        ensures { result ≡ self.place }
    {
        self.place
    }
}

impl fmt::Display for Refusal {
    fn fmt<W: fmt::Write>(&self, f: &mut fmt::Formatter<W>) -> fmt::Result {
        write!(f, "{} {}", self.question(), self.place())
    }
}

impl Error for Refusal {}
