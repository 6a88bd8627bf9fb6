// The questions of documents 01 and 02, in their order.
ghost use Rattle.std.specs.Prelude.{◌≡◌};
ghost use Rattle.refusals.specs.Numbers.{number};

#[derive(Clone, Copy, Debug, PartialEq, Eq)]
pub enum Question {
    // Is there a whole number here, ended within the file?
    Whole = 1,
    // Is it in at most 7 groups and shortest?
    Shortest = 2,
    // Is it in its field's range?
    Range = 3,
    // Does it fit the duty before it?
    Duty = 4,
    // Does the file end after the last number?
    End = 5,
    // Is the byte buffer long enough?
    Bytes = 6,
    // Is k allowed, and is steps so far plus k at most 1,000,000?
    Steps = 7,
    // For days: is each night pattern hers, at night penalty 0?
    Nights = 8,
    // Does the buffer hold the list or lists?
    Lists = 9,
    // Has every nurse a pattern?
    Patterns = 10,
    // Is the record one of this ward's?
    Record = 11,
    // Are there m times n letters of the five?
    Letters = 12,
    // Has the storage room for eight records, is the number 1 to 8 and, on a return, is something kept under it?
    Storage = 13,
}

// Its number in the documents.
impl From<Question> for u32 {
    ghost from_gives = { λ question n. n ≡ number question };

    fn from(question: Question) -> u32 {
        question as u32
    }
}
