// How many a ward's arrays hold, each said once here and once in specs/Sizes.antt.

// The nurses of a ward at most.
pub const NURSES: usize = 48;
// The days of a month at most.
pub const DAYS: usize = 31;
// The days of a nurse's row: the seven before the month, and the month's.
pub const ROW: usize = 38;
// The removals that a record keeps.
pub const REMOVALS: usize = 64;
// The pairs of days off at most, with the number 0, which no pair has.
pub const PAIRS: usize = 11;
// The numbers of a ward, with room for the editions to come.
pub const NUMBERS: usize = 4441;
// The letters of a roster at most: those of 48 nurses and 31 days.
pub const LETTERS: usize = 1488;
// Where the lists of the nurses end, and where the first begins.
pub const ENDS: usize = 49;
