// A pattern as one number: a set of days, and the number of a pair of days off, 0 where there is none. Not a struct of both: a record's
// patterns, and the nights that the days are over, come in as numbers of any value (document 01), and public functions take them so.
ghost use Rattle.std.specs.Prelude.{◌≡◌};
ghost use Rattle.numbers.specs.Patterns.{pattern, days_of, pair_of};

// The pair numbers, that is the patterns of one set of days.
const PAIR_NUMBERS: u64 = 4294967296;

pub fn of(days: u32, pair: u32) -> u64
    ensures { result ≡ pattern days pair }
{
    (days as u64) * PAIR_NUMBERS + pair as u64
}

pub fn days_of(c: u64) -> u32
    ensures { result ≡ days_of c }
{
    (c / PAIR_NUMBERS) as u32
}

pub fn pair_of(c: u64) -> u32
    ensures { result ≡ pair_of c }
{
    (c % PAIR_NUMBERS) as u32
}
