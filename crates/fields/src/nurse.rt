// A nurse's numbers: seven duties, least and most nights, least and most rests, the marks. Each is read from any numbers that reach it, and from
// her part of an accepted ward: the first are public and ask for no more than a length.
ghost use Rattle.std.specs.Prelude.{◌≡◌, ℕ, suc, ◌+◌, ◌≤◌, ◌<◌, length};
ghost use Rattle.fields.specs.Sizes.{day_places};
ghost use Rattle.fields.specs.Fields as of;
ghost use Rattle.fields.specs.Fields.{Block};

// Duties and marks are the file's numbers, and the documents tell them by these. No enum of either: the public functions that judge by a mark or by a row
// of duties take any numbers (`rows::is_available`, `days::rule::windows_hold`), and a narrower type asks more.

// The duty of one of the seven days, oldest first.
pub fn duty(numbers: &[u64], k: usize) -> u64
    requires { (k < 7) × (7 ≤ length numbers.now) }
    ensures { result ≡ of.duty numbers.now k }
{
    numbers[k]
}

// The duty of day 0.
pub fn last_duty(numbers: &[u64]) -> u64
    requires { 7 ≤ length numbers.now }
    ensures { result ≡ of.duty numbers.now 6 }
{
    numbers[6]
}

pub fn least_nights(numbers: &[u64]) -> u64
    requires { 11 ≤ length numbers.now }
    ensures { result ≡ of.least_nights_of numbers.now }
{
    numbers[7]
}

pub fn most_nights(numbers: &[u64]) -> u64
    requires { 11 ≤ length numbers.now }
    ensures { result ≡ of.most_nights_of numbers.now }
{
    numbers[8]
}

pub fn least_rests(numbers: &[u64]) -> u64
    requires { 11 ≤ length numbers.now }
    ensures { result ≡ of.least_rests_of numbers.now }
{
    numbers[9]
}

pub fn most_rests(numbers: &[u64]) -> u64
    requires { 11 ≤ length numbers.now }
    ensures { result ≡ of.most_rests_of numbers.now }
{
    numbers[10]
}

// The mark of the day of index d.
pub fn mark(numbers: &[u64], d: usize) -> u64
    requires { 11 + d < length numbers.now }
    ensures is { result ≡ of.mark_on numbers.now (suc d) }
    ensures small { (n : ℕ) → Block numbers.now n → result < 7 }
{
    numbers[11 + d]
}

// Her part of an accepted ward's numbers, and the days of the month.
#[derive(Clone, Copy)]
pub struct Nurse<'a> {
    pub numbers: &'a [u64],
    pub days: usize,
    pub ghost block: { Block numbers.now days },
    pub ghost month: { days ≤ day_places },
}

impl Nurse<'_> {
    // The duty of one of the seven days, oldest first.
    pub fn duty(&self, k: usize) -> u64
        requires { k < 7 }
        ensures { result ≡ of.duty self.now.numbers.now k }
    {
        duty(self.numbers, k)
    }

    // The duty of day 0.
    pub fn last_duty(&self) -> u64
        ensures { result ≡ of.duty self.now.numbers.now 6 }
    {
        last_duty(self.numbers)
    }

    pub fn least_nights(&self) -> u64
        ensures { result ≡ of.least_nights_of self.now.numbers.now }
    {
        least_nights(self.numbers)
    }

    pub fn most_nights(&self) -> u64
        ensures { result ≡ of.most_nights_of self.now.numbers.now }
    {
        most_nights(self.numbers)
    }

    pub fn least_rests(&self) -> u64
        ensures { result ≡ of.least_rests_of self.now.numbers.now }
    {
        least_rests(self.numbers)
    }

    pub fn most_rests(&self) -> u64
        ensures { result ≡ of.most_rests_of self.now.numbers.now }
    {
        most_rests(self.numbers)
    }

    // The mark of the day of index d.
    pub fn mark(&self, d: usize) -> u64
        requires { d < self.now.days }
        ensures is { result ≡ of.mark_on self.now.numbers.now (suc d) }
        ensures small { result < 7 }
    {
        mark(self.numbers, d)
    }
}
