// Sets of small numbers as one number, and counts of their members.
#![tactic(auto)]

pub mod pattern;

ghost use Rattle.std.specs.Prelude.{◌≡◌, Bool, cond, ◌&&◌, ℕ, ◌+◌, ◌^◌, ◌<◌, ◌≤◌};
ghost use Rattle.numbers.specs.Sum.{count_to, one_if, Is};
ghost use Rattle.numbers.specs.Digits.{has, put, number_of};

// A set as one number: i is in it where digit i is set.
pub trait Set: Copy {
    ghost number: { Self → ℕ };

    // How many digits there are.
    ghost places: { ℕ };

    // Whether i is in the set.
    fn has(self, i: usize) -> bool
        requires { i < places }
        ensures { result ≡ has (number self) i };

    // How many are in the set.
    fn ones(self) -> u64
        ensures by_index { (n : ℕ) → number self < 2 ^ n → result ≡ count_to n (has (number self)) }
        ensures upper_bound { result ≤ places };
}

impl Set for u32 {
    ghost number = { λ x. x };

    ghost places = { 32 };

    fn has(self, i: usize) -> bool {
        u64::from(self).has(i)
    }

    #[tactic(auto, using(crate::proofs::DigitLaws::ones_count))]
    fn ones(self) -> u64 {
        u64::from(self.count_ones())
    }
}

impl Set for u64 {
    ghost number = { λ x. x };

    ghost places = { 64 };

    fn has(self, i: usize) -> bool {
        (self >> i) % 2 == 1
    }

    #[tactic(auto, using(crate::proofs::DigitLaws::ones_count))]
    fn ones(self) -> u64 {
        self.count_ones() as u64
    }
}

// The set of i alone.
pub fn bit(i: u64) -> u32
    requires { i < 32 }
    ensures { result ≡ 2 ^ i }
{
    1u32 << i
}

// The set of the numbers below n that pass the test.
pub fn set_of<F: Fn(usize) -> bool>(n: usize, test: F) -> u64
    requires few { n ≤ 63 }
    requires callable { (i : ℕ) → i < n → F.pre test i }
    ensures set { (t : ℕ → Bool) → ((i : ℕ) (b : Bool) → i < n → F.post test i b → b ≡ t i) → result ≡ number_of t n }
    ensures below { result < 2 ^ n }
{
    let mut set: u64 = 0;
    for i in 0..n {
        set |= u64::from(test(i)) << i;
    }
    set
}

// How many are in the column: `ones` of 64 places, with the bound that sums of it want.
pub fn on_duty(column: u64) -> u64
    ensures { Is result (count_to 64 (has column)) 64 }
{
    column.ones()
}

// How many are in both the column and the group.
pub fn members(column: u64, group: u64) -> u64
    ensures { Is result (count_to 64 (λ i. has column i && has group i)) 64 }
{
    (column & group).ones()
}

// The column with i put in or taken out.
pub fn put_bit(column: u64, i: usize, on: bool) -> u64
    requires { i < 64 }
    ensures { has result ≡ put (has column) i on }
{
    if on {
        column | (1u64 << i)
    } else {
        column & !(1u64 << i)
    }
}
