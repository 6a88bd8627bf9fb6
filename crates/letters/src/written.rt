// The roster that a choice of patterns makes.
ghost use Rattle.std.specs.Prelude.{◌≡◌, ℕ, suc, ◌+◌, ◌≤◌, ◌<◌, get_or};
ghost use Rattle.std.proofs.Math.Seq.{paste};
ghost use Rattle.numbers.specs.Patterns.{days_of};
ghost use Rattle.fields.specs.Sizes.{letter_places};
ghost use Rattle.rows.specs.Rows.{duty_on};
ghost use Rattle.letters.specs.Letters.{letter, row_letters_of};
ghost use Rattle.letters.specs.CodeRoster.{Written};

use fields::Body;
use fields::nurse::Nurse;
use fields::sizes::{DAYS, LETTERS, NURSES};
use numbers::{Set, pattern};

// Its letters from the start, 0 after them, and how many there are.
// An array with its count beside it, since there is no heap and the C interface gives out both.
#[derive(Clone, Copy, Default)]
pub struct Roster {
    pub letters: [u8; LETTERS],
    pub count: usize,
}

// The letters of the row of night pattern p and day pattern q, and 0 after them.
pub fn row_letters(b: &Nurse, p: u32, q: u32) -> [u8; DAYS]
    ensures { (d : ℕ) → d < b.now.days → get_or result d 0 ≡ letter (duty_on b.now.numbers.now p q (suc d)) }
{
    let states = rows::states(b.numbers, b.days, p);
    let mut row = [0u8; DAYS];
    for d in 0..b.days {
        let duty = states[d].duty(b.mark(d), q.has(d));
        row[d] = crate::letter_of(duty as usize);
    }
    row
}

impl Roster {
    // One row more, that of night pattern p and day pattern q.
    fn add_row(&mut self, b: &Nurse, p: u32, q: u32)
        requires { self.old.count + b.now.days ≤ letter_places }
        ensures { (self.new.letters ≡ paste self.old.letters self.old.count (row_letters_of b.now.numbers.now b.now.days p q) b.now.days) × (self.new.count ≡ self.old.count + b.now.days) }
    {
        let n = b.days;
        let row = row_letters(b, p, q);
        let end = self.count + n;
        self.letters[self.count..end].copy_from_slice(&row[..n]);
        self.count = end;
    }
}

// The roster of everyone's night and day pattern. A pair's days are rests where nothing is worked on them.
pub fn roster_of(w: &Body, nights: [u64; NURSES], worked: [u64; NURSES]) -> Roster
    ensures { Written w.now.numbers.now (λ i. days_of (get_or nights i 0)) (λ i. days_of (get_or worked i 0)) result }
{
    let mut roster = Roster::default();
    for i in 0..w.nurses() {
        let p = pattern::days_of(nights[i]);
        let q = pattern::days_of(worked[i]);
        roster.add_row(&w.nurse(i), p, q);
    }
    roster
}
