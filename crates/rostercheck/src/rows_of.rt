// Whether each row of a roster follows from patterns.
ghost use Rattle.std.specs.Prelude.{◌≡◌, ◌≤◌, length};
ghost use Rattle.numbers.specs.Range.{up_from, all, any_of};
ghost use Rattle.fields.specs.Sizes.{day_places, pair_most};
ghost use Rattle.fields.specs.Fields.{nurses, days};
ghost use Rattle.rows.specs.Pairs.{pair_numbers};
ghost use Rattle.rostercheck.specs.CodeCheck.{letters_in, same_row, pair_holds, row_holds, row_of_holds};

use crate::roster::Letters;
use fields::WardNurse;
use fields::nurse::Nurse;
use numbers::pattern;

// The days with this letter in a row.
fn days_with(row: &[u8], c: u8) -> u32
    requires { length row.now ≤ day_places }
    ensures { result ≡ letters_in row.now c (length row.now) }
{
    numbers::set_of(row.len(), |d| row[d] == c) as u32
}

// Whether a row has the letters of night pattern p and day pattern q.
fn same_row(b: &Nurse, row: &[u8], p: u32, q: u32) -> bool
    requires { length row.now ≡ b.now.days }
    ensures { result ≡ same_row b.now.numbers.now b.now.days row.now p q }
{
    let letters = letters::written::row_letters(b, p, q);
    row == &letters[..b.days]
}

// Whether pair k is hers under the night pattern p, and q a day pattern of hers over both.
fn pair_holds(her: &WardNurse, p: u32, q: u32, k: usize) -> bool
    requires { k ≤ pair_most }
    ensures { result ≡ pair_holds her.now.ward.numbers.now her.now.index p q k }
{
    rows::pairs::pair_fits(her, p, k) && days::is_day_pattern(her, pattern::of(p, k as u32), q)
}

// Whether that holds of some pair of the ward; in a ward without pairs, of the number 0. Half-open, as in days/src/rule.rt.
fn some_pair_holds(her: &WardNurse, p: u32, q: u32) -> bool
    ensures { result ≡ any_of (pair_holds her.now.ward.numbers.now her.now.index p q) (pair_numbers her.now.ward.numbers.now) }
{
    let count = her.ward.pair_count();
    if count == 0 {
        return pair_holds(her, p, q, 0);
    }
    (1..count + 1).any(|k| pair_holds(her, p, q, k))
}

// The nurse's row: its N days are a night pattern of hers, its day duties a day pattern of hers over it and a pair of hers, and its letters theirs.
#[tactic(auto, unfolding(crate::specs::CodeCheck::row_holds, letters::specs::Letters::letter))]
fn row_holds(her: &WardNurse, row: &[u8]) -> bool
    requires { length row.now ≡ days her.now.ward.numbers.now }
    ensures { result ≡ row_holds her.now.ward.numbers.now her.now.index row.now }
{
    let p = days_with(row, b'N');
    let q = days_with(row, b'-');
    nights::is_hers(her, p) && some_pair_holds(her, p, q) && same_row(&her.numbers(), row, p, q)
}

// Every nurse's row.
pub(crate) fn rows_hold(r: &Letters) -> bool
    ensures { result ≡ all (row_of_holds r.now.ward.numbers.now r.now.letters.now) (up_from 0 (nurses r.now.ward.numbers.now)) }
{
    (0..r.ward.nurses()).all(|i| row_holds(&r.ward.nurse_at(i), r.row(i)))
}
