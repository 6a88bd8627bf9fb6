// The letters of a roster, in the rows and the columns that the check reads.
ghost use Rattle.std.specs.Prelude.{◌≡◌, ◌*◌, ◌<◌, length};
ghost use Rattle.numbers.specs.Digits.{has};
ghost use Rattle.fields.specs.Fields.{nurses, days};
ghost use Rattle.penalty.specs.CodeColumns.{Same};
ghost use Rattle.rostercheck.specs.Check.{row_of, lettered};

use fields::Body;

// Those of a ward, row after row.
#[derive(Clone, Copy)]
pub(crate) struct Letters<'a> {
    pub(crate) ward: Body<'a>,
    pub(crate) letters: &'a [u8],
    pub(crate) ghost size: { length letters.now ≡ nurses ward.numbers.now * days ward.numbers.now },
}

impl Letters<'_> {
    // The row of the nurse of index i.
    pub(crate) fn row(&self, i: usize) -> &[u8]
        requires { i < nurses self.now.ward.numbers.now }
        ensures { (result.now ≡ row_of self.now.ward.numbers.now self.now.letters.now i) × (length result.now ≡ days self.now.ward.numbers.now) }
    {
        let n = self.ward.days();
        let a = i * n;
        &self.letters[a..a + n]
    }

    // The nurses with this letter on the day of index d.
    pub(crate) fn column(&self, d: usize, c: u8) -> u64
        requires { d < days self.now.ward.numbers.now }
        ensures { Same (nurses self.now.ward.numbers.now) (has result) (lettered self.now.letters.now (days self.now.ward.numbers.now) d c) }
    {
        let n = self.ward.days();
        numbers::set_of(self.ward.nurses(), |i| self.letters[i * n + d] == c)
    }
}
