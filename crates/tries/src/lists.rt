// What is tried of a nurse: a list, and what her trials go by beside it.
ghost use Rattle.std.specs.Prelude.{◌≡◌, ◌+◌, ◌*◌, ◌≤◌};
ghost use Rattle.fields.specs.Sizes.{nurse_places};

use fields::WardNurse;
use penalty::Penalty;

// A list that a nurse tries: her own, or by night the common one with hers among it.
#[derive(Clone, Copy)]
pub enum Offered<'a> {
    Own(&'a [u32]),
    Common(&'a [u32]),
}

// What is tried of a nurse: her list; the days that she may work where they are open; the starts before her month; what is barred for her; and how many
// others are unplaced.
#[derive(Clone, Copy)]
pub struct Tried<'a> {
    pub nurse: WardNurse<'a>,
    pub list: Offered<'a>,
    pub workable: u32,
    pub before: u64,
    pub barred: &'a [u64],
    pub others: u64,
    pub ghost others_most: { others ≤ nurse_places },
}

impl Tried<'_> {
    // What an exchange of hers costs with the others who are unplaced, where the ward's days cost so much.
    pub(crate) fn in_all(&self, days: u32) -> u64
        ensures { result ≡ days + 10000000 * self.now.others }
    {
        u64::from(days) + Penalty::UNPLACED * self.others
    }
}
