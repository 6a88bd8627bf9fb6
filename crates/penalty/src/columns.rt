// The columns of a month: who counts at night and by day, nurse i as bit i.
ghost use Rattle.std.specs.Prelude.{◌≡◌, ℕ, ◌<◌, ◌≤◌, length};
ghost use Rattle.fields.specs.Sizes.{day_places};
ghost use Rattle.penalty.specs.CodeColumns.{Empty, NursePut, PutAt};

use fields::sizes::DAYS;
use numbers::Set;

// Two arrays, since the margins of a duty go over one of them alone.
#[derive(Clone, Copy, Default)]
pub struct Columns {
    pub night: [u64; DAYS],
    pub day: [u64; DAYS],
}

// The two sets of days in which a nurse counts: at night, and available or working.
#[derive(Clone, Copy)]
pub struct Sets {
    pub nights: u32,
    pub available: u32,
}

impl Columns {
    // Nobody on duty.
    pub fn empty() -> Columns
        ensures { Empty result }
    {
        Columns::default()
    }

    // The columns of n days with nurse i's.
    pub fn with_nurse(mut self, n: usize, i: usize, sets: Sets) -> Columns
        requires { (n ≤ day_places) × (i < 64) }
        ensures { NursePut self result n i sets.nights sets.available }
    {
        put(&mut self.night, n, i, sets.nights);
        put(&mut self.day, n, i, sets.available);
        self
    }
}

// Nurse i in the columns of n days as the set says, and out of the others.
pub fn put(cols: &mut [u64; DAYS], n: usize, i: usize, set: u32)
    requires { (n ≤ day_places) × (i < 64) }
    ensures put { (d : ℕ) → d < n → PutAt cols.old cols.new i set d }
    ensures long { length cols.new ≡ day_places }
{
    for (d, col) in cols[..n].iter_mut().enumerate() {
        *col = numbers::put_bit(*col, i, set.has(d));
    }
}
