// A day's numbers: night need, day need, then for each group night low, night high, day low, day high.
ghost use Rattle.std.specs.Prelude.{◌≡◌, ◌+◌, ◌*◌, ◌≤◌, length};
ghost use Rattle.fields.specs.Shifts.{place};
ghost use Rattle.fields.specs.Fields as of;

// The two shifts of a day.
#[derive(Clone, Copy, Debug, PartialEq, Eq)]
pub enum Shift {
    Night = 0,
    Day = 1,
}

// Of a group by night or by day.
#[derive(Clone, Copy)]
pub struct Bounds {
    pub low: u64,
    pub high: u64,
}

pub fn need(needs: &[u64], shift: Shift) -> u64
    requires { 2 ≤ length needs.now }
    ensures { result ≡ of.need needs.now (place shift) }
{
    needs[shift as usize]
}

// Of the group of index g.
pub fn bounds_of(needs: &[u64], shift: Shift, g: usize) -> Bounds
    requires { 4 * g + 6 ≤ length needs.now }
    ensures { (result.low ≡ of.low needs.now (place shift) g) × (result.high ≡ of.high needs.now (place shift) g) }
{
    let at = 4 * g + 2 * shift as usize;
    Bounds {
        low: needs[at + 2],
        high: needs[at + 3],
    }
}
