// The sums of six days, for all starts that they depend on: day by day, each doubling the places.
// These take the places and not a table, since between two days of a six some are larger than a table's may be.
ghost use Rattle.std.specs.Prelude.{◌≡◌, ◌⊎◌, length, ◌+◌, ◌*◌, ◌≤◌, ◌<◌};
ghost use Rattle.tables.specs.CodeTables.{Low, Raised, Extended, Cleared, SixSummed};

use crate::SUM_PLACES;
use crate::costs::{COST_PLACES, NONE, OPEN};

// In so many places from `to` on: those from `from` on, which are the same or lie before them, with x more. By index: where they are the
// same no two slices of them can be lent to a `zip`.
fn raise(t: &mut [u32; SUM_PLACES], from: usize, to: usize, count: usize, x: u32)
    requires apart { (from ≡ to) ⊎ (from + count ≤ to) }
    requires small { (to + count ≤ 1536) × (x ≤ 371200) × Low t.old 3000000 }
    ensures { Raised t.old t.new from to count x }
{
    for y in 0..count {
        t[to + y] = t[from + y] + x;
    }
}

// One day more: `one` is the bit of the start two days before it.
fn extend(t: &mut [u32; SUM_PLACES], base: usize, one: usize, night: u32, opened: u32, none: u32)
    requires { (base + 8 * one ≤ 1536) × (night ≤ 371200) × (opened ≤ 371200) × (none ≤ 371200) × Low t.old 2227200 }
    ensures { Extended t.old t.new base one night opened none }
{
    raise(t, base, base + 4 * one, 4 * one, night);
    raise(t, base, base, one, opened);
    raise(t, base + one, base + one, 3 * one, none);
}

// The places from `from` to `to`.
pub(crate) fn clear(t: &mut [u32; SUM_PLACES], from: usize, to: usize)
    requires { (from ≤ to) × (to ≤ 1536) }
    ensures { Cleared t.old t.new from to }
{
    t[from..to].fill(0);
}

// The sums of the six days from 6 * b on.
pub(crate) fn six(t: &mut [u32; SUM_PLACES], c: &[u32; COST_PLACES], b: usize)
    requires { (b < 6) × Low c.now 371200 × Low t.old 2227200 }
    ensures { SixSummed c.now b t.old t.new }
{
    let base = 256 * b;
    // Nothing yet, whichever starts the two days before have.
    clear(t, base, base + 4);
    for j in 0..6 {
        let d = 6 * b + j;
        extend(t, base, 1 << j, c[d], c[OPEN + d], c[NONE + d]);
    }
}
