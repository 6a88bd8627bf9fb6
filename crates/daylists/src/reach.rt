// Where a pattern may remain: for each day and each choice of the seven days from it on, the counts of rests with which these and
// some choice of the days before them meet the rules. The walk goes only there.
ghost use Rattle.std.specs.Prelude.{◌≡◌, cond, ◌+◌, ◌-◌, ◌*◌, ◌^◌, ◌≤◌, ◌<◌};
ghost use Rattle.numbers.specs.Sum.{one_if};
ghost use Rattle.days.specs.CodeMonth.{rest_on};
ghost use Rattle.daylists.specs.CodeWalk.{step_holds, first_hold, reach, Filled, Idle};

use days::month::Sheet;
use days::rule;

// The table's places: 128 for each day of the month, and for the one after it.
// No `[[u64; 128]; 32]`: what the loop over a day's choices keeps would say of each row too how long it is, and of one array it is said once.
pub(crate) const WAYS: usize = 4096;

// `d ≤ days` in four functions, and no type for such a day: `write_table` alone makes it, by its loop.

// The day six days after day d, if it is in the month: it is as it may be in the choice of q, and the windows hold that end on it.
#[inline(always)]
#[tactic(auto, unfolding(crate::specs::CodeWalk::step_holds))]
fn step_holds(sheet: &Sheet, d: usize, q: u64) -> bool
    requires { d ≤ sheet.now.month.days }
    ensures { result ≡ step_holds sheet.now.month sheet.now.row d q }
{
    sheet.month.days < d + 7 || sheet.month.may_choose(q, d + 6) && sheet.windows_hold(q, d + 13)
}

// The first six days are as they may be, and the windows hold that end on them.
fn first_hold(sheet: &Sheet, s: u64) -> bool
    ensures { result ≡ first_hold sheet.now.month sheet.now.row s }
{
    let six = sheet.month.days.min(6);
    (0..six).all(|d| sheet.month.may_choose(s, d)) && sheet.all_windows_hold(s, six)
}

// For the six days from day d on chosen as in s, the counts of rests with which some choice of the days before d meets the rules:
// for the first six those within her bounds, else by the table's places for the day before, not worked, so with its rest, and
// worked, which is none.
fn reached(sheet: &Sheet, ways: &[u64; WAYS], d: usize, rest: bool, s: u64) -> u64
    requires d_le_days { d ≤ sheet.now.month.days }
    requires rest_is { 0 < d → one_if rest ≡ rest_on sheet.now.row 0 (d - 1) }
    requires s_bound { s < 64 }
    requires in_month { s < 2 ^ (sheet.now.month.days - d) }
    requires filled { Filled sheet.now.month sheet.now.row ways.now (64 * d) }
    ensures { result ≡ reach sheet.now.month sheet.now.row d s }
{
    if d == 0 {
        return if first_hold(sheet, s) {
            sheet.month.within
        } else {
            0
        };
    }
    let low = 128 * (d - 1) + 2 * s as usize;
    (ways[low] >> u64::from(rest)) | ways[low + 1]
}

// The counts found for six days from day d on, for the seven days chosen as in x: none where day d's step does not hold.
// Inlined, with what it calls: it runs for each place of the table.
#[inline(always)]
fn kept(sheet: &Sheet, d: usize, x: u64, found: u64) -> u64
    requires d_le_days { d ≤ sheet.now.month.days }
    requires x_bound { x < 128 }
    ensures { result ≡ cond (step_holds sheet.now.month sheet.now.row d (x * 2 ^ d)) found 0 }
{
    if found != 0 && step_holds(sheet, d, x << d) {
        found
    } else {
        0
    }
}

// Writes the places of day d: for each choice of the next six days of the month, without the seventh and with it.
fn write_day(sheet: &Sheet, d: usize, ways: &mut [u64; WAYS])
    requires d_le_days { d ≤ sheet.now.month.days }
    requires filled { Filled sheet.now.month sheet.now.row ways.old (64 * d) }
    ensures { Filled sheet.now.month sheet.now.row ways.new (64 * d + 64) }
{
    let rest = d > 0 && rule::rests_on(&sheet.row, 0, d - 1);
    let top = (1usize << (sheet.month.days - d)).min(64);
    for s in 0..top {
        let found = reached(sheet, ways, d, rest, s as u64);
        let low = 128 * d + s;
        ways[low] = kept(sheet, d, s as u64, found);
        ways[low + 64] = kept(sheet, d, s as u64 + 64, found);
    }
}

// Writes the whole table over what stands in it. What it does not write the walk never reads.
pub(crate) fn write_table(sheet: &Sheet, ways: &mut [u64; WAYS])
    ensures { Filled sheet.now.month sheet.now.row ways.new (64 * sheet.now.month.days + 64) }
{
    for d in 0..=sheet.month.days {
        write_day(sheet, d, ways);
    }
}

// The days that are a rest where they are not worked.
pub(crate) fn idle_days(sheet: &Sheet) -> u64
    ensures { Idle sheet.now.row sheet.now.month.days result }
{
    numbers::set_of(sheet.month.days, |d| rule::rests_on(&sheet.row, 0, d))
}
