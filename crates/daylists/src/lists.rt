// All nurses' day lists in one buffer, each in the part that begins where the last one ends.
ghost use Rattle.std.specs.Prelude.{◌≡◌, ◌++◌, ◌≤◌, length, drop};
ghost use Rattle.fields.specs.Fields.{nurses};
ghost use Rattle.daylists.specs.Lists.{up_to, day_lists};
ghost use Rattle.daylists.specs.CodeLists.{Counted};

use crate::reach::WAYS;
use crate::walk::Counting;
use fields::Body;
use fields::sizes::{ENDS, NURSES};

// The first nurse, from 0, whose list does not end within the places, and where the lists before hers begin and end.
#[derive(Clone, Copy)]
pub struct Over {
    pub nurse: usize,
    pub ends: [usize; ENDS],
}

// Where the lists begin and end: nurse i's is from place i of the answer to place i + 1.
// Not inlined, here and below: the table would stay on the stack while steps are made.
#[inline(never)]
pub fn lists_count(w: &Body, nights: &[u64; NURSES], places: usize) -> Result<[usize; ENDS], Over>
    ensures { Counted (day_lists w.now.numbers.now nights.now) (nurses w.now.numbers.now) places result }
{
    let m = w.nurses();
    let mut ends = [0usize; ENDS];
    let mut ways = [0u64; WAYS];
    let mut at: usize = 0;
    for i in 0..m {
        let room = places - at;
        // No list is as long as the largest number, so that it never cuts one.
        let mut list = Counting(room.saturating_add(1));
        let found = crate::day_list(&w.nurse_at(i), nights[i], &mut ways, &mut list);
        if room < found {
            return Err(Over { nurse: i, ends });
        }
        at += found;
        ends[i + 1] = at;
    }
    Ok(ends)
}

// Writes all lists, where there is room.
#[inline(never)]
pub fn lists_fill(w: &Body, nights: &[u64; NURSES], buf: &mut [u32]) -> usize
    requires w_in_bounds { length (up_to (day_lists w.now.numbers.now nights.now) (nurses w.now.numbers.now)) ≤ length buf.old }
    ensures value { result ≡ length (up_to (day_lists w.now.numbers.now nights.now) (nurses w.now.numbers.now)) }
    ensures buf_after { buf.new ≡ up_to (day_lists w.now.numbers.now nights.now) (nurses w.now.numbers.now) ++ drop (length (up_to (day_lists w.now.numbers.now nights.now) (nurses w.now.numbers.now))) buf.old }
{
    let m = w.nurses();
    let mut ways = [0u64; WAYS];
    let mut used: usize = 0;
    for i in 0..m {
        used += crate::day_fill(&w.nurse_at(i), nights[i], &mut ways, &mut buf[used..]);
    }
    used
}
