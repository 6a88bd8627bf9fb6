// Day lists over one choice of nights and pairs: a nurse's list, and all nurses' lists in one buffer.
#![tactic(auto)]

pub mod lists;
mod reach;
mod walk;

ghost use Rattle.std.specs.Prelude.{◌≡◌, ◌++◌, ◌≤◌, min, length, drop};
ghost use Rattle.days.specs.Days.{day_list};
ghost use Rattle.daylists.specs.CodeWalk.{PutFrom};

use fields::WardNurse;
use reach::WAYS;
use walk::{Listing, Reach, Writing};

// Puts her day list at the places from the first one on, as far as there are places, and answers how many are taken. The table
// lent may hold anything.
pub(crate) fn day_list<L: Listing>(
    her: &WardNurse,
    c: u64,
    ways: &mut [u64; WAYS],
    list: &mut L,
) -> usize
    ensures value { result ≡ min (L.places list.old) (length (day_list her.now.ward.numbers.now her.now.index c)) }
    ensures places { L.places list.new ≡ L.places list.old }
    ensures written { length (day_list her.now.ward.numbers.now her.now.index c) ≤ L.places list.old → PutFrom L.Put list.old 0 (day_list her.now.ward.numbers.now her.now.index c) list.new }
{
    let sheet = days::nurse_sheet(her, c);
    reach::write_table(&sheet, ways);
    let reach = Reach {
        ways,
        idle: reach::idle_days(&sheet),
    };
    reach.walk(sheet.month.days, 0, 0, 0, list)
}

// Writes her day list from the buffer's start, which has the room. The table lent may hold anything.
// No call of `day_list` in place: of a part of the buffer that was lent within a struct the proof does not know what is in it after.
pub(crate) fn day_fill(her: &WardNurse, c: u64, ways: &mut [u64; WAYS], buf: &mut [u32]) -> usize
    requires c_in_bounds { length (day_list her.now.ward.numbers.now her.now.index c) ≤ length buf.old }
    ensures value { result ≡ length (day_list her.now.ward.numbers.now her.now.index c) }
    ensures buf_after { buf.new ≡ day_list her.now.ward.numbers.now her.now.index c ++ drop (length (day_list her.now.ward.numbers.now her.now.index c)) buf.old }
{
    day_list(her, c, ways, &mut Writing { list: buf })
}
