// Everyone's own night patterns of the common list, once an advance: as stretches of a lent array, as far as they fit, and then as its parts.
#![tactic(auto)]

ghost use Rattle.std.specs.Prelude.{◌≡◌, List, ℕ, ◌++◌, ◌-◌, cond, eqb, ◌≤◌, ◌<◌, length, get_or, take, drop};
ghost use Rattle.numbers.specs.Range.{filter};
ghost use Rattle.nights.specs.Nights.{common_of};
ghost use Rattle.nights.specs.Hers.{hers_of};
ghost use Rattle.fields.specs.Sizes.{nurse_places};
ghost use Rattle.ownlists.specs.declared.Place.TheVariants.{Whole, Among};
ghost use Rattle.ownlists.specs.CodeOwn.{OwnLists, OwnPlaces, LentAt, no_list, no_place};

use fields::Body;
use fields::sizes::NURSES;
use nursemasks::masks::NurseMasks;
use std::array;

// A stretch of the lent array, up to before `end`.
#[derive(Clone, Copy)]
pub struct Stretch {
    pub begin: usize,
    pub end: usize,
}

// Where a nurse's own patterns stand. Three cases, so no Option.
#[derive(Clone, Copy)]
pub enum Place {
    // Among the common list.
    Among,
    // They are all of the common list.
    Whole,
    // In the lent array.
    Kept(Stretch),
}

// That, the days that she may work where they are open, and the starts of the two days before the month.
#[derive(Clone, Copy)]
pub struct OwnPlace {
    pub place: Place,
    pub workable: u32,
    pub before: u64,
}

// The same, for who reads the array.
#[derive(Clone, Copy)]
pub enum Source<'a> {
    Among,
    Whole,
    // A part of the lent array, or by day of the lists.
    Kept(&'a [u32]),
}

// That, and the rest as in `OwnPlace`. By day nothing goes by the last two, which are 0: no Option, since one plan serves both
// searches, and a step reads it by one function.
#[derive(Clone, Copy)]
pub struct OwnList<'a> {
    pub source: Source<'a>,
    pub workable: u32,
    pub before: u64,
}

// How many of the common list are hers; they are written from the array's start where they fit.
fn own_fill(her: &NurseMasks, list: &[u32], own: &mut [u32]) -> usize
    requires { list.now ≡ common_of her.now.nurse.ward.numbers.now }
    ensures counted { result ≡ length (filter (hers_of her.now.nurse.ward.numbers.now her.now.nurse.index) list.now) }
    ensures written { result ≤ length own.old → own.new ≡ filter (hers_of her.now.nurse.ward.numbers.now her.now.nurse.index) list.now ++ drop result own.old }
{
    // No `filter`: std's law of it asks what the test answers for every number, and `passes` says it of the common list's alone.
    let mut at: usize = 0;
    for p in list {
        if her.passes(*p) {
            if at < own.len() {
                own[at] = *p;
            }
            at += 1;
        }
    }
    at
}

// Where `count` patterns stand that are not kept, of `all` in the common list.
fn unkept(count: usize, all: usize) -> Place
    ensures { result ≡ cond (eqb count all) Whole Among }
{
    if count == all {
        Place::Whole
    } else {
        Place::Among
    }
}

// Everyone's. No slices yet: they would borrow the array, and no clause could say what it holds then.
pub fn own_lists(w: &Body, list: &[u32], own: &mut [u32]) -> [OwnPlace; NURSES]
    requires { list.now ≡ common_of w.now.numbers.now }
    ensures { OwnPlaces w.now.numbers.now list.now own.new result }
{
    let mut lists = [OwnPlace {
        place: Place::Among,
        workable: 0,
        before: 0,
    }; NURSES];
    let mut at: usize = 0;
    for i in 0..w.nurses() {
        let her = nursemasks::masks::masks_of(&w.nurse_at(i));
        let room = own.len() - at;
        let count = own_fill(&her, list, &mut own[at..]);
        let workable = (her.masks.workable / 2) as u32;
        let before = 2 * her.masks.night + her.masks.second;
        let mut place = unkept(count, list.len());
        if count <= room {
            place = Place::Kept(Stretch {
                begin: at,
                end: at + count,
            });
            at += count;
        }
        lists[i] = OwnPlace {
            place,
            workable,
            before,
        };
    }
    lists
}

// The stretch of the array: nothing where the array doesn't reach.
fn part(own: &[u32], stretch: Stretch) -> &[u32]
    ensures { stretch.begin ≤ stretch.end → stretch.end ≤ length own.now → result.now ≡ take (stretch.end - stretch.begin) (drop stretch.begin own.now) }
{
    let part = own.get(stretch.begin..stretch.end);
    part.unwrap_or_default()
}

// Nurse i's, of the array.
fn lent_at<'a>(own: &'a [u32], places: &[OwnPlace; NURSES], i: usize) -> OwnList<'a>
    requires { i < nurse_places }
    ensures { LentAt own.now (get_or places.now i no_place) result }
{
    let at = places[i];
    let source = match at.place {
        Place::Among => Source::Among,
        Place::Whole => Source::Whole,
        Place::Kept(stretch) => Source::Kept(part(own, stretch)),
    };
    OwnList {
        source,
        workable: at.workable,
        before: at.before,
    }
}

// Everyone's, with the stretches cut from the array.
pub fn lent<'a>(own: &'a [u32], places: &[OwnPlace; NURSES]) -> [OwnList<'a>; NURSES]
    ensures cut { (i : ℕ) → i < nurse_places → LentAt own.now (get_or places.now i no_place) (get_or result i no_list) }
    ensures hers { (w list : List ℕ) → OwnPlaces w list own.now places.now → OwnLists w list result }
{
    array::from_fn(|i| lent_at(own, places, i))
}
