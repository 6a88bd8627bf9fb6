// The walk over the days from the last to the first, not worked before worked. The days before `left` are undecided, the others
// make the number `from`, with so many rests.
ghost use Rattle.std.specs.Prelude.{◌≡◌, ℕ, ◌+◌, ◌≤◌, ◌<◌, min, length, set};
ghost use Rattle.std.proofs.Common.{rules};
ghost use Rattle.daylists.specs.CodeWalk.{opens, walked, PutFrom, Inside};

use crate::reach::WAYS;
use numbers::Set;

// What becomes of the walk's patterns: each has a place, as far as there are places.
pub(crate) trait Listing {
    // How many places there are.
    ghost places: { Self → ℕ };

    // What q at place i makes of it.
    ghost Put: { Self → ℕ → ℕ → Self → Type 0 };

    fn places(&self) -> usize
        ensures { result ≡ places self.now };

    fn put(&mut self, i: usize, q: u32)
        requires { i < places self.old }
        ensures { Put self.old i q self.new };

    ghost keeps: { (s : Self) (i q : ℕ) (t : Self) → Put s i q t → places t ≡ places s };
}

// So many places, in which nothing is put: only how many are taken is told.
#[derive(Clone, Copy)]
pub(crate) struct Counting(pub usize);

impl Listing for Counting {
    ghost places = { λ s. s.0 };

    ghost Put = { λ s i q t. t ≡ s };

    ghost keeps = { λ s i q t e. Prim.search rules };

    fn places(&self) -> usize {
        self.0
    }

    fn put(&mut self, _i: usize, _q: u32) {}
}

// Writes each pattern at its place.
#[derive(Drop)]
pub(crate) struct Writing<'a> {
    pub list: &'a mut [u32],
}

impl Listing for Writing<'_> {
    ghost places = { λ s. length s.list.now };

    ghost Put = { λ s i q t. (t.list.ghost_name ≡ s.list.ghost_name) × (t.list.now ≡ set s.list.now i q) };

    ghost keeps = { λ s i q t e. Prim.search rules };

    fn places(&self) -> usize {
        self.list.len()
    }

    fn put(&mut self, i: usize, q: u32) {
        self.list[i] = q;
    }
}

// What the walk goes by, which stays as it is: the table, and the days that are a rest where they are not worked.
#[derive(Clone, Copy)]
pub(crate) struct Reach<'a> {
    pub ways: &'a [u64; WAYS],
    pub idle: u64,
}

impl Reach<'_> {
    // Whether a pattern may remain. With no day left to decide, whether the pattern is hers.
    fn goes_on(&self, left: usize, from: u64, rests: u64) -> bool
        requires { Inside left from rests }
        ensures { result ≡ opens self.now.ways.now left from rests }
    {
        let at = 128 * left + ((from >> left) % 128) as usize;
        self.ways[at].has(rests as usize)
    }

    // Puts the patterns below at the places from `at` on, those without the next day before those with it, and answers the place
    // after them. It ends where the places do.
    pub(crate) fn walk<L: Listing>(
        &self,
        left: usize,
        from: u64,
        rests: u64,
        at: usize,
        list: &mut L,
    ) -> usize
        requires inside { Inside left from rests }
        requires at_most { at ≤ L.places list.old }
        ensures value { result ≡ min (L.places list.old) (at + length (walked self.now.ways.now self.now.idle left from rests)) }
        ensures places { L.places list.new ≡ L.places list.old }
        ensures written { at + length (walked self.now.ways.now self.now.idle left from rests) ≤ L.places list.old → PutFrom L.Put list.old at (walked self.now.ways.now self.now.idle left from rests) list.new }
    {
        if at == list.places() {
            return at;
        }
        if !self.goes_on(left, from, rests) {
            return at;
        }
        if left == 0 {
            list.put(at, from as u32);
            return at + 1;
        }
        let day = left - 1;
        let with = from + (1u64 << day);
        let rested = rests + (self.idle >> day) % 2;
        let next = self.walk(day, from, rested, at, list);
        self.walk(day, with, rests, next, list)
    }
}
