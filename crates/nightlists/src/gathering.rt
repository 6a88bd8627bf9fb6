// What becomes of the patterns that the walk comes to: they are counted, or written.
// No one trait with `daylists`' `Listing`, whose patterns come one at a time, each with its place: here many come at once and have
// none, and the two share no method.
ghost use Rattle.std.specs.Prelude.{IsTrue, List, ℕ, ◌+◌, ◌^◌, ◌≤◌};
ghost use Rattle.fields.specs.Sizes.{day_places};
ghost use Rattle.nightlists.specs.CodeWalk.{here, leaves};
ghost use Rattle.nightlists.specs.CodeGathering.{GatheringLaws, counted_down, any_room, tally_laws, AppendedTo, room_behind, buffer_laws};

pub(crate) trait Gathering {
    // Whether there is room for these patterns.
    ghost room: { Self → List ℕ → Type 0 };

    // What these patterns make of what there is so far.
    ghost added: { Self → List ℕ → Self → Type 0 };

    ghost laws: { GatheringLaws room added };

    // Whether no pattern more changes anything.
    fn is_full(&self) -> bool
        ensures { IsTrue result → (xs : List ℕ) → added self.now xs self.now };

    // The pattern made so far, where it is one.
    fn add_here(&mut self, done: bool, from: u32)
        requires { room self.old (here done from) }
        ensures { added self.old (here done from) self.new };

    // The patterns with one start more, on each of the first so many days.
    fn add_leaves(&mut self, from: u32, shut: u64)
        requires few { shut ≤ day_places }
        requires fits { from + 2 ^ shut ≤ 2 ^ 32 }
        requires room { room self.old (leaves from shut) }
        ensures { added self.old (leaves from shut) self.new };
}

// How many more are to be counted.
#[derive(Drop)]
pub(crate) struct Tally {
    pub left: usize,
}

impl Gathering for Tally {
    ghost room = { any_room };

    ghost added = { counted_down };

    ghost laws = { tally_laws };

    fn is_full(&self) -> bool {
        self.left == 0
    }

    fn add_here(&mut self, done: bool, _from: u32) {
        self.left = self.left.saturating_sub(usize::from(done));
    }

    fn add_leaves(&mut self, _from: u32, shut: u64) {
        self.left = self.left.saturating_sub(shut as usize);
    }
}

// A buffer with so many at its start. The count stands beside a lent slice: no Vec, since the crate has no heap.
#[derive(Drop)]
pub(crate) struct Buffer<'a> {
    pub buf: &'a mut [u32],
    pub found: usize,
}

impl Gathering for Buffer<'_> {
    ghost room = { room_behind };

    ghost added = { AppendedTo };

    ghost laws = { buffer_laws };

    fn is_full(&self) -> bool {
        false
    }

    fn add_here(&mut self, done: bool, from: u32) {
        if done {
            self.buf[self.found] = from;
            self.found += 1;
        }
    }

    fn add_leaves(&mut self, from: u32, shut: u64) {
        let at = self.found;
        let next = at + shut as usize;
        for (day, place) in self.buf[at..next].iter_mut().enumerate() {
            *place = from + numbers::bit(day as u64);
        }
        self.found = next;
    }
}
