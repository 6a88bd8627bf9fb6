// The common list, by a recursive walk over the starts from the last to the first: the pattern made so far, then those with one
// start more, by its day.
#![tactic(auto)]

pub mod common;
mod gathering;
pub mod onward;
mod partial;
pub mod some;

ghost use Rattle.std.specs.Prelude.{◌≡◌, ◌++◌, ◌≤◌, min, length, drop};
ghost use Rattle.fields.specs.Sizes.{day_places};
ghost use Rattle.nights.specs.Nights.{common};
ghost use Rattle.nightlists.specs.CodeWalk.{listed};

use crate::gathering::{Buffer, Gathering, Tally};
use crate::onward::Walk;
use crate::partial::Partial;

// What the walk knows of the days that are decided: their first start (0: none), the length of the run that begins there, the
// distance from that run's end to the start after it (0: none), and the count of starts.
// 0 and no Option: the distance to no start is 0 by the same subtraction, without a branch in the walk.
#[derive(Clone, Copy, Default)]
pub struct State {
    pub first: u64,
    pub run: u64,
    pub dist: u64,
    pub count: u64,
}

fn walk<G: Gathering>(k: &Walk, part: &Partial, list: &mut G)
    requires { G.room list.old (listed k.now.rules part.now.left part.now.from part.now.state) }
    ensures { G.added list.old (listed k.now.rules part.now.left part.now.from part.now.state) list.new }
{
    if list.is_full() {
        return;
    }
    let done = k.is_closed(part.state);
    list.add_here(done, part.from);
    if k.rules.most <= part.state.count {
        return;
    }
    let days = k.new_days(done, part);
    let begun = k.last_days(part.state, days);
    let shut = k.shut_days(part.state, begun);
    list.add_leaves(part.from, shut);
    for day in begun..days {
        walk(k, &part.with(onward::new_run(part.state, day)), list);
    }
    if let Some(t) = k.lengthened(part) {
        walk(k, &part.with(t), list);
    }
}

impl Walk {
    // How many numbers the common list has, but no more than cap.
    pub fn count(&self, n: u64, cap: usize) -> usize
        requires { n ≤ day_places }
        ensures { result ≡ min cap (length (common self.now.rules n)) }
    {
        let mut list = Tally { left: cap };
        walk(self, &Partial::none(n), &mut list);
        cap - list.left
    }

    // Writes the common list, by ascending number, from the buffer's start, which has the room.
    pub fn fill(&self, n: u64, buf: &mut [u32]) -> usize
        requires n_le_day_places { n ≤ day_places }
        requires n_in_bounds { length (common self.now.rules n) ≤ length buf.old }
        ensures value { result ≡ length (common self.now.rules n) }
        ensures buf_after { buf.new ≡ common self.now.rules n ++ drop (length (common self.now.rules n)) buf.old }
    {
        let mut list = Buffer { buf, found: 0 };
        walk(self, &Partial::none(n), &mut list);
        list.found
    }
}
