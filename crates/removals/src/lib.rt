// The last TL removals: the last one first, those in use from the start.
#![tactic(auto)]

pub mod unused;

ghost use Rattle.std.specs.Prelude.{◌≡◌, ◌&&◌, ◌||◌, ℕ, ◌<◌, ◌≤◌, eqb, length, take};
ghost use Rattle.std.specs.Bool.{then_some};
ghost use Rattle.fields.specs.Sizes.{removal_places, tabu_most};
ghost use Rattle.numbers.specs.Range.{any_of};
ghost use Rattle.removals.specs.CodeGiven.{bar_places, is_current, given_up_by};
ghost use Rattle.removals.specs.CodePush.{in_front, pushed};

use fields::sizes::REMOVALS;

// What may be barred for a nurse: the pattern in use by her, and every removal's.
pub const BARS: usize = 65;

// One of the TL places: a nurse's number, from 1, and the pattern that she gave up, or none where the step placed her.
// A place not in use is all 0.
// The flag stands beside the pattern, and is no Option, since a record of any content comes in over C: also a pattern without its flag.
#[derive(Clone, Copy, Default)]
pub struct Removal {
    pub nurse: u32,
    pub has: bool,
    pub pattern: u64,
}

impl Removal {
    // The pattern that she gave up, where the flag says that there is one.
    pub fn slot(self) -> Option<u64>
        ensures { result ≡ then_some self.has self.pattern }
    {
        self.has.then_some(self.pattern)
    }
}

// Whether a removal bars its pattern for the nurse of this number: she gave it up herself.
fn gave_up(x: Removal, number: u32) -> bool
    ensures { result ≡ (x.has && eqb x.nurse number) }
{
    x.has && x.nurse == number
}

// The patterns barred for the nurse of this number, from the start: the one in use by her, and those that she gave up herself. Gives how many.
// They go into an array of the caller's, since there is no heap for a list.
pub fn bars_of(held: &[Removal], number: u32, current: Option<u64>, bars: &mut [u64; BARS]) -> usize
    requires { length held.now ≤ removal_places }
    ensures most { result ≤ bar_places }
    ensures bars { (p : ℕ) → any_of (λ x. eqb x p) (take result bars.new) ≡ (is_current current p || given_up_by held.now number p) }
    ensures long { length bars.new ≡ bar_places }
{
    let mut count: usize = 0;
    if let Some(p) = current {
        bars[0] = p;
        count = 1;
    }
    for x in held {
        if gave_up(*x, number) {
            bars[count] = x.pattern;
            count += 1;
        }
    }
    count
}

// The removal in front of the first k; the one that stood after them is dropped.
fn put_in_front(list: [Removal; REMOVALS], k: usize, x: Removal) -> [Removal; REMOVALS]
    requires { k < removal_places }
    ensures { result ≡ in_front k x list }
{
    let mut moved = list;
    moved.copy_within(0..k, 1);
    moved[0] = x;
    moved
}

// One removal more, after so many steps; the last `tl` are kept.
#[tactic(auto, unfolding(crate::specs::CodePush::pushed))]
pub fn push(list: [Removal; REMOVALS], tl: usize, steps: usize, x: Removal) -> [Removal; REMOVALS]
    requires { tl ≤ tabu_most }
    ensures { result ≡ pushed tl steps x list }
{
    if tl == 0 {
        return list;
    }
    let staying = steps.min(tl - 1);
    put_in_front(list, staying, x)
}
