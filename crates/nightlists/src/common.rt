// The common list of an accepted ward.
ghost use Rattle.std.specs.Prelude.{◌≡◌, ◌++◌, ◌≤◌, min, length, drop};
ghost use Rattle.nights.specs.Nights.{common_of};

use crate::onward::Walk;
use fields::Body;

// Two functions of one call each: what they share is the call.
// How many numbers it has, but no more than cap.
#[tactic(auto, using(fields::proofs::RuleLaws::small_rules))]
pub fn count(w: &Body, cap: usize) -> usize
    ensures { result ≡ min cap (length (common_of w.now.numbers.now)) }
{
    let n = w.days() as u64;
    Walk::of(w.rules()).count(n, cap)
}

// Writes it, by ascending number, from the buffer's start, which has the room.
#[tactic(auto, using(fields::proofs::RuleLaws::small_rules))]
pub fn fill(w: &Body, buf: &mut [u32]) -> usize
    requires w_in_bounds { length (common_of w.now.numbers.now) ≤ length buf.old }
    ensures value { result ≡ length (common_of w.now.numbers.now) }
    ensures buf_after { buf.new ≡ common_of w.now.numbers.now ++ drop (length (common_of w.now.numbers.now)) buf.old }
{
    let n = w.days() as u64;
    Walk::of(w.rules()).fill(n, buf)
}
