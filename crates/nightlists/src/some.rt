// Whether a nurse has any pattern at all: the walk of the common list, up to the first pattern of hers with a pair of hers.
ghost use Rattle.std.specs.Prelude.{◌≡◌, true, cond, ◌-◌, ◌^◌, ◌<◌, ltb, length};
ghost use Rattle.numbers.specs.Range.{filter};
ghost use Rattle.numbers.specs.Digits.{has};
ghost use Rattle.fields.specs.Fields.{days};
ghost use Rattle.fields.specs.Rules.{rules_of};
ghost use Rattle.nights.specs.Nights.{in_common};
ghost use Rattle.nights.specs.CodeCommon.{Among};
ghost use Rattle.nightlists.specs.CodeWalk.{lengthened, here, listed, hers_with_pair};
ghost use Rattle.nights.specs.Own.{pattern_list};
ghost use Rattle.nursemasks.specs.CodePairs.{PairsOf, pairs_of_prop};

use crate::onward::Walk;
use crate::partial::Partial;
use crate::{State, onward};
use fields::WardNurse;
use numbers::Set;
use nursemasks::masks::NurseMasks;
use nursemasks::pairs::Pairs;
use nursemasks::{masks, pairs};

// What is looked for: a night pattern of a nurse's under which some pair is hers.
#[derive(Drop)]
struct Wanted<'a> {
    masks: NurseMasks<'a>,
    pairs: Pairs,
    ghost hers: { PairsOf masks.nurse.ward.numbers.now masks.nurse.index pairs } by { pairs_of_prop masks.nurse.ward.numbers.now masks.nurse.index pairs },
}

impl Wanted<'_> {
    // Whether p of the common list is one.
    fn is(&self, p: u32) -> bool
        ensures { p < 2 ^ days self.now.masks.nurse.ward.numbers.now → in_common (rules_of self.now.masks.nurse.ward.numbers.now) (days self.now.masks.nurse.ward.numbers.now) p ≡ true →
            result ≡ hers_with_pair self.now.masks.nurse.ward.numbers.now self.now.masks.nurse.index p }
    {
        self.masks.passes(p) && pairs::any_fits(self.pairs, self.masks.busy_days(p))
    }

    // Whether the pattern made so far is closed and one.
    fn is_here(&self, done: bool, from: u32) -> bool
        ensures { Among (rules_of self.now.masks.nurse.ward.numbers.now) (days self.now.masks.nurse.ward.numbers.now) (here done from) →
            result ≡ ltb 0 (length (filter (hers_with_pair self.now.masks.nurse.ward.numbers.now self.now.masks.nurse.index) (here done from))) }
    {
        done && self.is(from)
    }
}

// The state with the run lengthened, where she may start there.
fn her_lengthened(k: &Walk, part: &Partial, never: u32) -> Option<State>
    requires { part.now.state.count < k.now.rules.most }
    ensures { result ≡ cond (has never (part.now.state.first - 3)) None (lengthened k.now.rules part.now.state part.now.left) }
{
    k.lengthened(part)
        .filter(|t| !never.has((t.first - 1) as usize))
}

// Whether one of the patterns below is wanted.
// No `walk`, which takes each pattern: this one leaves out the days on which she never starts, so that a form for both is no plainer.
fn some(k: &Walk, part: &Partial, wanted: &Wanted) -> bool
    ensures { Among (rules_of wanted.now.masks.nurse.ward.numbers.now) (days wanted.now.masks.nurse.ward.numbers.now) (listed k.now.rules part.now.left part.now.from part.now.state) →
        result ≡ ltb 0 (length (filter (hers_with_pair wanted.now.masks.nurse.ward.numbers.now wanted.now.masks.nurse.index) (listed k.now.rules part.now.left part.now.from part.now.state))) }
{
    let done = k.is_closed(part.state);
    if wanted.is_here(done, part.from) {
        return true;
    }
    if k.rules.most <= part.state.count {
        return false;
    }
    let days = k.new_days(done, part);
    // No `any`: its test calls this function, and is then one more of the cycle of calls, with a measure and a proof of its own.
    for day in 0..days {
        if !wanted.masks.masks.never.has(day as usize)
            && some(k, &part.with(onward::new_run(part.state, day)), wanted)
        {
            return true;
        }
    }
    match her_lengthened(k, part, wanted.masks.masks.never) {
        Some(t) => some(k, &part.with(t), wanted),
        None => false,
    }
}

// Whether she has a pattern.
#[tactic(auto, using(fields::proofs::RuleLaws::small_rules))]
pub fn has_pattern(her: &WardNurse) -> bool
    ensures { result ≡ ltb 0 (length (pattern_list her.now.ward.numbers.now her.now.index)) }
{
    let wanted = Wanted {
        masks: masks::masks_of(her),
        pairs: pairs::pairs_of(her),
    };
    let k = Walk::of(her.ward.rules());
    some(&k, &Partial::none(her.ward.days() as u64), &wanted)
}
