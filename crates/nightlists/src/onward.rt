// Where the walk goes on from a pattern: the days on which a new run begins, and the one that lengthens the first run.
ghost use Rattle.std.specs.Prelude.{◌≡◌, ◌+◌, ◌^◌, ◌≤◌, ◌<◌};
ghost use Rattle.fields.specs.Sizes.{day_places};
ghost use Rattle.fields.specs.CodeRules.{SmallRules};
ghost use Rattle.nightlists.specs.CodeWalk.{closed, from_two, from_one, least_gap, lost, apart_by, new_days, last_days, shut_days, new_run, lengthened};

use crate::State;
use crate::partial::Partial;
use fields::rules::Rules;

// What the walk goes by: the rules, and how far before a start another run begins, at least. The days are handed to `count` and
// `fill` and no field: `of`, which is public, would ask its callers for them and for their bound.
#[derive(Clone, Copy)]
pub struct Walk {
    pub rules: Rules,
    pub apart: u64,
    pub ghost small: { SmallRules rules },
    pub ghost apart_is: { apart ≡ apart_by rules },
}

fn from_two(r: Rules) -> u64
    ensures { result ≡ from_two r }
{
    if r.longest <= 2 {
        return r.g2;
    }
    r.g2.min(r.g3)
}

fn from_one(r: Rules) -> u64
    ensures { result ≡ from_one r }
{
    if r.longest <= 1 {
        return r.g1;
    }
    r.g1.min(from_two(r))
}

// The least gap after a run of so many starts as it is, or with more starts.
// `SmallRules` is asked, here and by `of`, and no ghost field of `Rules`, which are public: it would be asked of whoever makes any.
#[tactic(auto, unfolding(crate::specs::CodeWalk::least_gap))]
fn least_gap(r: Rules, run: u64) -> u64
    requires { SmallRules r }
    ensures value { result ≡ least_gap r run }
    ensures upper_bound { result ≤ 5 }
{
    if run <= 1 {
        return from_one(r);
    }
    if run == 2 {
        return from_two(r);
    }
    r.g3
}

// The state after a start there that begins a new run.
pub(crate) fn new_run(s: State, day: u64) -> State
    requires few { s.count + 1 < 2 ^ 64 }
    requires day_lt_day_places { day < day_places }
    ensures { result ≡ new_run s day }
{
    State {
        first: day + 1,
        run: 1,
        dist: s.first.saturating_sub(day + 1),
        count: s.count + 1,
    }
}

impl Walk {
    #[tactic(auto, unfolding(crate::specs::CodeWalk::apart_by))]
    pub fn of(rules: Rules) -> Walk
        requires { SmallRules rules }
        ensures { result.rules ≡ rules }
    {
        Walk {
            rules,
            apart: (2 + least_gap(rules, 1)).max(3),
        }
    }

    // The gap after the first run is wide enough, or nothing follows it.
    pub(crate) fn is_closed(&self, s: State) -> bool
        ensures { result ≡ closed self.now.rules s.run s.dist }
    {
        if s.dist == 0 {
            return true;
        }
        let g = self.rules.gap_after(s.run);
        2 + g <= s.dist
    }

    // No start before a run that far from the start after it makes its gap wide enough.
    #[tactic(auto, unfolding(crate::specs::CodeWalk::lost))]
    fn is_lost(&self, run: u64, dist: u64) -> bool
        ensures { result ≡ lost self.now.rules run dist }
    {
        if dist == 0 {
            return false;
        }
        dist < 2 + least_gap(self.rules, run)
    }

    // On how many of the days, from the first on, a new run begins.
    #[tactic(auto, using(crate::proofs::OnwardLaws::apart_three), unfolding(crate::specs::CodeWalk::new_days))]
    pub(crate) fn new_days(&self, done: bool, part: &Partial) -> u64
        ensures { result ≡ new_days done self.now.apart part.now.state part.now.left }
    {
        let first = part.state.first;
        if first == 0 {
            return part.left;
        }
        if done {
            return first.saturating_sub(self.apart);
        }
        0
    }

    // On how many of them, from the first on, no start comes before the new one: no more may come, or there is no day for one.
    #[tactic(auto, unfolding(crate::specs::CodeWalk::last_days))]
    pub(crate) fn last_days(&self, s: State, days: u64) -> u64
        requires { s.count < self.now.rules.most }
        ensures { result ≡ last_days self.now.rules self.now.apart s days }
    {
        if self.rules.most == s.count + 1 {
            return days;
        }
        if self.rules.longest <= 1 {
            return days.min(self.apart);
        }
        days.min(2)
    }

    // On how many of these, from the first on, the gap after the new run is wide enough.
    #[tactic(auto, unfolding(crate::specs::CodeWalk::shut_days))]
    pub(crate) fn shut_days(&self, s: State, days: u64) -> u64
        ensures { result ≡ shut_days self.now.rules s days }
    {
        if s.first == 0 {
            return days;
        }
        days.min(s.first.saturating_sub(2 + self.rules.g1))
    }

    // The state after a start that lengthens the first run, or that no pattern has it.
    #[tactic(auto, unfolding(crate::specs::CodeWalk::lengthened))]
    pub(crate) fn lengthened(&self, part: &Partial) -> Option<State>
        requires { part.now.state.count < self.now.rules.most }
        ensures { result ≡ lengthened self.now.rules part.now.state part.now.left }
    {
        let r = self.rules;
        let s = part.state;
        if r.longest <= s.run {
            return None;
        }
        if s.first < 3 {
            return None;
        }
        if self.is_lost(s.run + 1, s.dist) {
            return None;
        }
        Some(State {
            first: s.first - 2,
            run: s.run + 1,
            dist: s.dist,
            count: s.count + 1,
        })
    }
}
