// A pattern made so far: where the walk stands.
ghost use Rattle.std.specs.Prelude.{◌≡◌, ◌+◌, ◌%◌, ◌^◌, ◌≤◌};
ghost use Rattle.fields.specs.Sizes.{day_places};
ghost use Rattle.fields.specs.declared.rules.Rules.{Rules};
ghost use Rattle.nights.specs.Nights.{common};
ghost use Rattle.nightlists.specs.CodeWalk.{listed, Ready, OneStart};

use crate::State;

// The days before `left` are undecided, and the others make the number `from`.
#[derive(Clone, Copy)]
pub(crate) struct Partial {
    pub left: u64,
    pub from: u32,
    pub state: State,
    pub ghost ready: { Ready left from },
    pub ghost whole: { from % 2 ^ left ≡ 0 },
    pub ghost next: { state.first ≤ left + 1 },
}

impl Partial {
    // With no day of a month of n days decided.
    pub(crate) fn none(n: u64) -> Partial
        requires { n ≤ day_places }
        ensures { (r : Rules) → 1 ≤ r.longest → listed r result.left result.from result.state ≡ common r n }
    {
        Partial {
            left: n,
            from: 0,
            state: State::default(),
        }
    }

    // With one start more, before all that are decided, after which the state is t.
    pub(crate) fn with(&self, t: State) -> Partial
        requires some { 1 ≤ t.first }
        requires below { t.first ≤ self.now.left }
        ensures { OneStart self.now.from t result.left result.from result.state }
    {
        let day = t.first - 1;
        Partial {
            left: day,
            from: self.from + numbers::bit(day),
            state: t,
        }
    }
}
