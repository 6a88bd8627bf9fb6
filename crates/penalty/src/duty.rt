// The penalty of one duty on one day, on its column.
ghost use Rattle.std.specs.Prelude.{◌≡◌, ◌-◌, ◌*◌, ◌<◌, ◌≤◌, length};
ghost use Rattle.numbers.specs.Sum.{Is};
ghost use Rattle.numbers.specs.Digits.{has};
ghost use Rattle.fields.specs.Shifts.{place};
ghost use Rattle.fields.specs.Fields.{days, member_sets, needs, need, low, high};
ghost use Rattle.penalty.specs.CodeCounts.{DayNeeds, DutyIs, duty_short, duty_over};

use fields::day::{Bounds, Shift};
use fields::{Body, day};
use std::marker::Model;
use std::ops::AddAssign;

// None above 100.
#[derive(Clone, Copy)]
pub struct Weights {
    pub w: u64,
    pub u: u64,
    pub v: u64,
}

impl Model for Weights {
    ghost use Rattle.penalty.specs.Weights.{Weights, Light};

    ghost Value = { Weights };

    ghost view = { λ a. record { w = a.w; u = a.u; v = a.v } };

    ghost invariant = { λ a. Light (record { w = a.w; u = a.u; v = a.v }) };

    ghost inverse = { λ d. record { w = d.w; u = d.u; v = d.v } };
}

// What is short and what is over.
#[derive(Clone, Copy, Default)]
pub struct Duty {
    pub short: u64,
    pub over: u64,
}

#[tactic(auto)]
impl AddAssign for Duty {
    ghost use Rattle.std.specs.Prelude.{◌+◌, ◌^◌};

    ghost can_add_assign = { λ a b. (a.short + b.short < 2 ^ 64) × (a.over + b.over < 2 ^ 64) };

    ghost add_assign_gives = { λ a b r. (r.short ≡ a.short + b.short) × (r.over ≡ a.over + b.over) };

    fn add_assign(&mut self, rhs: Duty) {
        self.short += rhs.short;
        self.over += rhs.over;
    }
}

// w for each nurse short of the need.
#[tactic(auto, using(crate::proofs::DutyLaws::w_le))]
pub fn need_term(wt: Weights, need: u64, count: u64) -> u64
    requires { need ≤ 48 }
    ensures { Is result (wt.w * (need - count)) 4800 }
{
    wt.w * need.saturating_sub(count)
}

// u for each member short of low, v for each above high. `Bounds` is read from any numbers: so that low is at most 48 is asked here and by `more` and
// `put` of `margins::part`, whose callers have it of `Conditions::bounds` and `need`. No struct of weights, bounds and count: `put` asks `more` at two counts.
#[tactic(auto, using(crate::proofs::DutyLaws::u_le, crate::proofs::DutyLaws::v_le))]
pub fn group_term(wt: Weights, bounds: Bounds, count: u64) -> Duty
    requires { (bounds.low ≤ 48) × (count ≤ 65) }
    ensures { DutyIs result (wt.u * (bounds.low - count)) 4800 (wt.v * (count - bounds.high)) 6500 }
{
    Duty {
        short: wt.u * bounds.low.saturating_sub(count),
        over: wt.v * count.saturating_sub(bounds.high),
    }
}

// The conditions of one duty on one day: the groups' members and the day's numbers.
#[derive(Clone, Copy)]
pub struct Conditions<'a> {
    pub sets: &'a [u64],
    pub needs: &'a [u64],
    pub shift: Shift,
    pub ghost fit: { DayNeeds sets.now needs.now },
}

impl<'a> Conditions<'a> {
    // Those of the day of index d.
    #[tactic(auto, using(crate::proofs::FieldLaws::needs_of))]
    pub fn of(w: &'a Body<'_>, shift: Shift, d: usize) -> Conditions<'a>
        requires { d < days w.now.numbers.now }
        ensures duty { result.shift ≡ shift }
        ensures numbers { (result.sets.now ≡ member_sets w.now.numbers.now) × (result.needs.now ≡ needs w.now.numbers.now d) }
    {
        Conditions {
            sets: w.member_sets(),
            needs: w.needs(d),
            shift,
        }
    }

    // How many nurses the duty needs.
    pub fn need(&self) -> u64
        ensures is { result ≡ need self.now.needs.now (place self.now.shift) }
        ensures small { result ≤ 48 }
    {
        day::need(self.needs, self.shift)
    }

    // The low and high of the group of index g.
    pub fn bounds(&self, g: usize) -> Bounds
        requires { g < length self.now.sets.now }
        ensures is { (result.low ≡ low self.now.needs.now (place self.now.shift) g) × (result.high ≡ high self.now.needs.now (place self.now.shift) g) }
        ensures small { (result.low ≤ 48) × (result.high ≤ 48) }
    {
        day::bounds_of(self.needs, self.shift, g)
    }

    // The penalty of a column by these weights.
    pub fn on_column(&self, weights: Weights, column: u64) -> Duty
        ensures { DutyIs result (duty_short weights self.now.sets.now self.now.needs.now (place self.now.shift) (has column)) 81600
            (duty_over weights self.now.sets.now self.now.needs.now (place self.now.shift) (has column)) 104000 }
    {
        let mut sum = Duty {
            short: need_term(weights, self.need(), numbers::on_duty(column)),
            over: 0,
        };
        for (g, set) in self.sets.iter().enumerate() {
            sum += group_term(weights, self.bounds(g), numbers::members(column, *set));
        }
        sum
    }
}
