// The margins of one duty: what one member more and one fewer change of its conditions on each day.
ghost use Rattle.std.specs.Prelude.{◌≡◌, List, ℕ, ◌+◌, ◌<◌, ◌≤◌, length, replicate};
ghost use Rattle.fields.specs.Shifts.{place};
ghost use Rattle.margins.specs.CodeMargins.{bounds_cost, Slight, MarginPut, GroupsPut, DayPut, MarginsOf};

use fields::Body;
use fields::day::{Bounds, Shift};
use fields::sizes::DAYS;
use penalty::duty::{Conditions, Weights};
use std::marker::Model;

const MARGIN_PLACES: usize = 1152;

pub(crate) const EVERYONE: usize = 1024;

pub(crate) const STANDING: usize = 1088;

// 64 places for each group, then for all nurses, then for what the day costs as it stands. In each, by day: one more from 0 on, and one fewer from
// 32 on. 100 is added to each, so that none is below zero. One array and no rows of 64: contracts see one list (`Margins::new`),
// which rows would be flattened to.
#[derive(Drop)]
pub struct Part {
    pub(crate) margins: [u32; MARGIN_PLACES],
}

impl Model for Part {
    ghost Value = { List ℕ };

    ghost view = { λ a. a.margins };

    ghost invariant = { λ a. (length a.margins ≡ 1152) × Slight a.margins };
}

// 100, and what one more changes where so many count.
fn more(wt: Weights, bounds: Bounds, count: u64) -> u32
    requires { (bounds.low ≤ 48) × (count ≤ 64) }
    ensures { (result + bounds_cost wt bounds.low bounds.high count ≡ 100 + bounds_cost wt bounds.low bounds.high (count + 1)) × (result ≤ 200) }
{
    let over = if bounds.high < count + 1 { wt.v } else { 0 };
    let short = if count < bounds.low { wt.u } else { 0 };
    (100 + over - short) as u32
}

// A need is a low of all nurses.
fn as_low(wt: Weights) -> Weights
    ensures { result ≡ record { w = wt.w; u = wt.w; v = 0 } }
{
    Weights {
        u: wt.w,
        v: 0,
        ..wt
    }
}

impl Part {
    // Nothing put yet. Written out: its clause says that the list is zeros, and a derived Default's place by place.
    pub(crate) fn new() -> Part
        ensures { result ≡ replicate 1152 0 }
    {
        Part {
            margins: [0; MARGIN_PLACES],
        }
    }

    // The margins of a condition; 100, and what one fewer changes, is 200 less what one more changes where one fewer count.
    fn put(&mut self, at: usize, wt: Weights, bounds: Bounds, count: u64)
        requires { (bounds.low ≤ 48) × (count ≤ 64) × (at + 32 < 1088) }
        ensures { MarginPut self.old self.new at (bounds_cost wt bounds.low bounds.high) count }
    {
        self.margins[at] = more(wt, bounds, count);
        if 0 < count {
            self.margins[at + 32] = 200 - more(wt, bounds, count - 1);
        }
    }

    // The margins of every group on the day of index d.
    fn put_groups(&mut self, c: &Conditions, weights: Weights, column: u64, d: usize)
        requires { d < 31 }
        ensures { GroupsPut weights c.now.sets.now c.now.needs.now (place c.now.shift) column d self.old self.new }
    {
        for (g, set) in c.sets.iter().enumerate() {
            let count = numbers::members(column, *set);
            self.put(64 * g + d, weights, c.bounds(g), count);
        }
    }

    // The margins of all conditions on the day of index d, and what it costs.
    fn put_day(&mut self, c: &Conditions, weights: Weights, column: u64, d: usize)
        requires { d < 31 }
        ensures { DayPut weights c.now.sets.now c.now.needs.now (place c.now.shift) column d self.old self.new }
    {
        self.put_groups(c, weights, column, d);
        let need = Bounds {
            low: c.need(),
            high: 0,
        };
        let count = numbers::on_duty(column);
        self.put(EVERYONE + d, as_low(weights), need, count);
        let standing = c.on_column(weights, column);
        self.margins[STANDING + d] = (standing.short + standing.over) as u32;
    }

    // Those of a month's columns.
    pub(crate) fn fill(&mut self, w: &Body, weights: Weights, shift: Shift, cols: &[u64; DAYS])
        ensures { MarginsOf w.now.numbers.now weights (place shift) cols.now self.new }
    {
        for d in 0..w.days() {
            let c = Conditions::of(w, shift, d);
            self.put_day(&c, weights, cols[d], d);
        }
    }
}
