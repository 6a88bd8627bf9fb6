// A nurse's trials by a table: what her days cost, summed over six days at a time, so that a trial takes six readings.
// A trial goes by a set: bit d + 2 is her start on the day of index d; bits 0 and 1 are those of the two days before the month.
#![tactic(auto)]

pub mod costs;
mod sums;

ghost use Rattle.std.specs.Prelude.{◌≡◌, List, ℕ, ◌≤◌, length, replicate};
ghost use Rattle.tables.specs.CodeTables.{Low, TableOf, table_trial};

use costs::Costs;
use std::marker::Model;

pub const SUM_PLACES: usize = 1536;

// For each six days 256 sums, by the eight bits that they depend on, each small enough to be added up. One array and no rows of 256, since
// `clear` goes over the places of several sixes at once.
#[derive(Drop)]
pub struct Table {
    sums: [u32; SUM_PLACES],
}

impl Model for Table {
    ghost Value = { List ℕ };

    ghost view = { λ a. a.sums };

    ghost invariant = { λ a. (length a.sums ≡ 1536) × Low a.sums 2227200 };
}

impl Table {
    // Of a nurse whose days cost nothing. Written out: its clause says that the list is zeros, and a derived Default's place by place.
    pub fn new() -> Table
        ensures { result ≡ replicate 1536 0 }
    {
        Table {
            sums: [0; SUM_PLACES],
        }
    }

    // The table of a nurse's costs; the places past the month's sixes are cleared, whatever they held.
    pub fn fill(&mut self, c: &Costs)
        ensures { TableOf c.now.costs c.now.days self.new }
    {
        let sixes = c.days.div_ceil(6);
        for b in 0..sixes {
            sums::six(&mut self.sums, &c.costs, b);
        }
        sums::clear(&mut self.sums, 256 * sixes, SUM_PLACES);
    }

    // What the ward's days cost after the exchange.
    pub fn trial(&self, x: u64) -> u32
        ensures is { result ≡ table_trial self.now x }
        ensures most { result ≤ 13363200 }
    {
        let sums = &self.sums;
        let read = |b: usize| {
            let key = ((x >> (6 * b)) % 256) as usize;
            sums[256 * b + key]
        };
        (0..6).map(read).sum()
    }
}
