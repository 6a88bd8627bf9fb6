// What one member more and one fewer change of a duty's conditions on each day, from the counts in force: made once a step, and read for every nurse.
#![tactic(auto)]

pub mod costs;
pub mod part;
mod sides;

ghost use Rattle.std.specs.Prelude.{◌≡◌, replicate};
ghost use Rattle.margins.specs.CodeMargins.{SearchMargins};

use fields::Body;
use fields::day::Shift;
use history::Search;
use part::Part;
use penalty::columns::Columns;
use penalty::weights;

// Those of both duties; by day those of the night say nothing.
#[derive(Drop)]
pub struct Margins {
    pub nightly: Part,
    pub daily: Part,
}

impl Margins {
    // Nothing put yet.
    pub fn new() -> Margins
        ensures { result ≡ record { nightly = replicate 1152 0; daily = replicate 1152 0 } }
    {
        Margins {
            nightly: Part::new(),
            daily: Part::new(),
        }
    }

    // The margins of these columns, whatever stood here before: by night of both duties, where day highs are ignored, and by day of the day's.
    pub fn update(&mut self, w: &Body, cols: &Columns, search: Search)
        ensures { SearchMargins search w.now.numbers.now cols.now.night cols.now.day self.new.nightly self.new.daily }
    {
        // No closure and no trait with an impl for each search: either would take the same arguments for a few lines, and since the search comes in as
        // a value a `match` would choose the impl.
        match search {
            Search::Nights => {
                let nights = weights::weights(w, Shift::Night);
                let days = weights::low_weights(w, Shift::Day);
                self.nightly.fill(w, nights, Shift::Night, &cols.night);
                self.daily.fill(w, days, Shift::Day, &cols.day);
            }
            Search::Days => {
                let days = weights::weights(w, Shift::Day);
                self.daily.fill(w, days, Shift::Day, &cols.day);
            }
        }
    }
}
