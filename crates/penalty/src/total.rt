// The penalty as its three parts, and their total.
ghost use Rattle.std.specs.Prelude.{◌≡◌, ◌+◌, ◌*◌};
ghost use Rattle.history.specs.Slot.{unplaced_cost};
ghost use Rattle.penalty.specs.CodeCounts.{Bounded};

// No larger than a month's can be, so that the total fits.
#[derive(Clone, Copy)]
pub struct Penalty {
    pub short: u64,
    pub over: u64,
    pub unplaced: u64,
    pub ghost bounded: { Bounded short over unplaced },
}

impl Penalty {
    // What a nurse not yet placed adds, flat.
    pub const UNPLACED: u64 = 10_000_000;

    // Nothing counted yet. Named as document 01 names it, and no Default.
    pub fn fresh() -> Penalty
        ensures { (result.short ≡ 0) × (result.over ≡ 0) × (result.unplaced ≡ 0) }
    {
        Penalty {
            short: 0,
            over: 0,
            unplaced: 0,
        }
    }

    pub fn total(self) -> u64
        ensures { result ≡ self.short + self.over + unplaced_cost * self.unplaced }
    {
        self.short + self.over + Self::UNPLACED * self.unplaced
    }
}
