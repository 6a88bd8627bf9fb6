// The ward's rules of night duty.
ghost use Rattle.std.specs.Prelude.{◌≡◌};
ghost use Rattle.fields.specs.Rules.{gap};

// The most starts, the longest run, and the gaps after a run of one, of two, of more.
#[derive(Clone, Copy)]
pub struct Rules {
    pub most: u64,
    pub longest: u64,
    pub g1: u64,
    pub g2: u64,
    pub g3: u64,
}

impl Rules {
    // The gap after a run of so many starts.
    pub fn gap_after(self, run: u64) -> u64
        ensures { result ≡ gap self run }
    {
        match run {
            0 | 1 => self.g1,
            2 => self.g2,
            _ => self.g3,
        }
    }
}
