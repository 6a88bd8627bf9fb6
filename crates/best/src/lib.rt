// The exchange that a step takes: the first of least penalty, where nurses and their patterns come in order.
#![tactic(auto)]

ghost use Rattle.std.specs.Prelude.{◌≡◌};
ghost use Rattle.best.specs.CodeBest.{improves};

// An exchange, with the penalty that it results in. The best so far is an option of one.
#[derive(Clone, Copy)]
pub struct Exchange {
    pub nurse: usize,
    pub pattern: u64,
    pub cost: u64,
}

// Whether an exchange that comes later and costs so much goes before the best so far.
pub fn improves(best: Option<Exchange>, cost: u64) -> bool
    ensures { result ≡ improves best cost }
{
    best.is_none_or(|held| cost < held.cost)
}
