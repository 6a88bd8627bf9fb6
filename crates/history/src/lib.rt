// The search without its code: a phase, the history of a list of advances, the record, and demand 3 over any phase; and which of the two searches it is.
#![tactic(auto)]

// The two searches of an advance: nights, or days over one choice of nights.
#[derive(Clone, Copy)]
pub enum Search {
    Nights,
    Days,
}
