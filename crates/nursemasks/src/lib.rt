// A nurse's own night patterns, told by a few masks.
#![tactic(auto)]

pub mod masks;
pub mod pairs;
