// Nights and days as phases of the search, and the questions that an advance asks of its steps, its nights, its nurses and its record.
#![tactic(auto)]

pub mod opening;
pub mod questions;
