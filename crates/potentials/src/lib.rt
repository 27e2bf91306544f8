#![tactic(auto)]

// An engine that keeps a number for each event and mends them at each add.
mod numbers;
pub mod potential;
