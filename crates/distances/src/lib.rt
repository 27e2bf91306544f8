#![tactic(auto)]

// An engine that keeps the greatest sum over the walks between every two events.
pub mod distance;
mod level;
mod table;
mod way;
