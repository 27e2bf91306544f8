#![tactic(auto)]

// Nets of 1 to 96 nodes, and the walks that are written once for all of them.
pub mod circle;
pub mod fault;
pub mod longest;
mod marks;
pub mod nets;
