#![tactic(auto)]

// Engines that hold differences between events and refuse a circle that rises.
pub mod difference;
pub mod engine;
pub mod fault;
pub mod laws;
pub mod list;
pub mod precedence;
pub mod together;
