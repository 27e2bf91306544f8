#![tactic(auto)]

// What a sheet's bytes list: trains, places, sets of blocks and moves.
mod bytes;
mod check;
pub mod content;
pub mod fault;
pub mod place;
