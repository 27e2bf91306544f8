#![tactic(auto)]

// Sheets: the listed content with the rules of the whole yard, and what follows from them.
mod check;
mod conflict;
mod count;
pub mod fault;
pub mod movement;
pub mod sheet;
