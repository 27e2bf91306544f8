#![tactic(auto)]

// Lists of a bounded length that lie in the value itself, so that nothing is allocated.
pub mod list;
