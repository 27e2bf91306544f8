// Differences between events.

// The most events that an engine has; a net has as many nodes.
pub const MOST_EVENTS: usize = 96;

// The most differences that are held at a time.
pub const MOST_HELD: usize = 1100;

// The greatest k, up and down.
pub const MOST_K: i32 = 1000;

// The number of `to` is at least `k` above the number of `from`.
#[derive(Clone, Copy, Debug, PartialEq, Eq)]
pub struct Difference {
    pub from: usize,
    pub to: usize,
    pub k: i32,
}
