// The records that a sheet lists.
use blocks::Blocks;

// A set of blocks that one train holds together.
#[derive(Clone, Copy, Debug, PartialEq, Eq)]
pub struct Place {
    pub train: usize,
    pub blocks: Blocks,
}

// Where a move leads: to a place of the same train, or out.
#[derive(Clone, Copy, Debug, PartialEq, Eq)]
pub enum Destination {
    Place(usize),
    Out,
}

#[derive(Clone, Copy, Debug, PartialEq, Eq)]
pub struct Move {
    pub from: usize,
    pub to: Destination,
}
