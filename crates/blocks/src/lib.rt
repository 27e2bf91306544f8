#![tactic(auto)]

// Sets of blocks. A block is a number from 0 to 63, and a set has one bit for each.
ghost use Rattle.std.specs.Prelude.{◌≡◌, ◌≤◌, true, ◌↔◌, MatchOption};
ghost use Rattle.blocks.specs.Members.{has, Empty, Lowest, shared, Common, lacked};

// How many blocks there are.
const BLOCK_COUNT: usize = 64;

// A set of blocks; block b is the bit worth 2 to the power b.
#[derive(Clone, Copy, Debug, PartialEq, Eq)]
pub struct Blocks {
    bits: u64,
}

impl Blocks {
    pub fn from_bits(bits: u64) -> Blocks
        ensures { result.bits ≡ bits }
    {
        Blocks { bits }
    }

    #[tactic(auto, using(crate::proofs::Digits::past_none))]
    pub fn contains(self, block: usize) -> bool
        ensures { result ≡ has self.bits block }
    {
        block < BLOCK_COUNT && (self.bits >> block) & 1 == 1
    }

    #[tactic(auto, using(crate::proofs::Sharing::empty_told))]
    pub fn is_empty(self) -> bool
        ensures { (result ≡ true) ↔ Empty self.bits }
    {
        self.bits == 0
    }

    // Whether some block is in both sets.
    #[tactic(auto, using(crate::proofs::Sharing::shared_told), unfolding(crate::specs::Members::shared))]
    pub fn shares(self, other: Blocks) -> bool
        ensures value { result ≡ shared self.bits other.bits }
        ensures common { (result ≡ true) ↔ Common self.bits other.bits }
    {
        self.bits & other.bits != 0
    }

    // The lowest block of the set.
    #[tactic(auto, using(crate::proofs::Lowering::lowest))]
    pub fn lowest(self) -> Option<usize>
        ensures { MatchOption result (Empty self.bits) (λ b. Lowest self.bits b) }
    {
        if self.is_empty() {
            return None;
        }
        Some(self.bits.trailing_zeros() as usize)
    }

    // How many blocks of this set the other lacks.
    #[tactic(auto, using(crate::proofs::Tallies::lacked_ones, crate::proofs::Tallies::tally_most))]
    pub fn count_not_in(self, other: Blocks) -> u32
        ensures value { result ≡ lacked self.bits other.bits }
        ensures most { result ≤ 64 }
    {
        (self.bits & !other.bits).count_ones()
    }
}
