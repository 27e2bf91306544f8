// What a net is.
ghost use Rattle.std.specs.Prelude.{◌≡◌, ℕ, ◌<◌, ◌≤◌, Bool, true, ℤ, pos, negsuc, ◌≤ℤ◌};

// The most nodes that a net has.
pub const MOST_NODES: usize = 96;

// A net: its nodes are 0, 1, .. and arcs lead from node to node.
pub trait Net {
    ghost nodes: { Self → ℕ };

    ghost arc: { Self → ℕ → ℕ → Bool };

    // 1 to 96 nodes
    ghost ranged: { (n : Self) → (1 ≤ nodes n) × (nodes n ≤ 96) };

    // arcs lead between nodes of the net
    ghost inside: { (n : Self) (a b : ℕ) → arc n a b ≡ true → (a < nodes n) × (b < nodes n) };

    fn node_count(&self) -> usize
        ensures { result ≡ nodes self.now };

    fn has_arc(&self, from: usize, to: usize) -> bool
        ensures { result ≡ arc self.now from to };
}

// A net whose arcs have weights, from -1,000 to 1,000.
pub trait WeightedNet: Net {
    ghost weighs: { Self → ℕ → ℕ → ℤ };

    ghost limited: { (n : Self) (a b : ℕ) → (negsuc 999 ≤ℤ weighs n a b) × (weighs n a b ≤ℤ pos 1000) };

    fn weight(&self, from: usize, to: usize) -> i32
        ensures { result ≡ weighs self.now from to };
}
