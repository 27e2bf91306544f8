// A small net to walk: nodes in a row, with an arc back if wanted.
ghost use Rattle.std.specs.Prelude.{◌≡◌, ◌≤◌};
ghost use Rattle.checks.specs.Chains.{follows, follows_inside, heft, heft_limited};

use net::nets::{Net, WeightedNet};

// Arcs lead from each node to the next, weight 7, and with `back` from node 2 to node 1, weight -3.
#[derive(Drop)]
pub(crate) struct Chain {
    nodes: usize,
    back: bool,
    ghost sized: { (1 ≤ nodes) × (nodes ≤ 96) },
}

impl Chain {
    // Five nodes in a row.
    pub(crate) fn of_five(back: bool) -> Chain
        ensures { (result.nodes ≡ 5) × (result.back ≡ back) }
    {
        Chain { nodes: 5, back }
    }
}

impl Net for Chain {
    ghost nodes = { λ n. n.nodes };

    ghost arc = { λ n. follows n.nodes n.back };

    ghost ranged = { λ n. n.sized };

    ghost inside = { λ n. follows_inside n.nodes n.back };

    fn node_count(&self) -> usize {
        self.nodes
    }

    fn has_arc(&self, from: usize, to: usize) -> bool {
        if from >= self.nodes || to >= self.nodes {
            return false;
        }
        from + 1 == to || self.back && from == 2 && to == 1
    }
}

impl WeightedNet for Chain {
    ghost weighs = { λ n. heft };

    ghost limited = { λ n. heft_limited };

    fn weight(&self, from: usize, to: usize) -> i32 {
        if from < to { 7 } else { -3 }
    }
}
