// The longest way from a node, written once for every weighted net.
ghost use Rattle.std.specs.Prelude.{◌≡◌, ◌<◌, ◌≤◌, length};
ghost use Rattle.net.specs.Marks.{Cleared};
ghost use Rattle.net.specs.Walks.{NoCircle, Greatest};
ghost use Rattle.net.specs.Sums.{Open, Settled};
ghost use Rattle.net.specs.Answers.{Measured};

use crate::circle::find_circle;
use crate::fault::WalkFault;
use crate::marks::{Mark, Marks};
use crate::nets::{MOST_NODES, WeightedNet};

// The greatest sum over the ways from the node `at`, in a net with no circle; `sums` has those of the done nodes.
// They are no `Option`, since a node is marked when it is entered too, and that it is done would be said twice.
fn settle<N: WeightedNet>(
    net: &N,
    marks: &mut Marks,
    sums: &mut [i32; MOST_NODES],
    at: usize,
) -> i32
    requires { Open (N.Net.arc net.now) (N.WeightedNet.weighs net.now) (N.Net.nodes net.now) marks.old.bytes.now sums.old at }
    ensures lent { marks.new.bytes.ghost_name ≡ marks.old.bytes.ghost_name }
    ensures settled { Settled (N.Net.arc net.now) (N.WeightedNet.weighs net.now) (N.Net.nodes net.now) marks.old.bytes.now marks.new.bytes.now sums.new at result }
{
    if let Mark::Done = marks.mark(at) {
        return sums[at];
    }
    marks.put(at, Mark::OnPath);
    let mut best: i32 = 0;
    // a loop and no chain, since it lends the marks and the sums
    for next in 0..net.node_count() {
        if net.has_arc(at, next) {
            let sum = net.weight(at, next) + settle(net, marks, sums, next);
            best = best.max(sum);
        }
    }
    sums[at] = best;
    marks.put(at, Mark::Done);
    best
}

// The greatest sum over the ways from a node of a net with no circle.
fn greatest_sum<N: WeightedNet>(net: &N, marks: &mut [u8], from: usize) -> i32
    requires room { 96 ≤ length marks.old }
    requires inside { from < N.Net.nodes net.now }
    requires straight { NoCircle (N.Net.arc net.now) }
    ensures cleared { Cleared marks.old marks.new }
    ensures found { Greatest (N.Net.arc net.now) (N.WeightedNet.weighs net.now) from result }
{
    let mut marks = Marks::begin(marks);
    let mut sums = [0; MOST_NODES];
    settle(net, &mut marks, &mut sums, from)
}

// The greatest sum of weights over all ways from a node, or none where the net has a circle anywhere.
pub fn longest_way<N: WeightedNet>(
    net: &N,
    marks: &mut [u8],
    from: usize,
) -> Result<Option<i32>, WalkFault>
    ensures { Measured (N.Net.arc net.now) (N.WeightedNet.weighs net.now) (N.Net.nodes net.now) from marks.old marks.new result }
{
    if marks.len() < MOST_NODES {
        return Err(WalkFault::ShortMarks);
    }
    if from >= net.node_count() {
        return Err(WalkFault::NoSuchNode);
    }
    if find_circle(net, marks)?.is_some() {
        return Ok(None);
    }
    Ok(Some(greatest_sum(net, marks, from)))
}
