// The search for a circle, written once for every weighted net.
ghost use Rattle.std.specs.Prelude.{◌≡◌};
ghost use Rattle.net.specs.Visits.{Ready, Visited};
ghost use Rattle.net.specs.Answers.{Searched};

use crate::fault::WalkFault;
use crate::marks::{Mark, Marks};
use crate::nets::{MOST_NODES, WeightedNet};

// Visits what can be reached from the node `at`, and stops at a node that lies on a circle.
fn visit<N: WeightedNet>(net: &N, marks: &mut Marks, at: usize) -> Option<usize>
    requires { Ready (N.Net.arc net.now) (N.Net.nodes net.now) marks.old.bytes.now at }
    ensures lent { marks.new.bytes.ghost_name ≡ marks.old.bytes.ghost_name }
    ensures visited { Visited (N.Net.arc net.now) (N.Net.nodes net.now) marks.old.bytes.now marks.new.bytes.now at result }
{
    marks.put(at, Mark::OnPath);
    // a loop and no chain, here and below, since it lends the marks and can leave early
    for next in 0..net.node_count() {
        if net.has_arc(at, next) {
            match marks.mark(next) {
                Mark::Unseen => {
                    if let Some(found) = visit(net, marks, next) {
                        return Some(found);
                    }
                }
                Mark::OnPath => return Some(next),
                Mark::Done => {}
            }
        }
    }
    marks.put(at, Mark::Done);
    None
}

// A node that lies on a circle, or none where the net has no circle.
pub fn find_circle<N: WeightedNet>(net: &N, marks: &mut [u8]) -> Result<Option<usize>, WalkFault>
    ensures { Searched (N.Net.arc net.now) marks.old marks.new result }
{
    if marks.len() < MOST_NODES {
        return Err(WalkFault::ShortMarks);
    }
    let mut marks = Marks::begin(marks);
    for start in 0..net.node_count() {
        if let Mark::Unseen = marks.mark(start) {
            if let Some(found) = visit(net, &mut marks, start) {
                return Ok(Some(found));
            }
        }
    }
    Ok(None)
}
