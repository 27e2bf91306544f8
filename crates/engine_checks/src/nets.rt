// The precedence net of an engine.
use crate::both::{add, refusal_number};
use distances::distance::DistanceEngine;
use engine::engine::DifferenceEngine;
use engine::precedence::longest_precedence;
use net::fault::WalkFault;
use potentials::potential::PotentialEngine;
use std::process::Abort;

// The longest way counts differences, whatever their k; a circle that sums to zero is a circle of the net.
fn longest<E: DifferenceEngine>(rt: &impl Abort, engine: &mut E) {
    let mut marks = [7; 97];
    assert_eq!(rt; refusal_number(engine.wipe(4)), None);
    assert_eq!(rt; add(engine, 0, 1, -9), None);
    assert_eq!(rt; add(engine, 1, 2, 5), None);
    assert_eq!(rt; add(engine, 0, 2, 1), None);
    assert_eq!(rt; longest_precedence(engine, &mut marks, 0), Ok(Some(2)));
    assert_eq!(rt; longest_precedence(engine, &mut marks, 3), Ok(Some(0)));
    assert_eq!(rt; add(engine, 2, 1, -5), None);
    assert_eq!(rt; longest_precedence(engine, &mut marks, 3), Ok(None));
    assert!(rt; marks[0] == 0 && marks[95] == 0 && marks[96] == 7);
}

fn refusals<E: DifferenceEngine>(rt: &impl Abort, engine: &E) {
    let mut marks = [7; 96];
    assert_eq!(rt;
        longest_precedence(engine, &mut marks, 4),
        Err(WalkFault::NoSuchNode)
    );
    assert_eq!(rt;
        longest_precedence(engine, &mut marks[0..95], 4),
        Err(WalkFault::ShortMarks)
    );
    assert_eq!(rt; marks[0], 7);
}

fn precedence<E: DifferenceEngine>(rt: &impl Abort, engine: &mut E) {
    longest(rt, engine);
    refusals(rt, engine);
}

#[test]
fn precedence_with_both(rt: HostRuntime) {
    precedence(&rt, &mut PotentialEngine::new());
    precedence(&rt, &mut DistanceEngine::new());
}
