// Small lists of differences, with and without a rising circle.
use crate::both::{add, refusal_number};
use distances::distance::DistanceEngine;
use engine::difference::Difference;
use engine::engine::DifferenceEngine;
use engine::together::add_all;
use potentials::potential::PotentialEngine;
use std::process::Abort;

// A circle of two that sums to 0 is accepted, one that sums to 1 is refused, and so are circles of one.
fn circles<E: DifferenceEngine>(rt: &impl Abort, engine: &mut E) {
    assert_eq!(rt; refusal_number(engine.wipe(3)), None);
    assert_eq!(rt; add(engine, 0, 1, 1), None);
    assert_eq!(rt; add(engine, 1, 0, 0), Some(23));
    assert_eq!(rt; add(engine, 1, 0, -1), None);
    assert_eq!(rt; add(engine, 2, 2, 0), None);
    assert_eq!(rt; add(engine, 2, 2, 1), Some(23));
    assert_eq!(rt; engine.held_count(), 3);
}

#[test]
fn circles_with_potentials(rt: HostRuntime) {
    circles(&rt, &mut PotentialEngine::new());
}

#[test]
fn circles_with_distances(rt: HostRuntime) {
    circles(&rt, &mut DistanceEngine::new());
}

const ROW: [Difference; 3] = [
    Difference {
        from: 0,
        to: 1,
        k: 2,
    },
    Difference {
        from: 1,
        to: 2,
        k: 3,
    },
    Difference {
        from: 2,
        to: 0,
        k: -4,
    },
];

// The first two of the row are accepted, and all three are not: then none is held.
fn all_or_none<E: DifferenceEngine>(rt: &impl Abort, engine: &mut E) {
    assert_eq!(rt; refusal_number(engine.wipe(3)), None);
    assert_eq!(rt; refusal_number(add_all(engine, &ROW[0..2])), None);
    assert_eq!(rt; engine.held_count(), 2);
    assert_eq!(rt; refusal_number(engine.wipe(3)), None);
    assert_eq!(rt; refusal_number(add_all(engine, &ROW)), Some(23));
    assert_eq!(rt; engine.held_count(), 0);
}

#[test]
fn all_or_none_with_both(rt: HostRuntime) {
    all_or_none(&rt, &mut PotentialEngine::new());
    all_or_none(&rt, &mut DistanceEngine::new());
}
