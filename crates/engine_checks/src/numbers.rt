// Numbers of events, before and after a drop.
use crate::both::{add, refusal_number, rise};
use distances::distance::DistanceEngine;
use engine::engine::DifferenceEngine;
use potentials::potential::PotentialEngine;
use std::process::Abort;

// The newest difference raises two numbers, and they go back when it is dropped.
fn go_back<E: DifferenceEngine>(rt: &impl Abort, engine: &mut E) {
    assert_eq!(rt; refusal_number(engine.wipe(4)), None);
    assert_eq!(rt; add(engine, 0, 1, 5), None);
    assert_eq!(rt; add(engine, 1, 2, -2), None);
    assert_eq!(rt; rise(engine, 0, 1), Some(5));
    assert_eq!(rt; rise(engine, 0, 2), Some(3));
    assert_eq!(rt; add(engine, 3, 0, 10), None);
    assert_eq!(rt; rise(engine, 3, 2), Some(13));
    assert_eq!(rt; refusal_number(engine.drop_newest()), None);
    assert_eq!(rt; rise(engine, 3, 2), Some(3));
    assert_eq!(rt; rise(engine, 4, 0), None);
}

#[test]
fn numbers_go_back_with_potentials(rt: HostRuntime) {
    go_back(&rt, &mut PotentialEngine::new());
}

#[test]
fn numbers_go_back_with_distances(rt: HostRuntime) {
    go_back(&rt, &mut DistanceEngine::new());
}
