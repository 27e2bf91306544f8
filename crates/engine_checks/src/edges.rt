// The edges of what is accepted.
use crate::both::{add, refusal_number};
use bounded::list::Full;
use distances::distance::DistanceEngine;
use engine::difference::{Difference, MOST_HELD};
use engine::engine::DifferenceEngine;
use engine::fault::EngineFault;
use engine::together::add_all;
use net::fault::Fault;
use potentials::potential::PotentialEngine;
use std::process::Abort;
use std::test::Fail;

// A new engine has one event; the refused numbers of events change nothing.
fn events<E: DifferenceEngine>(rt: &impl Abort, engine: &mut E) {
    assert_eq!(rt; engine.event_count(), 1);
    assert_eq!(rt; engine.held_count(), 0);
    assert_eq!(rt; refusal_number(engine.wipe(96)), None);
    assert_eq!(rt; add(engine, 95, 0, 1), None);
    assert_eq!(rt; refusal_number(engine.wipe(97)), Some(20));
    assert_eq!(rt; refusal_number(engine.wipe(0)), Some(20));
    assert_eq!(rt; engine.event_count(), 96);
    assert_eq!(rt; engine.held_count(), 1);
}

// An event is looked at before k, and k before circles.
fn order<E: DifferenceEngine>(rt: &impl Abort, engine: &mut E) {
    assert_eq!(rt; refusal_number(engine.wipe(2)), None);
    assert_eq!(rt; add(engine, 2, 0, 1001), Some(20));
    assert_eq!(rt; add(engine, 0, 2, 0), Some(20));
    assert_eq!(rt; add(engine, 0, 0, 1001), Some(21));
    assert_eq!(rt; add(engine, 0, 0, -1001), Some(21));
    assert_eq!(rt; add(engine, 0, 0, 1000), Some(23));
    assert_eq!(rt; add(engine, 0, 0, -1000), None);
    assert_eq!(rt; add(engine, 0, 1, 1000), None);
}

const LEVEL: Difference = Difference {
    from: 0,
    to: 1,
    k: 0,
};

// 1,100 are held, and no more: that is told before a circle, and after a bad k.
fn room<E: DifferenceEngine>(rt: &impl Abort, engine: &mut E) {
    assert_eq!(rt; refusal_number(engine.wipe(2)), None);
    assert_eq!(rt; refusal_number(add_all(engine, &[LEVEL; MOST_HELD])), None);
    assert_eq!(rt; engine.held_count(), MOST_HELD);
    assert_eq!(rt; add(engine, 1, 1, 1), Some(22));
    assert_eq!(rt; add(engine, 1, 1, 1001), Some(21));
    assert_eq!(rt; refusal_number(engine.drop_newest()), None);
    assert_eq!(rt; add(engine, 1, 1, 1), Some(23));
    assert_eq!(rt; add(engine, 0, 1, 7), None);
    assert_eq!(rt; add(engine, 0, 1, 7), Some(22));
}

// What is held can be read, place by place, and nothing behind it.
fn held<E: DifferenceEngine>(rt: &impl Abort, engine: &mut E) {
    assert_eq!(rt; refusal_number(engine.wipe(2)), None);
    assert_eq!(rt; refusal_number(engine.drop_newest()), Some(24));
    assert_eq!(rt; add(engine, 0, 1, 7), None);
    assert_eq!(rt;
        engine.held_at(0),
        Ok(Difference {
            from: 0,
            to: 1,
            k: 7,
        })
    );
    assert_eq!(rt; engine.held_at(1), Err(EngineFault::NoneHeld));
    assert_eq!(rt; engine.number(2), Err(EngineFault::EventOutOfRange));
}

fn edges<E: DifferenceEngine>(rt: &impl Abort, engine: &mut E) {
    events(rt, engine);
    order(rt, engine);
    room(rt, engine);
    held(rt, engine);
}

#[test]
fn edges_with_potentials(rt: HostRuntime) {
    edges(&rt, &mut PotentialEngine::new());
}

#[test]
fn edges_with_distances(rt: HostRuntime) {
    edges(&rt, &mut DistanceEngine::new());
}

#[test]
fn numbers_of_refusals(rt: HostRuntime) {
    let refusal = EngineFault::Full.refusal();
    assert!(rt; refusal.number == 22 && refusal.place == 0);
    assert_eq!(rt; EngineFault::NoneHeld.refusal().number, 24);
}

#[test]
fn words_of_refusals(rt: HostRuntime) -> Result<(), Fail> {
    let cases = [
        (
            EngineFault::EventOutOfRange,
            "there is no such event, or no engine has that number of events",
        ),
        (EngineFault::KOutOfRange, "k is not from -1000 to 1000"),
        (EngineFault::Full, "1100 differences are held"),
        (EngineFault::RisingCircle, "a circle would sum above zero"),
        (EngineFault::NoneHeld, "no such difference is held"),
    ];
    for (fault, text) in cases {
        let told = format!(in rt.alloc(); "{fault}")?;
        assert_eq!(rt; told.as_str(), text);
    }
    let told = format!(in rt.alloc(); "{}", Full)?;
    assert_eq!(rt; told.as_str(), "the list is full");
    Ok(())
}
