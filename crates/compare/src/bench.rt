// How long an add and a drop take, on 96 events with 500 held differences.
use crate::random::Random;
use engine::engine::DifferenceEngine;
use std::io;
use std::time::Instant;

const EVENTS: usize = 96;

const HELD: usize = 500;

const TRIES: u32 = 100000;

const TURNS: u32 = 2000;

// Holds 500 random precedences, or as many as the tries give.
fn fill<E: DifferenceEngine>(engine: &mut E, random: &mut Random) {
    let _ = engine.wipe(EVENTS);
    for _ in 0..TRIES {
        if engine.held_count() >= HELD {
            return;
        }
        let _ = engine.add(random.precedence(EVENTS));
    }
}

// Adds a random precedence, and drops it again where it is held; answers how many calls that were.
fn add_and_drop<E: DifferenceEngine>(engine: &mut E, random: &mut Random) -> u32 {
    if engine.add(random.precedence(EVENTS)).is_err() {
        return 1;
    }
    let _ = engine.drop_newest();
    2
}

pub(crate) fn measure<E: DifferenceEngine>(
    rt: &HostRuntime,
    name: &str,
    engine: &mut E,
) -> io::Result<()> {
    let mut random = Random::new();
    fill(engine, &mut random);
    let held = engine.held_count();
    let start = Instant::now(rt)?;
    let mut calls: u32 = 0;
    for _ in 0..TURNS {
        calls = calls.saturating_add(add_and_drop(engine, &mut random));
    }
    let nanos = start.elapsed(rt)?.as_nanos() / u128::from(calls.max(1));
    println!(rt; "{name}: {held} held, {calls} adds and drops, {nanos} ns each")
}
