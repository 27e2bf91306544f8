#![tactic(auto)]

// Runs both engines through the same adds and drops, counts where their answers differ, and measures them on request.
mod bench;
mod pair;
mod random;
mod tally;

use distances::distance::DistanceEngine;
use potentials::potential::PotentialEngine;
use std::env;

// Small nets make circles, large ones make long walks.
const RUNS: [(usize, u32); 3] = [(3, 1000), (24, 2000), (96, 1000)];

fn main(rt: HostRuntime) -> anyhow::Result<()> {
    let mut potential = PotentialEngine::new();
    let mut distance = DistanceEngine::new();
    for (events, turns) in RUNS {
        let tally = pair::compare(&mut potential, &mut distance, events, turns);
        println!(rt; "{events} events, {turns} turns:")?;
        println!(rt; "{tally}")?;
        println!(rt; "  answers that differ: {}", tally.differing())?;
    }
    if env::args(&rt)?.count() > 1 {
        bench::measure(&rt, "potentials", &mut potential)?;
        bench::measure(&rt, "distances", &mut distance)?;
    }
    Ok(())
}
