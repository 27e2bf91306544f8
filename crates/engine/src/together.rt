// Several differences at once, for every engine.
ghost use Rattle.std.specs.Prelude.{◌≡◌, take};
ghost use Rattle.engine.specs.Together.{AllAdded, AddedInOrder};

use crate::difference::Difference;
use crate::engine::DifferenceEngine;
use crate::fault::EngineFault;

// Adds the differences in order, and stops at the first that is refused.
fn add_in_order<E: DifferenceEngine>(
    engine: &mut E,
    differences: &[Difference],
) -> Result<(), EngineFault>
    ensures { AddedInOrder differences.now (E.DifferenceEngine.state engine.old) (E.DifferenceEngine.state engine.new) result }
{
    for difference in differences {
        engine.add(*difference)?;
    }
    Ok(())
}

// Drops the newest differences until at most `count` are held.
fn shorten_to<E: DifferenceEngine>(engine: &mut E, count: usize)
    ensures events { (E.DifferenceEngine.state engine.new).events ≡ (E.DifferenceEngine.state engine.old).events }
    ensures held { (E.DifferenceEngine.state engine.new).held ≡ take count (E.DifferenceEngine.state engine.old).held }
{
    // no number is kept here: the engine is asked
    while engine.held_count() > count {
        let _ = engine.drop_newest();
    }
}

// Adds all of the differences in order, or none of them.
pub fn add_all<E: DifferenceEngine>(
    engine: &mut E,
    differences: &[Difference],
) -> Result<(), EngineFault>
    ensures { AllAdded differences.now (E.DifferenceEngine.state engine.old) (E.DifferenceEngine.state engine.new) result }
{
    let before = engine.held_count();
    if let Err(fault) = add_in_order(engine, differences) {
        shorten_to(engine, before);
        return Err(fault);
    }
    Ok(())
}
