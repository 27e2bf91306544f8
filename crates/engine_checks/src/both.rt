// What the tests of both makes share.
use engine::difference::Difference;
use engine::engine::DifferenceEngine;
use net::fault::Fault;

// The number of a refusal, or none where the call was accepted.
pub(crate) fn refusal_number<F: Fault + Drop>(answer: Result<(), F>) -> Option<u8> {
    answer.err().map(|fault| fault.refusal().number)
}

// The same for one difference more.
pub(crate) fn add<E: DifferenceEngine>(
    engine: &mut E,
    from: usize,
    to: usize,
    k: i32,
) -> Option<u8> {
    refusal_number(engine.add(Difference { from, to, k }))
}

// The difference of two numbers, or none where there is no such event.
pub(crate) fn rise<E: DifferenceEngine>(engine: &E, from: usize, to: usize) -> Option<i32> {
    let low = engine.number(from).ok()?;
    let high = engine.number(to).ok()?;
    high.checked_sub(low)
}
