// What holds of differences and of every engine: each function's contract is a theorem, and the crate is not proved without it.
// There is nothing to compute, and each theorem has a function by its name.
ghost use Rattle.engine.specs.Laws.{PartsHaveNoRisingCircle, OrderDoesNotMatter, NewestClosesNoRisingCircle, NumbersExcludeRisingCircles, LevelExactlyIfNumbersMeet, WalksShorten, AcceptsExactlyWithoutRisingCircle, OneAnswer, Worked};

// Where no circle rises, none rises among some of the differences.
pub fn parts_have_no_rising_circle()
    ensures { PartsHaveNoRisingCircle }
{}

// Whether a circle rises depends on the differences alone, not on their order.
#[tactic(auto, using(crate::proofs::Theorems::order))]
pub fn order_does_not_matter()
    ensures { OrderDoesNotMatter }
{}

// No circle rises with one difference more exactly if none rose before and none rises through it.
pub fn newest_closes_no_rising_circle()
    ensures { NewestClosesNoRisingCircle }
{}

// Numbers that meet every difference leave no circle that rises.
pub fn numbers_exclude_rising_circles()
    ensures { NumbersExcludeRisingCircles }
{}

// No circle rises exactly if some numbers meet every difference.
#[tactic(auto, using(crate::proofs::Theorems::level))]
pub fn level_exactly_if_numbers_meet()
    ensures { LevelExactlyIfNumbersMeet }
{}

// Where no circle rises, walks need not visit an event twice.
#[tactic(auto, using(crate::proofs::Theorems::shortens))]
pub fn walks_shorten()
    ensures { WalksShorten }
{}

// An engine refuses a lawful difference that it has room for only because of a rising circle.
pub fn accepts_exactly_without_rising_circle()
    ensures { AcceptsExactlyWithoutRisingCircle }
{}

// Two engines with the same events and held differences answer alike.
pub fn one_answer()
    ensures { OneAnswer }
{}

// Four small lists, with and without a rising circle.
#[tactic(auto, using(crate::proofs::Theorems::worked))]
pub fn worked_examples()
    ensures { Worked }
{}
