// What the ticks of a hoist are.
ghost use Rattle.report_shares.specs.Laws.{SharesAddUp, CarryingIsTold};

/// The ticks at which a hoist carries, drives without a load and stands add up to the period.
pub fn shares_add_up()
    ensures { SharesAddUp }
{}

/// A tick is counted as one of carrying exactly where the hoist carries then, by some move of some period.
pub fn carrying_is_told()
    ensures { CarryingIsTold }
{}
