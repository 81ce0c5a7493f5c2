// What holds of all paths that a search asks.
ghost use Rattle.enough_budget.specs.Laws.{NeverAgain, HasFewChildren, StaysAbove};

/// No question comes twice on a path: the least ticks below it keep what was decided, so they leave no decided order
/// open, and a tank or a hoist is chosen once.
pub fn never_again()
    ensures { NeverAgain }
{}

/// A question that is asked has at least two children and at most as many as there are hoists, or tanks of a stage, or
/// two.
pub fn has_few_children()
    ensures { HasFewChildren }
{}

/// A path below which a question is asked is shorter than the line's depth: its questions are different ones, and the
/// second of an order is moved by few periods where the least ticks leave it open.
pub fn stays_above()
    ensures { StaysAbove }
{}
