// What holds of all outcomes.
ghost use Rattle.branch_rounds.specs.Laws.{SearchIsOne};

/// A line and a budget have one outcome: tree, best, bound, splits and what is left are the same whoever makes the
/// rounds.
pub fn search_is_one()
    ensures { SearchIsOne }
{}
