// What holds of all batches.
ghost use Rattle.batch_lines.specs.Laws.{SinglesAreOne, BatchIsOne};

/// The lines and the budget have one list of what is printed of them, whoever solves them.
pub fn singles_are_one()
    ensures { SinglesAreOne }
{}

/// What was read of the files, and the budget, have one text.
pub fn batch_is_one()
    ensures { BatchIsOne }
{}
