// What holds of all answers.
ghost use Rattle.solve_line.specs.Laws.{SolutionIsOne};

/// A line and a budget have one answer: whoever makes the rounds, with however many workers, answers the same, number
/// for number, and so the same text.
pub fn solution_is_one()
    ensures { SolutionIsOne }
{}
