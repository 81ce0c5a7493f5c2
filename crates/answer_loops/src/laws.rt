// What holds of all optimal answers and all loops.
ghost use Rattle.answer_loops.specs.Laws.{NoLoopIsShorter};

/// Where the answer to a line is optimal, no loop of the tick machine for that line, whose degree it has, is shorter
/// than the period of the answer: whatever the machine can do for ever takes at least so many ticks.
pub fn no_loop_is_shorter()
    ensures { NoLoopIsShorter }
{}
