//! What the kinds of atomic steps do to the board's words and to what the seats know.

ghost use Rattle.claim_board.specs.Steps.{StepsKeepRule};

/// Each kind of step keeps the board's rule, from any state that meets it; so the rule holds at
/// every moment of a running board, whatever the number of threads.
pub fn steps_keep_rule()
    ensures { StepsKeepRule }
{}
