//! What the definitions amount to.

ghost use Rattle.longest_path.specs.Laws.{ValuesAreGreatest, RoundsStay, ClosedWalkRefutes, LeastIsOne};

/// The row after m rounds has the greatest weights of walks of at most m constraints over the first row, and after a
/// round that changes nothing it stays.
pub fn round_laws()
    ensures values { ValuesAreGreatest }
    ensures stay { RoundsStay }
{}

/// A closed walk whose sums refute a period leaves no solution there; and there is one least solution only.
pub fn solution_laws()
    ensures refuted { ClosedWalkRefutes }
    ensures one { LeastIsOne }
{}
