//! What the definitions amount to.

ghost use Rattle.cycle_walk.specs.Laws.{ValuesAreGreatest, FeasibleWhereStill, StoppingIsExact};
ghost use Rattle.cycle_walk.specs.Laws.{WalkIsCanonical, CanonicalIsOne};
ghost use Rattle.cycle_walk.specs.Laws.{WalksRefute, SumsAreSmall, LeastKeptIsLeast};

/// A walk value is the greatest weight of a walk of at most so many constraints that ends at its node; a period is
/// feasible exactly where no node grows in the last round; and after a round that changes nothing all later values are
/// the same.
pub fn value_laws()
    ensures values { ValuesAreGreatest }
    ensures feasible { FeasibleWhereStill }
    ensures stopping { StoppingIsExact }
{}

/// The canonical closed walk meets its rule, and no other walk does.
pub fn canonical_laws()
    ensures canonical { WalkIsCanonical }
    ensures one { CanonicalIsOne }
{}

/// A closed walk that refutes a period leaves no solution there; its sums are small; and with a q below 0 it refutes
/// exactly the periods below the next one of the climb.
pub fn refuting_laws()
    ensures refuted { WalksRefute }
    ensures small { SumsAreSmall }
    ensures next { LeastKeptIsLeast }
{}
