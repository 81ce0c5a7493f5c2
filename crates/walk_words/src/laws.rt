//! What the sums of a walk say of the period.
ghost use Rattle.walk_words.specs.Laws.{PeriodsAreExact, BoundIsExact};

/// A closed walk refutes exactly the periods that aren't among those which `periods_of` leaves.
pub fn periods_are_exact()
    ensures { PeriodsAreExact }
{}

/// A stated least period is exactly the first one that the walk doesn't refute.
pub fn bound_is_exact()
    ensures { BoundIsExact }
{}
