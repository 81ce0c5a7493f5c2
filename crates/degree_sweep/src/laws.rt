// What holds of all sweeps.
ghost use Rattle.degree_sweep.specs.Laws.{SweepIsOne};

/// A line, the greatest degree and a budget have one sweep, whoever makes the rounds of its searches.
pub fn sweep_is_one()
    ensures { SweepIsOne }
{}
