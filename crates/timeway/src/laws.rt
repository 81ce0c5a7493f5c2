// What the shapes of the diagram show of a timetable.
ghost use Rattle.timeway.specs.Laws.{WaysAreExact, RidesAreExact, BarsAreExact};

/// Between two neighbouring corners of a way the hoist's position changes by the same from each tick to the next: the
/// drawn line goes through the positions at all ticks.
pub fn ways_are_exact()
    ensures { WaysAreExact }
{}

/// In a legal timetable the hoist of a ride is at each tick where the drawn line is, in each period of the plot.
pub fn rides_are_exact()
    ensures { RidesAreExact }
{}

/// In a legal timetable a bar has the ticks of the stay, from the start of lowering to the end of lifting.
pub fn bars_are_exact()
    ensures { BarsAreExact }
{}
