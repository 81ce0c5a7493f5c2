// Laws of loops: functions that do nothing and whose contracts say what holds of every line and loop.
ghost use Rattle.machine_loops.specs.Loops.{LoopsAreTimetables, NoLoopIsShorter};

/// Every loop of the tick machine shows a legal timetable whose period is its length: the ticks at which its carriers
/// are put on, moved and taken off, by which hoists and in which tanks, and where the hoists are.
pub fn loops_are_timetables()
    ensures { LoopsAreTimetables }
{}

/// Where no legal timetable has a smaller period than some number, no loop is shorter: so none is shorter than the
/// least period of a legal timetable.
pub fn no_loop_is_shorter()
    ensures { NoLoopIsShorter }
{}
