// Laws of the runs of legal timetables.
ghost use Rattle.startup_rundown.specs.Driving.{StartsUpAndRunsDown};
ghost use Rattle.startup_rundown.specs.LogLaws.{LogIsWhole};

/// Start-up and run-down: by the orders of any legal timetable, for any number of carriers, the machine goes from
/// an empty line to an empty line without a breach, and its log is the one that is read off the timetable.
pub fn starts_up_and_runs_down()
    ensures { StartsUpAndRunsDown }
{}

/// The log of a run is whole. It leaves nothing out: it has each put and each off of the run's carriers, and the begin
/// and the set of each of their moves, at their ticks. It holds nothing else, and each event once. Its events come in
/// the order of their ticks; inside a tick sets come first, then the off, the put and begins; sets and begins go by
/// hoist.
pub fn log_is_whole()
    ensures { LogIsWhole }
{}
