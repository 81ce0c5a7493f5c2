// Drives of runs.
ghost use Rattle.std.specs.Prelude.{◌≡◌, ◌≤◌};
ghost use Rattle.line_model.specs.Legal.{IsLegal};
ghost use Rattle.timetable.specs.TimetableData.{timetable_of, FitsLine};
ghost use Rattle.startup_rundown.specs.Driving.{RunsThrough, PlaysThrough};
ghost use Rattle.startup_rundown.specs.Runner.{IsReady};

use crate::runner::Runner;
use hoist_base::Line;
use timetable::Timetable;

/// The driver of the run of the first 1 to 1,000 carriers of a legal timetable, from its first put to its last off.
///
/// By its orders the machine makes no breach, from an empty line to an empty line, and logs the run. It takes no
/// memory.
pub fn drive<'a>(line: &'a Line, t: &'a Timetable, carriers: u64) -> Runner<'a>
    requires fits { FitsLine line.now t.now }
    requires legal { IsLegal line.now (timetable_of t.now) }
    requires carriers { (1 ≤ carriers) × (carriers ≤ 1000) }
    ensures runner { result ≡ record { line = line.now; timetable = t.now; carriers = carriers } }
    ensures run { RunsThrough line.now (timetable_of t.now) carriers }
    ensures done { PlaysThrough line.now (timetable_of t.now) carriers }
    ensures ready { IsReady line.now (timetable_of t.now) carriers }
{
    Runner::new(line, t, carriers)
}
