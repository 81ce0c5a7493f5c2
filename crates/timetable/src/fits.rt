// Whether parts make a timetable of a line. Each rule is a function of its own.
ghost use Rattle.std.specs.Prelude.{◌≡◌, ◌<◌, ◌↔◌, IsTrue, length};
ghost use Rattle.std.specs.List.{Contains};
ghost use Rattle.hoist_base.specs.LineData.{last_stage, Serves};
ghost use Rattle.hoist_base.specs.Routes.{IsRoute};
ghost use Rattle.timetable.specs.TimetableData.{IsTimetableOf};
ghost use Rattle.timetable.specs.PartsData.{data_of};
ghost use Rattle.timetable.specs.FitTests.{HasCounts, AreTicks, AreBelow};

use crate::parts::TimetableParts;
use hoist_base::Line;

impl TimetableParts {
    /// Whether these parts make a timetable of the line: whether each list has its length there, the period and the
    /// ticks keep their bounds, each hoist is there, and each tank is one of its stage. It takes no memory.
    pub fn fits(&self, line: &Line) -> bool
        ensures { IsTrue result ↔ IsTimetableOf line.now (data_of (last_stage line.now) self.now) }
    {
        has_counts(line, self)
            && are_ticks(self.put.as_slice())
            && are_ticks(self.off.as_slice())
            && are_ticks(self.start.as_slice())
            && are_below(self.hoist.as_slice(), line.hoists())
            && is_route(line, self.tank.as_slice())
    }
}

fn has_counts(line: &Line, parts: &TimetableParts) -> bool
    ensures { IsTrue result ↔ HasCounts line.now (data_of (last_stage line.now) parts.now) }
{
    if parts.period < 1 || parts.period > 20_000 {
        return false;
    }
    let carriers = line.degree() as usize;
    let moves = line.inner() as usize + 1;
    let positions = line.hoists() as usize * parts.period as usize;
    are_counts(parts, carriers, carriers * moves, positions)
}

fn are_counts(parts: &TimetableParts, carriers: usize, moves: usize, positions: usize) -> bool
    ensures { IsTrue result ↔ ((length parts.now.put.items ≡ carriers) × (length parts.now.off.items ≡ carriers)
        × (length parts.now.start.items ≡ moves) × (length parts.now.hoist.items ≡ moves)
        × (length parts.now.path.items ≡ positions)) }
{
    parts.put.len() == carriers
        && parts.off.len() == carriers
        && parts.start.len() == moves
        && parts.hoist.len() == moves
        && parts.path.len() == positions
}

fn are_ticks(ticks: &[u64]) -> bool
    ensures { IsTrue result ↔ AreTicks ticks.now }
{
    for tick in ticks {
        if *tick > 1_000_000_000 {
            return false;
        }
    }
    true
}

fn are_below(numbers: &[u32], limit: u32) -> bool
    ensures { IsTrue result ↔ AreBelow numbers.now limit }
{
    for number in numbers {
        if *number >= limit {
            return false;
        }
    }
    true
}

fn is_route(line: &Line, tanks: &[u32]) -> bool
    ensures { IsTrue result ↔ IsRoute line.now tanks.now }
{
    let stages = line.stages();
    if tanks.len() != line.degree() as usize * stages.len() {
        return false;
    }
    for number in 0..tanks.len() {
        if !is_served(line, tanks[number], number % stages.len()) {
            return false;
        }
    }
    true
}

fn is_served(line: &Line, tank: u32, stage: usize) -> bool
    requires { stage < length line.now.stages }
    ensures { IsTrue result ↔ Serves line.now tank stage }
{
    is_one_of(tank, line.stages()[stage].tanks.as_slice())
}

fn is_one_of(number: u32, numbers: &[u32]) -> bool
    ensures { IsTrue result ↔ Contains numbers.now number }
{
    for other in numbers {
        if *other == number {
            return true;
        }
    }
    false
}
