// Faults of the hoists' positions: above the track, too near to one another, or too fast.
ghost use Rattle.std.specs.Prelude.{◌≡◌};
ghost use Rattle.line_model.specs.Timetable.{position};
ghost use Rattle.hoist_base.specs.Valid.{IsLine};
ghost use Rattle.timetable.specs.TimetableData.{timetable_of, FitsLine, IsTimetable};
ghost use Rattle.timetable.specs.Faults.{IsFirstOf};

use crate::fault::Fault;
use crate::timetable::Timetable;
use hoist_base::Line;

/// The first position above the track.
pub(crate) fn first_track(line: &Line, t: &Timetable) -> Option<Fault>
    requires { FitsLine line.now t.now }
    ensures first { IsFirstOf 0 line.now (timetable_of t.now) result }
    ensures line { IsLine line.now }
    ensures timetable { IsTimetable t.now }
{
    let period = t.period();
    for number in 0..line.hoists() * period {
        let hoist = number / period;
        let tick = number % period;
        let at = t.position(hoist, tick as u64);
        if at > line.track() {
            return Some(Fault::Track { hoist, tick, at });
        }
    }
    None
}

/// The first two neighbouring hoists that are nearer than the gap.
pub(crate) fn first_gap(line: &Line, t: &Timetable) -> Option<Fault>
    requires { FitsLine line.now t.now }
    ensures { IsFirstOf 1 line.now (timetable_of t.now) result }
{
    let period = t.period();
    for number in 0..(line.hoists() - 1) * period {
        let hoist = number / period;
        let tick = number % period;
        let low = t.position(hoist, tick as u64);
        let high = t.position(hoist + 1, tick as u64);
        if (high as u64) < low as u64 + line.gap() as u64 {
            return Some(Fault::Gap {
                hoist,
                tick,
                low,
                high,
            });
        }
    }
    None
}

/// The first change of a position by more than 1 from a tick to the next, from the last to the first too.
pub(crate) fn first_speed(line: &Line, t: &Timetable) -> Option<Fault>
    requires { FitsLine line.now t.now }
    ensures { IsFirstOf 2 line.now (timetable_of t.now) result }
{
    let period = t.period();
    for number in 0..line.hoists() * period {
        let hoist = number / period;
        let tick = number % period;
        let old = t.position(hoist, tick as u64);
        let new = t.position(hoist, tick as u64 + 1);
        if old.abs_diff(new) > 1 {
            return Some(Fault::Speed {
                hoist,
                tick,
                old,
                new,
            });
        }
    }
    None
}
