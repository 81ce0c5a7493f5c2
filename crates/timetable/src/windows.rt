// Faults of the carriers' times: a dwell outside its window, or puts out of order.
ghost use Rattle.std.specs.Prelude.{◌≡◌, ◌<◌, ◌≤◌, ◌⊎◌, ◌↔◌, ◌<ℤ◌, pos, IsTrue, MatchOption};
ghost use Rattle.hoist_base.specs.LineData.{IsVisit, IsStageOf, stage};
ghost use Rattle.timetable.specs.TimetableData.{timetable_of, FitsLine};
ghost use Rattle.timetable.specs.Faults as faults;

use crate::fault::Fault;
use crate::timetable::Timetable;
use crate::visits::{arrival, departure};
use hoist_base::{Line, VisitId};

/// The first visit whose dwell is outside its window.
pub(crate) fn first_dwell(line: &Line, t: &Timetable) -> Option<Fault>
    requires { FitsLine line.now t.now }
    ensures { faults.IsFirstOf 5 line.now (timetable_of t.now) result }
{
    for number in 0..line.visit_count() {
        let v = line.visit_at(number);
        let ticks = dwell(line, t, v);
        if is_outside(line, v.stage, ticks) {
            return Some(Fault::Dwell { v, ticks });
        }
    }
    None
}

/// The ticks that a carrier rests in its tank, from its arrival to its departure; below 0 where it would leave before
/// it comes. The line has the visit, and the timetable fits the line.
pub fn dwell(line: &Line, t: &Timetable, v: VisitId) -> i64
    requires fits { FitsLine line.now t.now }
    requires there { IsVisit line.now v.carrier v.stage }
    ensures { result ≡ faults.dwell line.now (timetable_of t.now) v.carrier v.stage }
{
    departure(line, t, v) as i64 - arrival(line, t, v) as i64
}

// Whether a dwell at this stage is below the least or above the greatest.
fn is_outside(line: &Line, k: u32, ticks: i64) -> bool
    requires { IsStageOf line.now k }
    ensures { IsTrue result ↔ ((ticks <ℤ pos (faults.least_dwell line.now k))
        ⊎ MatchOption (stage line.now k).max ⊥ (λ m. pos m <ℤ ticks)) }
{
    if ticks < least_dwell(line, k) as i64 {
        return true;
    }
    match line.stages()[k as usize].max {
        Some(max) => ticks > max as i64,
        None => false,
    }
}

/// The fewest ticks that a carrier has to rest at stage k of the line: the stage's own `min`, but at the load station
/// the ticks that a load takes, and at the unload station those that an unload takes.
pub fn least_dwell(line: &Line, k: u32) -> u32
    requires { IsStageOf line.now k }
    ensures { result ≡ faults.least_dwell line.now k }
{
    if k == 0 {
        line.load()
    } else if k == line.inner() + 1 {
        line.unload()
    } else {
        line.stages()[k as usize].min
    }
}

/// The first carrier that isn't put on before the next one.
pub(crate) fn first_numbering(line: &Line, t: &Timetable) -> Option<Fault>
    requires { FitsLine line.now t.now }
    ensures { faults.IsFirstOf 6 line.now (timetable_of t.now) result }
{
    for carrier in 0..line.degree() {
        let put = t.put(carrier);
        let next = next_put(line, t, carrier);
        if next <= put {
            return Some(Fault::Numbering { carrier, put, next });
        }
    }
    None
}

// When the carrier after this one is put on: after the last comes the first of the next period.
fn next_put(line: &Line, t: &Timetable, carrier: u32) -> u64
    requires fits { FitsLine line.now t.now }
    requires there { carrier < line.now.degree }
    ensures { result ≡ faults.next_put line.now (timetable_of t.now) carrier }
{
    let carriers = line.degree();
    if carrier + 1 == carriers {
        t.put(0) + t.period() as u64
    } else {
        t.put(carrier + 1)
    }
}
