// Timetables as rows of numbers, and those that several modules take.
ghost use Rattle.std.specs.Prelude.{IfOk};
ghost use Rattle.line_model.specs.Legal.{IsLegal};
ghost use Rattle.timetable.specs.TimetableData.{timetable_of, FitsLine};

use hoist_base::Line;
use std::alloc::{AllocError, Global};
use timetable::{Timetable, TimetableParts, is_legal};

/// A timetable as rows of numbers.
#[derive(Clone, Copy)]
pub(crate) struct Written<'a> {
    pub(crate) period: u32,
    pub(crate) put: &'a [u64],
    pub(crate) off: &'a [u64],
    pub(crate) start: &'a [u64],
    pub(crate) hoist: &'a [u32],
    pub(crate) path: &'a [u32],
    pub(crate) tank: &'a [u32],
}

/// The parts of a timetable with these rows.
pub(crate) fn parts_of(alloc: Global, w: &Written) -> Result<TimetableParts, AllocError> {
    Ok(TimetableParts {
        period: w.period,
        put: Vec::from_slice(alloc, w.put)?,
        off: Vec::from_slice(alloc, w.off)?,
        start: Vec::from_slice(alloc, w.start)?,
        hoist: Vec::from_slice(alloc, w.hoist)?,
        path: Vec::from_slice(alloc, w.path)?,
        tank: Vec::from_slice(alloc, w.tank)?,
    })
}

/// The timetable of a line with these rows, or why it isn't a legal one.
pub(crate) fn legal_of(alloc: Global, line: &Line, w: &Written) -> Result<Timetable, &'static str>
    ensures fits { IfOk result (λ t. FitsLine line.now t) }
    ensures legal { IfOk result (λ t. IsLegal line.now (timetable_of t)) }
{
    let Ok(parts) = parts_of(alloc, w) else {
        return Err("no memory");
    };
    if !parts.fits(line) {
        return Err("does not fit");
    }
    let t = Timetable::new(line, parts);
    if !is_legal(line, &t) {
        return Err("not legal");
    }
    Ok(t)
}

/// Two stations.
pub(crate) const TWO_STATIONS: Written<'static> = Written {
    period: 10,
    put: &[0],
    off: &[10],
    start: &[2],
    hoist: &[0],
    path: &[2, 1, 0, 0, 1, 2, 3, 4, 4, 3],
    tank: &[0, 1],
};

/// The same, five ticks later.
pub(crate) const TURNED: Written<'static> = Written {
    period: 10,
    put: &[5],
    off: &[15],
    start: &[7],
    hoist: &[0],
    path: &[2, 3, 4, 4, 3, 2, 1, 0, 0, 1],
    tank: &[0, 1],
};

/// The far tank, or two hoists: the second takes the carrier out of the tank to which the first brings it.
pub(crate) const FAR_TANK: Written<'static> = Written {
    period: 9,
    put: &[0],
    off: &[15],
    start: &[0, 10],
    hoist: &[0, 1],
    path: &[0, 0, 1, 2, 3, 3, 2, 1, 0, 3, 3, 3, 4, 5, 6, 6, 5, 4],
    tank: &[0, 1, 2],
};

/// One tank for load and unload.
pub(crate) const ONE_STATION: Written<'static> = Written {
    period: 19,
    put: &[0],
    off: &[19],
    start: &[2, 12],
    hoist: &[0, 0],
    path: &[0, 0, 0, 0, 1, 2, 3, 3, 3, 3, 3, 3, 3, 3, 2, 1, 0, 0, 0],
    tank: &[0, 1, 0],
};

/// One bath, two carriers in each period.
pub(crate) const TWICE: Written<'static> = Written {
    period: 42,
    put: &[0, 21],
    off: &[15, 36],
    start: &[0, 10, 21, 31],
    hoist: &[0, 0, 0, 0],
    path: &[
        0, 0, 1, 2, 3, 3, 2, 1, 1, 2, 3, 3, 4, 5, 6, 6, 5, 4, 3, 2, 1, 0, 0, 1, 2, 3, 3, 2, 1, 1,
        2, 3, 3, 4, 5, 6, 6, 5, 4, 3, 2, 1,
    ],
    tank: &[0, 1, 2, 0, 1, 2],
};
