// What can be wrong with a timetable.
use hoist_base::{MoveId, VisitId};

/// A fault of a timetable. Faults are ordered by their variants in this order, then by their values in the order of the
/// fields.
///
/// Ticks of the period go from 0 on; positions are those of the timetable.
#[derive(Clone, Copy, Debug, PartialEq, Eq)]
pub enum Fault {
    /// The position `at` of a hoist at a tick is above the track.
    Track {
        hoist: u32,
        tick: u32,
        at: u32,
    },
    /// The next hoist, at `high`, is nearer to this one, at `low`, than the gap.
    Gap {
        hoist: u32,
        tick: u32,
        low: u32,
        high: u32,
    },
    /// From this tick to the next, from the last to the first too, a hoist changes its position by more than 1.
    Speed {
        hoist: u32,
        tick: u32,
        old: u32,
        new: u32,
    },
    /// `u` ticks after the start of a move its hoist has to be at `want` and is at `seen`.
    Motion {
        m: MoveId,
        u: u32,
        want: u32,
        seen: u32,
    },
    /// One hoist carries by move `a` and by move `b`, `shift` periods later, at one tick.
    Carry {
        a: MoveId,
        b: MoveId,
        shift: i64,
    },
    /// The dwell of a visit, below 0 where it would end before it begins, is not in its window.
    Dwell {
        v: VisitId,
        ticks: i64,
    },
    /// A carrier is put on at the tick `put`, which isn't before the tick `next` of the one after it.
    Numbering {
        carrier: u32,
        put: u64,
        next: u64,
    },
    /// Visit `a` and visit `b`, `shift` periods later, hold one tank at one tick.
    Hold {
        a: VisitId,
        b: VisitId,
        shift: i64,
    },
}
