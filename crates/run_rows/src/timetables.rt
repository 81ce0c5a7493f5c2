// The worked timetables, and every fault.
ghost use Rattle.std.specs.Prelude.{◌≡◌};

use crate::written::{FAR_TANK, TWICE, TWO_STATIONS, Written, parts_of};
use hoist_base::{Line, MoveId, VisitId};
use std::alloc::{AllocError, Global};
use std::test::Fail;
use timetable::{Fault, Timetable, TimetableParts, first_fault, is_legal};
use worked_lines::{
    Numbers, Row, far_tank, line_of_rows, one_bath, two_baths, two_hoists, two_stations,
};

// Each method changes one row.
impl<'a> Written<'a> {
    fn put(self, put: &'a [u64]) -> Self {
        Written { put, ..self }
    }

    fn off(self, off: &'a [u64]) -> Self {
        Written { off, ..self }
    }

    fn start(self, start: &'a [u64]) -> Self {
        Written { start, ..self }
    }

    fn hoist(self, hoist: &'a [u32]) -> Self {
        Written { hoist, ..self }
    }

    fn path(self, path: &'a [u32]) -> Self {
        Written { path, ..self }
    }

    fn tank(self, tank: &'a [u32]) -> Self {
        Written { tank, ..self }
    }
}

fn misfits(alloc: Global, line: &Line, w: Written) -> bool {
    match parts_of(alloc, &w) {
        Ok(parts) => !parts.fits(line),
        Err(_) => false,
    }
}

// Whether the parts fit the line and are legal by both answers.
fn are_legal(line: &Line, parts: TimetableParts) -> bool {
    if !parts.fits(line) {
        return false;
    }
    let t = Timetable::new(line, parts);
    is_legal(line, &t) && first_fault(line, &t).is_none()
}

fn legal(alloc: Global, line: &Line, w: Written) -> bool {
    match parts_of(alloc, &w) {
        Ok(parts) => are_legal(line, parts),
        Err(_) => false,
    }
}

// Whether the timetable fits the line, is not legal and has this first fault.
fn shows(alloc: Global, line: &Line, w: Written, fault: Fault) -> bool {
    let Ok(parts) = parts_of(alloc, &w) else {
        return false;
    };
    if !parts.fits(line) {
        return false;
    }
    let t = Timetable::new(line, parts);
    !is_legal(line, &t) && first_fault(line, &t) == Some(fault)
}

fn m(carrier: u32, step: u32) -> MoveId
    ensures carrier { result.carrier ≡ carrier }
    ensures step { result.step ≡ step }
{
    MoveId { carrier, step }
}

fn v(carrier: u32, stage: u32) -> VisitId
    ensures carrier { result.carrier ≡ carrier }
    ensures stage { result.stage ≡ stage }
{
    VisitId { carrier, stage }
}

const ONCE: Written<'static> = Written {
    period: 21,
    put: &[0],
    off: &[15],
    start: &[0, 10],
    hoist: &[0, 0],
    path: &[
        0, 0, 1, 2, 3, 3, 2, 1, 1, 2, 3, 3, 4, 5, 6, 6, 5, 4, 3, 2, 1,
    ],
    tank: &[0, 1, 2],
};

const BATHS: Written<'static> = Written {
    period: 42,
    put: &[0, 6],
    off: &[30, 36],
    start: &[0, 24, 6, 32],
    hoist: &[0, 0, 0, 0],
    path: &[
        0, 0, 1, 2, 2, 1, 0, 0, 1, 2, 3, 4, 4, 3, 2, 1, 0, 0, 0, 0, 0, 0, 0, 1, 2, 2, 3, 4, 5, 6,
        6, 5, 4, 4, 5, 6, 6, 5, 4, 3, 2, 1,
    ],
    tank: &[0, 1, 3, 0, 2, 3],
};

// Where both carriers use the one bath, the hoist isn't at it.
fn in_one_bath(alloc: Global, line: &Line, w: Written) -> bool {
    let fault = Fault::Motion {
        m: m(1, 0),
        u: 4,
        want: 2,
        seen: 3,
    };
    shows(alloc, line, w.tank(&[0, 1, 3, 0, 1, 3]), fault)
}

// Positions: above the track and too fast as well; too fast from the last tick to the first, and from the first on.
fn faulty_positions(alloc: Global, line: &Line, w: Written) -> bool {
    let high = w.path(&[2, 1, 0, 0, 1, 2, 3, 4, 5, 3]);
    let fault = Fault::Track {
        hoist: 0,
        tick: 8,
        at: 5,
    };
    if !shows(alloc, line, high, fault) {
        return false;
    }
    let round = w.path(&[2, 1, 0, 0, 1, 2, 3, 4, 4, 4]);
    let fault = Fault::Speed {
        hoist: 0,
        tick: 9,
        old: 4,
        new: 2,
    };
    if !shows(alloc, line, round, fault) {
        return false;
    }
    let fast = w.path(&[2, 0, 0, 0, 1, 2, 3, 4, 4, 3]);
    let fault = Fault::Speed {
        hoist: 0,
        tick: 0,
        old: 2,
        new: 0,
    };
    shows(alloc, line, fast, fault)
}

// The move starts a tick too late; the hoist has gone before its last tick.
fn faulty_motions(alloc: Global, line: &Line, w: Written) -> bool {
    let fault = Fault::Motion {
        m: m(0, 0),
        u: 1,
        want: 0,
        seen: 1,
    };
    if !shows(alloc, line, w.start(&[3]), fault) {
        return false;
    }
    let fault = Fault::Motion {
        m: m(0, 0),
        u: 6,
        want: 4,
        seen: 3,
    };
    shows(alloc, line, w.path(&[2, 1, 0, 0, 1, 2, 3, 4, 3, 3]), fault)
}

fn dwells(alloc: Global, line: &Line, w: Written, v: VisitId, ticks: i64) -> bool {
    shows(alloc, line, w, Fault::Dwell { v, ticks })
}

fn holds(alloc: Global, line: &Line, w: Written, a: VisitId, b: VisitId, shift: i64) -> bool {
    shows(alloc, line, w, Fault::Hold { a, b, shift })
}

fn carries(alloc: Global, line: &Line, w: Written, b: MoveId, shift: i64) -> bool {
    let a = m(0, 0);
    shows(alloc, line, w, Fault::Carry { a, b, shift })
}

// The carrier is off just as the next one is lowered, then a tick later, then after ages.
fn long_stays(alloc: Global, line: &Line, w: Written) -> bool {
    legal(alloc, line, w.off(&[17]))
        && holds(alloc, line, w.off(&[18]), v(0, 1), v(0, 1), -1)
        && holds(
            alloc,
            line,
            w.off(&[1_000_000_000]),
            v(0, 1),
            v(0, 1),
            -99_999_999,
        )
}

fn short_stays(alloc: Global, line: &Line, w: Written) -> bool {
    dwells(alloc, line, w.put(&[1]), v(0, 0), 1)
        && dwells(alloc, line, w.put(&[5]), v(0, 0), -3)
        && dwells(alloc, line, w.off(&[9]), v(0, 1), 1)
}

// In the bath a tick too short, and more than a period too long.
fn faulty_baths(alloc: Global, line: &Line, w: Written) -> bool {
    let short = w.start(&[1, 10, 21, 31]).path(&[
        0, 0, 0, 1, 2, 3, 3, 2, 1, 2, 3, 3, 4, 5, 6, 6, 5, 4, 3, 2, 1, 0, 0, 1, 2, 3, 3, 2, 1, 1,
        2, 3, 3, 4, 5, 6, 6, 5, 4, 3, 2, 1,
    ]);
    dwells(alloc, line, short, v(0, 1), 4)
        && dwells(
            alloc,
            line,
            w.start(&[0, 10, 21, 73]).off(&[15, 78]),
            v(1, 1),
            47,
        )
}

// Both carriers go at once, in the same period or in others.
fn two_carried(alloc: Global, line: &Line, w: Written) -> bool {
    carries(alloc, line, w.start(&[0, 10, 0, 10]), m(1, 0), 0)
        && carries(alloc, line, w.start(&[0, 10, 84, 94]), m(1, 0), -2)
        && carries(alloc, line, w.start(&[126, 136, 0, 10]), m(1, 0), 3)
}

// Two at once; the last with the first of the next period.
fn faulty_numbers(alloc: Global, line: &Line, w: Written) -> bool {
    let fault = Fault::Numbering {
        carrier: 0,
        put: 0,
        next: 0,
    };
    if !shows(alloc, line, w.put(&[0, 0]), fault) {
        return false;
    }
    let late = w.put(&[0, 42]).start(&[0, 10, 63, 73]).off(&[15, 78]);
    let fault = Fault::Numbering {
        carrier: 1,
        put: 42,
        next: 42,
    };
    shows(alloc, line, late, fault)
}

// A long stay at the load station meets a copy of itself, then the other carrier; the carrier before is still at the
// unload station.
fn two_held(alloc: Global, line: &Line, w: Written) -> bool {
    let copies = w.put(&[10, 21]).start(&[126, 136, 21, 31]).off(&[141, 36]);
    let others = w.put(&[10, 21]).start(&[42, 52, 21, 31]).off(&[57, 36]);
    let before = w.put(&[42, 63]).start(&[42, 52, 63, 73]).off(&[57, 99]);
    holds(alloc, line, copies, v(0, 0), v(0, 0), -2)
        && holds(alloc, line, others, v(0, 0), v(1, 0), 0)
        && holds(alloc, line, before, v(0, 2), v(1, 2), -1)
}

fn too_near(alloc: Global, line: &Line, w: Written) -> bool {
    let near = w.path(&[0, 0, 1, 2, 3, 3, 2, 1, 0, 3, 3, 3, 3, 5, 6, 6, 5, 4]);
    let fault = Fault::Gap {
        hoist: 0,
        tick: 3,
        low: 2,
        high: 3,
    };
    shows(alloc, line, near, fault)
}

fn wrong_lengths(alloc: Global, line: &Line, w: Written) -> bool {
    misfits(alloc, line, Written { period: 8, ..w })
        && misfits(alloc, line, w.put(&[0, 0]))
        && misfits(alloc, line, w.off(&[]))
        && misfits(alloc, line, w.start(&[0, 10, 20]))
        && misfits(alloc, line, w.hoist(&[0]))
        && misfits(alloc, line, w.tank(&[0, 1]))
}

fn wrong_numbers(alloc: Global, line: &Line, w: Written) -> bool {
    misfits(alloc, line, Written { period: 0, ..w }.path(&[]))
        && misfits(alloc, line, w.put(&[1_000_000_001]))
        && misfits(alloc, line, w.off(&[1_000_000_001]))
        && misfits(alloc, line, w.start(&[0, 1_000_000_001]))
        && misfits(alloc, line, w.hoist(&[0, 2]))
        && misfits(alloc, line, w.tank(&[0, 2, 2]))
}

#[test]
fn timetables_of_two_stations(rt: HostRuntime) -> Result<(), Fail> {
    let alloc = rt.alloc();
    let line = two_stations(alloc).ok_or("no line")?;
    assert!(rt; legal(alloc, &line, TWO_STATIONS));
    assert!(rt; faulty_positions(alloc, &line, TWO_STATIONS));
    assert!(rt; faulty_motions(alloc, &line, TWO_STATIONS));
    assert!(rt; short_stays(alloc, &line, TWO_STATIONS));
    assert!(rt; long_stays(alloc, &line, TWO_STATIONS));
    Ok(())
}

#[test]
fn timetables_of_two_carriers(rt: HostRuntime) -> Result<(), Fail> {
    let alloc = rt.alloc();
    let line = one_bath(alloc).ok_or("no line")?;
    assert!(rt; legal(alloc, &line, ONCE));
    let line = line.of_degree(alloc, 2)?;
    assert!(rt; legal(alloc, &line, TWICE));
    assert!(rt; faulty_baths(alloc, &line, TWICE));
    assert!(rt; two_carried(alloc, &line, TWICE));
    assert!(rt; faulty_numbers(alloc, &line, TWICE));
    assert!(rt; two_held(alloc, &line, TWICE));
    Ok(())
}

#[test]
fn timetables_with_more_hoists_or_tanks(rt: HostRuntime) -> Result<(), Fail> {
    let alloc = rt.alloc();
    let hoists = two_hoists(alloc).ok_or("no line")?;
    assert!(rt; legal(alloc, &hoists, FAR_TANK));
    assert!(rt; too_near(alloc, &hoists, FAR_TANK));
    assert!(rt; wrong_lengths(alloc, &hoists, FAR_TANK));
    assert!(rt; wrong_numbers(alloc, &hoists, FAR_TANK));
    let far = far_tank(alloc).ok_or("no line")?;
    assert!(rt; legal(alloc, &far, FAR_TANK));
    let baths = two_baths(alloc).ok_or("no line")?;
    assert!(rt; legal(alloc, &baths, BATHS));
    assert!(rt; in_one_bath(alloc, &baths, BATHS));
    Ok(())
}

// What the readers answer on the timetable of two hoists.
fn reads(line: &Line, parts: TimetableParts) -> bool {
    if !parts.fits(line) || line.degree() != 1 || line.inner() != 1 || line.hoists() != 2 {
        return false;
    }
    let t = Timetable::new(line, parts);
    if t.period() != 9 || t.carriers() != 1 || t.moves() != 2 {
        return false;
    }
    t.put(0) == 0
        && t.off(0) == 15
        && t.start(m(0, 1)) == 10
        && t.hoist(m(0, 1)) == 1
        && t.tank(v(0, 2)) == 2
        && t.path(1, 3) == 4
        && t.position(1, 12) == 4
}

#[test]
fn readers_of_a_timetable(rt: HostRuntime) -> Result<(), Fail> {
    let alloc = rt.alloc();
    let line = two_hoists(alloc).ok_or("no line")?;
    assert!(rt; reads(&line, parts_of(alloc, &FAR_TANK)?));
    Ok(())
}

// Stage k of a line of 32 stages at two tanks in turn.
fn to_and_fro(k: u32) -> Row<'static> {
    let tanks: &[u32] = if k % 2 == 0 { &[0] } else { &[1] };
    Row {
        tanks,
        min: if k == 0 || k == 31 { 0 } else { 1 },
        max: None,
        lift: if k == 31 { 0 } else { 1 },
        lower: if k == 0 { 0 } else { 1 },
    }
}

fn long_line(alloc: Global) -> Option<Line> {
    let numbers = Numbers {
        track: 10,
        gap: 1,
        hoists: 6,
        degree: 4,
        max_period: 20_000,
        load: 0,
        unload: 0,
    };
    let mut rows = Vec::new(alloc);
    for k in 0..32 {
        if rows.push(to_and_fro(k)).is_err() {
            return None;
        }
    }
    line_of_rows(alloc, numbers, &[("low", 0), ("high", 1)], rows.as_slice())
}

// Hoist 0 goes to and fro each 8 ticks, the others stand above it.
fn long_path(alloc: Global) -> Result<Vec<u32>, AllocError> {
    let mut path = Vec::new(alloc);
    for tick in 0..20_000u32 {
        path.push(if 2 <= tick % 8 && tick % 8 < 6 { 1 } else { 0 })?;
    }
    for number in 20_000..120_000u32 {
        path.push(number / 20_000 + 1)?;
    }
    Ok(path)
}

fn long_starts(alloc: Global) -> Result<Vec<u64>, AllocError> {
    let mut start = Vec::new(alloc);
    for number in 0..124u64 {
        start.push(128 * (number / 31) + 4 * (number % 31))?;
    }
    Ok(start)
}

fn long_tanks(alloc: Global) -> Result<Vec<u32>, AllocError> {
    let mut tank = Vec::new(alloc);
    for number in 0..128u32 {
        tank.push(number % 2)?;
    }
    Ok(tank)
}

fn long_parts(alloc: Global) -> Result<TimetableParts, AllocError> {
    let put = Vec::from_slice(alloc, &[0, 128, 256, 384])?;
    let off = Vec::from_slice(alloc, &[123, 251, 379, 507])?;
    let start = long_starts(alloc)?;
    let hoist = Vec::from_slice(alloc, &[0; 124])?;
    let path = long_path(alloc)?;
    let tank = long_tanks(alloc)?;
    Ok(TimetableParts {
        period: 20_000,
        put,
        off,
        start,
        hoist,
        path,
        tank,
    })
}

// As long as a timetable can be: 124 moves of a hoist in 20,000 ticks, under five other hoists.
#[test]
fn a_timetable_of_the_greatest_size_is_legal(rt: HostRuntime) -> Result<(), Fail> {
    let alloc = rt.alloc();
    let line = long_line(alloc).ok_or("no line")?;
    assert!(rt; are_legal(&line, long_parts(alloc)?));
    Ok(())
}
