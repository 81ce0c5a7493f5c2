// The starts that leave the greatest margins of worked lines, reckoned apart from this code, from the definitions. The
// margins and their walks are tried on the linked program.
use hoist_base::Line;
use std::alloc::{AllocError, Global};
use std::test::Fail;
use timetable::{Timetable, TimetableParts, is_legal};
use window_margin::{MarginRead, margin};
use worked_lines::{far_tank, one_bath, rinse_twice, two_baths};

// A timetable as rows of numbers.
#[derive(Clone, Copy)]
struct Written<'a> {
    period: u32,
    put: &'a [u64],
    off: &'a [u64],
    start: &'a [u64],
    hoist: &'a [u32],
    path: &'a [u32],
    tank: &'a [u32],
}

fn parts_of(alloc: Global, w: &Written) -> Result<TimetableParts, AllocError> {
    let put = Vec::from_slice(alloc, w.put)?;
    let off = Vec::from_slice(alloc, w.off)?;
    let start = Vec::from_slice(alloc, w.start)?;
    let hoist = Vec::from_slice(alloc, w.hoist)?;
    let path = Vec::from_slice(alloc, w.path)?;
    let tank = Vec::from_slice(alloc, w.tank)?;
    Ok(TimetableParts {
        period: w.period,
        put,
        off,
        start,
        hoist,
        path,
        tank,
    })
}

fn read(alloc: Global, line: &Line, w: &Written) -> Result<MarginRead, Fail> {
    let parts = parts_of(alloc, w)?;
    if !parts.fits(line) {
        return Err(Fail::from("it doesn't fit"));
    }
    let t = Timetable::new(line, parts);
    if !is_legal(line, &t) {
        return Err(Fail::from("it isn't legal"));
    }
    Ok(margin(alloc, line, &t)?)
}

// Whether these starts were found.
fn has_starts(read: &MarginRead, ticks: &[i64]) -> bool {
    match read {
        MarginRead::NoWindow => false,
        MarginRead::Found { starts, .. } => starts.as_slice() == ticks,
    }
}

#[test]
fn margin_one_bath(rt: HostRuntime) -> Result<(), Fail> {
    let line = one_bath(rt.alloc()).ok_or("no line")?;
    let planned = Written {
        period: 21,
        put: &[0],
        off: &[15],
        start: &[0, 10],
        hoist: &[0, 0],
        path: &[
            0, 0, 1, 2, 3, 3, 2, 1, 1, 2, 3, 3, 4, 5, 6, 6, 5, 4, 3, 2, 1,
        ],
        tank: &[0, 1, 2],
    };
    let read = read(rt.alloc(), &line, &planned)?;
    assert!(rt; has_starts(&read, &[0, 10]));
    Ok(())
}

// No plan: the period is longer, and the carrier rests longer than it must.
#[test]
fn margin_of_a_slow_bath(rt: HostRuntime) -> Result<(), Fail> {
    let line = one_bath(rt.alloc()).ok_or("no line")?;
    let slow = Written {
        period: 25,
        put: &[0],
        off: &[15],
        start: &[0, 10],
        hoist: &[0, 0],
        path: &[
            0, 0, 1, 2, 3, 3, 2, 1, 1, 2, 3, 3, 4, 5, 6, 6, 5, 4, 3, 2, 1, 0, 0, 0, 0,
        ],
        tank: &[0, 1, 2],
    };
    let read = read(rt.alloc(), &line, &slow)?;
    assert!(rt; has_starts(&read, &[0, 12]));
    Ok(())
}

// Two carriers a period, each in a tank of its own.
#[test]
fn margin_of_two_baths(rt: HostRuntime) -> Result<(), Fail> {
    let line = two_baths(rt.alloc()).ok_or("no line")?;
    let slow = Written {
        period: 60,
        put: &[0, 6],
        off: &[30, 36],
        start: &[0, 24, 6, 32],
        hoist: &[0, 0, 0, 0],
        path: &[
            0, 0, 1, 2, 2, 1, 0, 0, 1, 2, 3, 4, 4, 3, 2, 1, 0, 0, 0, 0, 0, 0, 0, 1, 2, 2, 3, 4, 5,
            6, 6, 5, 4, 4, 5, 6, 6, 5, 4, 3, 2, 1, 0, 0, 0, 0, 0, 0, 0, 0, 0, 0, 0, 0, 0, 0, 0, 0,
            0, 0,
        ],
        tank: &[0, 1, 3, 0, 2, 3],
    };
    let read = read(rt.alloc(), &line, &slow)?;
    assert!(rt; has_starts(&read, &[0, 42, 6, 50]));
    Ok(())
}

// Two hoists, and the second of two tanks.
#[test]
fn margin_of_the_near_tank(rt: HostRuntime) -> Result<(), Fail> {
    let line = far_tank(rt.alloc()).ok_or("no line")?;
    let slow = Written {
        period: 20,
        put: &[0],
        off: &[15],
        start: &[0, 10],
        hoist: &[0, 1],
        path: &[
            0, 0, 1, 2, 3, 3, 2, 1, 0, 0, 0, 0, 0, 0, 0, 0, 0, 0, 0, 0, 2, 2, 3, 4, 5, 5, 4, 3, 2,
            2, 3, 3, 4, 5, 6, 6, 5, 4, 3, 2,
        ],
        tank: &[0, 1, 2],
    };
    let read = read(rt.alloc(), &line, &slow)?;
    assert!(rt; has_starts(&read, &[0, 12]));
    Ok(())
}

// Two visits of one carrier in one tank.
#[test]
fn margin_of_a_second_rinse(rt: HostRuntime) -> Result<(), Fail> {
    let line = rinse_twice(rt.alloc()).ok_or("no line")?;
    let slow = Written {
        period: 28,
        put: &[0],
        off: &[16],
        start: &[0, 4, 8, 12],
        hoist: &[0, 0, 0, 0],
        path: &[
            0, 0, 1, 1, 1, 1, 2, 2, 2, 2, 1, 1, 1, 1, 2, 3, 3, 2, 1, 0, 0, 0, 0, 0, 0, 0, 0, 0,
        ],
        tank: &[0, 1, 2, 1, 3],
    };
    let read = read(rt.alloc(), &line, &slow)?;
    assert!(rt; has_starts(&read, &[0, 7, 14, 21]));
    Ok(())
}
