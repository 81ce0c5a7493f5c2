// Paths of the worked lines.
ghost use Rattle.std.specs.Bool.{OnTrue};
ghost use Rattle.hoist_base.specs.Routes.{IsRoute};
ghost use Rattle.path_envelope.specs.Slots.{AreMoves};

use hoist_base::{Line, Route};
use move_list::{motion_of, reaches};
use path_envelope::{Point, Traced, paths};
use std::alloc::Global;
use std::test::Fail;
use worked_lines::{Numbers, Row, line_of_rows, one_bath, two_hoists};

// Whether paths can be asked for these starts and hoists.
fn fits(line: &Line, route: &Route, period: u32, starts: &[u64], hoists: &[u32]) -> bool
    requires { IsRoute line.now route.now }
    ensures { OnTrue result (AreMoves line.now route.now period starts.now hoists.now) }
{
    let count = line.move_count() as usize;
    if period < 1 || period > 20_000 || starts.len() != count || hoists.len() != count {
        return false;
    }
    for number in 0..line.move_count() {
        let hoist = hoists[number as usize];
        if starts[number as usize] > 1_000_000_000 || hoist >= line.hoists() {
            return false;
        }
        if !reaches(line, hoist, motion_of(line, route, line.move_at(number))) {
            return false;
        }
    }
    true
}

// What is found for a line and its only route; None where that can't be asked, or there is no memory.
fn traced(
    alloc: Global,
    line: &Line,
    period: u32,
    starts: &[u64],
    hoists: &[u32],
) -> Option<Traced> {
    if !line.single() {
        return None;
    }
    let Ok(route) = line.only_route(alloc) else {
        return None;
    };
    if !fits(line, &route, period, starts, hoists) {
        return None;
    }
    let Ok(found) = paths(alloc, line, &route, period, starts, hoists) else {
        return None;
    };
    Some(found)
}

fn is_made(found: &Traced, rows: &[u32]) -> bool {
    match found {
        Traced::Made(made) => made.as_slice() == rows,
        Traced::Clashing { a: _a, b: _b } => false,
    }
}

fn is_clashing(found: &Traced, first: Point, second: Point) -> bool {
    match found {
        Traced::Made(_made) => false,
        Traced::Clashing { a, b } => *a == first && *b == second,
    }
}

#[test]
fn two_hoists_too_near(rt: HostRuntime) -> Result<(), Fail> {
    let line = two_hoists(rt.alloc()).ok_or("no line")?;
    let lower = Point {
        hoist: 0,
        tick: 3,
        at: 2,
    };
    let upper = Point {
        hoist: 1,
        tick: 3,
        at: 3,
    };
    let found = traced(rt.alloc(), &line, 8, &[0, 10], &[0, 1]).ok_or("no paths")?;
    assert!(rt; is_clashing(&found, lower, upper));
    Ok(())
}

#[test]
fn two_hoists_a_tick_later(rt: HostRuntime) -> Result<(), Fail> {
    let line = two_hoists(rt.alloc()).ok_or("no line")?;
    let rows = [0, 0, 1, 2, 3, 3, 2, 1, 0, 3, 3, 3, 4, 5, 6, 6, 5, 4];
    let found = traced(rt.alloc(), &line, 9, &[0, 10], &[0, 1]).ok_or("no paths")?;
    assert!(rt; is_made(&found, &rows));
    Ok(())
}

#[test]
fn one_hoist(rt: HostRuntime) -> Result<(), Fail> {
    let line = one_bath(rt.alloc()).ok_or("no line")?;
    let row = [
        0, 0, 1, 2, 3, 3, 2, 1, 1, 2, 3, 3, 4, 5, 6, 6, 5, 4, 3, 2, 1,
    ];
    let found = traced(rt.alloc(), &line, 21, &[0, 10], &[0, 0]).ok_or("no paths")?;
    assert!(rt; is_made(&found, &row));
    Ok(())
}

// From load to out, by the lower of two hoists; the upper one has no move and makes way.
#[test]
fn idle_hoist(rt: HostRuntime) -> Result<(), Fail> {
    let numbers = Numbers {
        track: 5,
        gap: 1,
        hoists: 2,
        degree: 1,
        max_period: 100,
        load: 2,
        unload: 2,
    };
    let stage = Row {
        tanks: &[0],
        min: 0,
        max: None,
        lift: 1,
        lower: 0,
    };
    let out = Row {
        tanks: &[1],
        min: 0,
        max: None,
        lift: 0,
        lower: 1,
    };
    let line = line_of_rows(
        rt.alloc(),
        numbers,
        &[("load", 0), ("out", 4)],
        &[stage, out],
    )
    .ok_or("no line")?;
    let rows = [2, 1, 0, 0, 1, 2, 3, 4, 4, 3, 3, 2, 1, 1, 2, 3, 4, 5, 5, 4];
    let found = traced(rt.alloc(), &line, 10, &[2], &[0]).ok_or("no paths")?;
    assert!(rt; is_made(&found, &rows));
    Ok(())
}

// The nearest copies of the upper hoist's point stand two ticks before and after the lower hoist's: the earlier one is
// found.
#[test]
fn copies_equally_near(rt: HostRuntime) -> Result<(), Fail> {
    let numbers = Numbers {
        track: 22,
        gap: 10,
        hoists: 2,
        degree: 1,
        max_period: 100,
        load: 0,
        unload: 0,
    };
    let load = Row {
        tanks: &[0],
        min: 0,
        max: None,
        lift: 1,
        lower: 0,
    };
    let bath = Row {
        tanks: &[1],
        min: 1,
        max: None,
        lift: 1,
        lower: 1,
    };
    let out = Row {
        tanks: &[2],
        min: 0,
        max: None,
        lift: 0,
        lower: 1,
    };
    let tanks = [("load", 9), ("bath", 10), ("out", 12)];
    let line = line_of_rows(rt.alloc(), numbers, &tanks, &[load, bath, out]).ok_or("no line")?;
    let lower = Point {
        hoist: 0,
        tick: 0,
        at: 9,
    };
    let upper = Point {
        hoist: 1,
        tick: -2,
        at: 10,
    };
    let found = traced(rt.alloc(), &line, 4, &[0, 2], &[0, 1]).ok_or("no paths")?;
    assert!(rt; is_clashing(&found, lower, upper));
    Ok(())
}
