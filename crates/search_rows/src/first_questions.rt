// The first questions on worked lines.
ghost use Rattle.std.specs.Prelude.{◌≡◌, ◌≤◌, ◌↔◌, length, ◌+ℤ◌, ◌≤ℤ◌, unsigned_abs, IsTrue};
ghost use Rattle.longest_path.specs.Bounds.{IsWithinCap};
ghost use Rattle.longest_path.specs.System.{Solves};
ghost use Rattle.path_constraints.specs.Ticks.{AreTicks, tick_at};

use choice_tree::Question;
use hoist_base::Line;
use longest_path::System;
use path_constraints::base_of;
use period_constraints::{Lookup, first_question};
use std::alloc::Global;
use std::test::Fail;
use worked_lines::{Numbers, Row, far_tank, line_of_rows, one_bath, rinse_twice, two_hoists};

// A question's kind, the stages or steps that it names, and its shift.
fn named(question: Question) -> (&'static str, u32, u32, i64) {
    match question {
        Question::Choose { v } => ("choose", v.stage, 0, 0),
        Question::TankOrder { a, b, q } => ("tank order", a.stage, b.stage, q),
        Question::HoistOrder { a, b, q } => ("hoist order", a.step, b.step, q),
        Question::Assign { m } => ("assign", m.step, 0, 0),
    }
}

// Whether these may be ticks of a line's moves.
fn are_ticks(line: &Line, ticks: &[i64]) -> bool
    ensures { IsTrue result → AreTicks line.now ticks.now }
{
    if ticks.len() != line.move_count() as usize {
        return false;
    }
    for tick in ticks {
        if tick.unsigned_abs() > 10_000_000_000_000 {
            return false;
        }
    }
    true
}

// Whether the second tick is late enough after the first.
fn keeps(from: i64, weight: i64, to: i64) -> bool
    requires from { unsigned_abs from ≤ 10000000000000 }
    requires weight { unsigned_abs weight ≤ 30000000000000 }
    ensures { IsTrue result ↔ ((from +ℤ weight) ≤ℤ to) }
{
    from + weight <= to
}

// Whether ticks solve a system at a period.
fn solves(line: &Line, s: &System, period: u32, ticks: &[i64]) -> bool
    requires period { IsWithinCap period }
    requires ticks { AreTicks line.now ticks.now }
    requires nodes { length ticks.now ≡ s.now.nodes }
    ensures { IsTrue result → Solves s.now period (tick_at ticks.now) }
{
    for arc in s.arcs() {
        if !keeps(
            ticks[arc.from as usize],
            arc.weight(period),
            ticks[arc.to as usize],
        ) {
            return false;
        }
    }
    true
}

// What is asked first below no decision, by the plain call and by the look-up; None where these are no such ticks.
fn asked(
    alloc: Global,
    line: &Line,
    ticks: &[i64],
    period: u32,
) -> Result<Option<(Option<Question>, Option<Question>)>, Fail> {
    let s = base_of(alloc, line)?;
    let mut lookup = Lookup::new(alloc, line)?;
    if period == 0 || period > 20_001 || !are_ticks(line, ticks) {
        return Ok(None);
    }
    if !solves(line, &s, period, ticks) {
        return Ok(None);
    }
    let plain = first_question(line, &[], ticks, period);
    Ok(Some((plain, lookup.first_question(line, &[], ticks, period))))
}

// Two hoists that both reach every tank.
fn shared_track(alloc: Global) -> Option<Line> {
    let numbers = Numbers {
        track: 10,
        gap: 2,
        hoists: 2,
        degree: 1,
        max_period: 100,
        load: 0,
        unload: 0,
    };
    let row = |tanks, min, lift, lower| Row {
        tanks,
        min,
        max: None,
        lift,
        lower,
    };
    let tanks = [("load", 2), ("bath", 5), ("out", 8)];
    line_of_rows(
        alloc,
        numbers,
        &tanks,
        &[row(&[0], 0, 1, 0), row(&[1], 5, 1, 1), row(&[2], 0, 0, 1)],
    )
}

#[test]
fn first_questions(rt: HostRuntime) -> Result<(), Fail> {
    let alloc = rt.alloc();
    let bath = one_bath(alloc).ok_or("no line")?;
    let hoists = two_hoists(alloc).ok_or("no line")?;
    let twice = rinse_twice(alloc).ok_or("no line")?;
    let far = far_tank(alloc).ok_or("no line")?;
    let shared = shared_track(alloc).ok_or("no line")?;
    let short = [0, 10];
    let long = [0, 4, 8, 12];
    for (line, period, is_long, want) in [
        (&bath, 8, false, ("hoist order", 0, 1, -2)),
        (&hoists, 8, false, ("hoist order", 0, 1, -1)),
        (&twice, 6, true, ("tank order", 1, 3, -1)),
        (&far, 8, false, ("choose", 1, 0, 0)),
        (&shared, 9, false, ("assign", 0, 0, 0)),
    ] {
        let ticks: &[i64] = if is_long { &long } else { &short };
        let (plain, looked_up) = asked(alloc, line, ticks, period)?.ok_or("no such ticks")?;
        assert_eq!(rt; plain.map(named), Some(want));
        assert_eq!(rt; looked_up.map(named), Some(want));
    }
    Ok(())
}
