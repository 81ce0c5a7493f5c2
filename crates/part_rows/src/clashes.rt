// Clashes of the worked lines, and clashes by every tick.
ghost use Rattle.std.specs.Prelude.{◌<◌, ◌≤◌, IfSome, unsigned_abs};
ghost use Rattle.hoist_base.specs.LineData.{IsStep};
ghost use Rattle.line_model.specs.Motion.{IsMotion};
ghost use Rattle.line_model.specs.Motion as motion;

use collision_pairs::{Span, clash};
use hoist_base::{Line, MoveId};
use move_list::{Motion, duration, motion_of, place};
use std::alloc::Global;
use std::test::Fail;
use worked_lines::{Numbers, Row, line_of_rows, one_bath, thirteen_stages, two_hoists};

// The motion of a step of carrier 0 along the only route.
fn step_of(alloc: Global, line: &Line, step: u32) -> Option<Motion>
    requires { IsStep line.now step }
    ensures { IfSome result IsMotion }
{
    if !line.single() {
        return None;
    }
    let Ok(route) = line.only_route(alloc) else {
        return None;
    };
    Some(motion_of(line, &route, MoveId { carrier: 0, step }))
}

#[test]
fn clash_values(rt: HostRuntime) -> Result<(), Fail> {
    let alloc = rt.alloc();
    let one = one_bath(alloc).ok_or("no line")?;
    let two = two_hoists(alloc).ok_or("no line")?;
    let thirteen = thirteen_stages(alloc).ok_or("no line")?;
    let first = step_of(alloc, &one, 0).ok_or("no motion")?;
    let second = step_of(alloc, &one, 1).ok_or("no motion")?;
    let load = step_of(alloc, &thirteen, 0).ok_or("no motion")?;
    let out = step_of(alloc, &thirteen, 11).ok_or("no motion")?;
    let lower_first = Span {
        after: 7,
        before: -1,
    };
    let upper_first = Span {
        after: -1,
        before: 7,
    };
    let alone = Span {
        after: 5,
        before: 11,
    };
    assert_eq!(rt; clash(&two, first, 0, second, 1), Some(lower_first));
    assert_eq!(rt; clash(&two, second, 1, first, 0), Some(upper_first));
    assert_eq!(rt; clash(&one, first, 0, second, 0), Some(alone));
    assert_eq!(rt; clash(&thirteen, load, 0, out, 1), None);
    Ok(())
}

// A motion up or down the whole of the longest track, as slow to lift and to lower as can be: 2,000 ticks.
fn longest(up: bool) -> Motion
    ensures { IsMotion result }
{
    let (from, to) = if up { (0, 1000) } else { (1000, 0) };
    Motion {
        from,
        to,
        lift: 500,
        lower: 500,
    }
}

// A line with three hoists.
fn three_hoists(alloc: Global, track: u32) -> Option<Line>
    ensures { IfSome result (λ line. 3 ≤ line.hoists) }
{
    let numbers = Numbers {
        track,
        gap: 2,
        hoists: 3,
        degree: 1,
        max_period: 100,
        load: 0,
        unload: 0,
    };
    let load = Row {
        tanks: &[0],
        min: 0,
        max: None,
        lift: 1,
        lower: 0,
    };
    let out = Row {
        tanks: &[1],
        min: 0,
        max: None,
        lift: 0,
        lower: 1,
    };
    line_of_rows(alloc, numbers, &[("load", 0), ("out", track)], &[load, out])
}

// A body that looks at every pair of ticks would need 40,000,000,000 steps here.
#[test]
fn clash_ten_thousand(rt: HostRuntime) -> Result<(), Fail> {
    let line = three_hoists(rt.alloc(), 1000).ok_or("no line")?;
    let mut after: i64 = 0;
    let mut before: i64 = 0;
    let mut none: u32 = 0;
    for i in 0..10_000 {
        let a = longest(i % 2 == 0);
        let b = longest(i % 4 < 2);
        match clash(&line, a, i / 4 % 3, b, i / 12 % 3) {
            Some(span) => {
                after = after.wrapping_add(span.after);
                before = before.wrapping_add(span.before);
            }
            None => none = none.wrapping_add(1),
        }
    }
    assert_eq!(rt; (after, before, none), (20_850_284, 20_850_284, 0));
    Ok(())
}

// Short motions up, down and in place, with the same ends and with different ones.
fn short(i: u32) -> Motion
    ensures { IsMotion result }
{
    let (from, to, lift, lower) = match i {
        0 => (0, 5, 1, 1),
        1 => (5, 0, 1, 2),
        2 => (3, 8, 3, 1),
        3 => (8, 3, 2, 3),
        4 => (4, 4, 2, 2),
        5 => (6, 9, 1, 4),
        6 => (9, 7, 4, 1),
        _ => (0, 9, 2, 1),
    };
    Motion {
        from,
        to,
        lift,
        lower,
    }
}

// A motion and its hoist.
#[derive(Clone, Copy)]
struct Carry {
    motion: Motion,
    hoist: u32,
}

// Whether tick u of a and tick v of b contradict each other, where b starts `offset` ticks after a.
fn contradict(line: &Line, a: Carry, u: u32, b: Carry, v: u32, offset: i64) -> bool
    requires motions { IsMotion a.motion × IsMotion b.motion }
    requires hoists { (a.hoist < line.now.hoists) × (b.hoist < line.now.hoists) }
    requires ticks { (u ≤ motion.duration a.motion) × (v ≤ motion.duration b.motion) }
    requires small { unsigned_abs offset ≤ 1000 }
{
    let between = (offset + i64::from(v) - i64::from(u)).unsigned_abs();
    let at_a = u64::from(place(a.motion, u));
    let at_b = u64::from(place(b.motion, v));
    if a.hoist == b.hoist {
        let both_carry = u < duration(a.motion) && v < duration(b.motion);
        (both_carry && between == 0) || between < at_a.abs_diff(at_b)
    } else if a.hoist < b.hoist {
        at_b + between < at_a + u64::from((b.hoist - a.hoist) * line.gap())
    } else {
        at_a + between < at_b + u64::from((a.hoist - b.hoist) * line.gap())
    }
}

// Whether an offset is forbidden, by every pair of ticks.
fn is_forbidden(line: &Line, a: Carry, b: Carry, offset: i64) -> bool
    requires motions { IsMotion a.motion × IsMotion b.motion }
    requires hoists { (a.hoist < line.now.hoists) × (b.hoist < line.now.hoists) }
    requires small { unsigned_abs offset ≤ 1000 }
{
    for u in 0..duration(a.motion) + 1 {
        for v in 0..duration(b.motion) + 1 {
            if contradict(line, a, u, b, v, offset) {
                return true;
            }
        }
    }
    false
}

// Whether the clash of two short motions has the offsets that every pair of ticks forbids.
fn agrees(line: &Line, a: Carry, b: Carry) -> bool
    requires motions { IsMotion a.motion × IsMotion b.motion }
    requires hoists { (a.hoist < line.now.hoists) × (b.hoist < line.now.hoists) }
{
    let span = clash(line, a.motion, a.hoist, b.motion, b.hoist);
    for i in 0..81_u32 {
        let offset = i64::from(i) - 40;
        let within = match span {
            Some(s) => -offset < s.before && offset < s.after,
            None => false,
        };
        if within != is_forbidden(line, a, b, offset) {
            return false;
        }
    }
    true
}

#[test]
fn clash_by_every_tick(rt: HostRuntime) -> Result<(), Fail> {
    let line = three_hoists(rt.alloc(), 20).ok_or("no line")?;
    for i in 0..64 {
        for h in 0..9 {
            let a = Carry {
                motion: short(i / 8),
                hoist: h / 3,
            };
            let b = Carry {
                motion: short(i % 8),
                hoist: h % 3,
            };
            assert!(rt; agrees(&line, a, b), "motions {i}, hoists {h}");
        }
    }
    Ok(())
}
