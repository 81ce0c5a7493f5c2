// Loops of timetables that are worked by hand, and what breaks them.
ghost use Rattle.std.specs.Prelude.{◌≤◌, ◌<◌, ◌^◌, IsTrue, IfSome, All, length, get_or, None};
ghost use Rattle.hoist_base.specs.LineData.{IsStep};
ghost use Rattle.tick_machine.specs.Scene.{scene_of, IsSized, IsSizedOrder};
ghost use Rattle.tick_machine.specs.Rules.{RestBelow, IsBelow};
ghost use Rattle.machine_loops.specs.Lists.{scenes};

use crate::loop_plans::{
    Change, Plan, Ride, frame_of, frames_of, number, orders_of, position, ride_of, steps, tank,
};
use hoist_base::{Line, MoveId, VisitId};
use machine_loops::{Looped, every_loop, keeps};
use std::alloc::{AllocError, Global};
use std::test::Fail;
use tick_machine::{Carry, Frame, Hold, Order, Rest};
use timetable::Timetable;
use worked_lines::{one_bath, two_baths, two_hoists, two_stations};

fn are_sized(line: &Line, frames: &[Frame]) -> bool
    ensures { IsTrue result → All (IsSized line.now) frames.now }
{
    frames.iter().all(|frame| frame.is_sized(line))
}

fn is_sized_order(hoists: usize, order: &Order) -> bool
    ensures { IsTrue result → IsSizedOrder hoists order.now }
{
    order.go.len() == hoists && order.begin.len() == hoists
}

fn are_orders(hoists: usize, orders: &[Order]) -> bool
    ensures { IsTrue result → All (IsSizedOrder hoists) orders.now }
{
    orders.iter().all(|order| is_sized_order(hoists, order))
}

fn is_young(held: Option<Hold>) -> bool
    ensures { IsTrue result → IfSome held (λ x. RestBelow (2 ^ 61) x.rest) }
{
    match held {
        Some(
            Hold {
                rest: Rest::Resting(age),
                ..
            },
        ) => age < 1 << 61,
        _ => true,
    }
}

#[tactic(auto, using(crate::proofs::HeldLemmas::all_young))]
fn is_below(frame: &Frame) -> bool
    ensures { IsTrue result → IsBelow (2 ^ 61) (scene_of frame.now) }
{
    for i in 0..frame.hold.len() {
        if !is_young(frame.hold[i]) {
            return false;
        }
    }
    frame.next < 1 << 61
}

fn begins_below(frames: &[Frame]) -> bool
    requires { 1 ≤ length frames.now }
    ensures { IsTrue result → IsBelow (2 ^ 61) (scenes frames.now 0) }
{
    is_below(&frames[0])
}

fn answer(
    alloc: Global,
    line: &Line,
    frames: &[Frame],
    orders: &[Order],
) -> Result<Looped, &'static str> {
    if frames.is_empty() || frames.len() > 20_000 || orders.len() != frames.len() {
        return Err("no lists");
    }
    if !are_sized(line, frames) || !are_orders(line.hoists() as usize, orders) {
        return Err("no sizes");
    }
    if !begins_below(frames) {
        return Err("too old");
    }
    match every_loop(alloc, line, frames, orders) {
        Ok(looped) => Ok(looped),
        Err(_) => Err("no memory"),
    }
}

/// Whether the hoist of a move goes as the plan has it.
fn has_path(t: &Timetable, plan: Plan, m: MoveId) -> bool
    requires carrier { m.carrier < length t.now.put }
    requires step { m.step < t.now.steps }
{
    let h = t.hoist(m);
    for tick in 0..t.period() {
        if t.path(h, tick) != position(plan, h as usize, tick as usize) {
            return false;
        }
    }
    true
}

fn has_move(t: &Timetable, plan: Plan, m: MoveId) -> bool
    requires carrier { m.carrier < length t.now.put }
    requires step { m.step < t.now.steps }
{
    let c = m.carrier as usize;
    let k = m.step as usize;
    let planned = ride_of(plan, c, k);
    t.start(m) == u64::from(planned.start) && t.hoist(m) == planned.hoist && has_path(t, plan, m)
}

fn has_tank(t: &Timetable, plan: Plan, v: VisitId) -> bool
    requires carrier { v.carrier < length t.now.put }
    requires stage { v.stage ≤ t.now.steps }
{
    t.tank(v) == tank(plan, v.carrier as usize, v.stage as usize)
}

fn has_carrier(t: &Timetable, plan: Plan, carrier: u32) -> bool
    requires { carrier < length t.now.put }
{
    for step in 0..t.moves() {
        if !has_move(t, plan, MoveId { carrier, step }) {
            return false;
        }
    }
    for stage in 0..t.moves() + 1 {
        if !has_tank(t, plan, VisitId { carrier, stage }) {
            return false;
        }
    }
    let c = carrier as usize;
    t.put(carrier) == u64::from(number(plan.put, c))
        && t.off(carrier) == u64::from(number(plan.off, c))
}

/// Whether a timetable is the plan.
fn is_plan(t: &Timetable, plan: Plan) -> bool {
    for carrier in 0..t.carriers() {
        if !has_carrier(t, plan, carrier) {
            return false;
        }
    }
    t.period() == plan.period
        && t.carriers() as usize == plan.put.len()
        && t.moves() as usize == steps(plan)
}

/// Whether the frames and orders of a plan, with this change, are its loop, or else where they break.
fn broken_at(
    alloc: Global,
    line: Option<Line>,
    degree: u32,
    plan: Plan,
    change: Change,
) -> Result<Option<u32>, &'static str> {
    let Some(worked) = line else {
        return Err("no line");
    };
    if degree == 0 || degree > 4 {
        return Err("no degree");
    }
    let Ok(line) = worked.of_degree(alloc, degree) else {
        return Err("no memory");
    };
    let hoists = line.hoists() as usize;
    let tanks = line.tanks().len();
    let Ok(frames) = frames_of(alloc, plan, hoists, tanks, change) else {
        return Err("no memory");
    };
    let Ok(orders) = orders_of(alloc, plan, frames.as_slice(), change) else {
        return Err("no memory");
    };
    match answer(alloc, &line, frames.as_slice(), orders.as_slice())? {
        Looped::Made(t) => {
            if is_plan(&t, plan) {
                Ok(None)
            } else {
                Err("another timetable")
            }
        }
        Looped::Broken { index } => Ok(Some(index)),
    }
}

const AS_IT_IS: Change = Change {
    begins: true,
    puts: true,
    higher: 0,
};

/// A carrier of two stations, from the tick at which the one before it is put on.
const STATIONS: Plan<'static> = Plan {
    period: 10,
    put: &[10],
    off: &[20],
    rides: &[Ride {
        start: 12,
        hoist: 0,
        long: 6,
    }],
    tank: &[0, 1],
    path: &[2, 1, 0, 0, 1, 2, 3, 4, 4, 3],
};

/// The same from the tick on at which the move of the carrier before begins.
const STATIONS_LATER: Plan<'static> = Plan {
    period: 10,
    put: &[8],
    off: &[18],
    rides: &[Ride {
        start: 10,
        hoist: 0,
        long: 6,
    }],
    tank: &[0, 1],
    path: &[0, 0, 1, 2, 3, 4, 4, 3, 2, 1],
};

/// Two periods of it.
const STATIONS_TWICE: Plan<'static> = Plan {
    period: 20,
    put: &[10, 20],
    off: &[20, 30],
    rides: &[
        Ride {
            start: 12,
            hoist: 0,
            long: 6,
        },
        Ride {
            start: 22,
            hoist: 0,
            long: 6,
        },
    ],
    tank: &[0, 1, 0, 1],
    path: &[2, 1, 0, 0, 1, 2, 3, 4, 4, 3, 2, 1, 0, 0, 1, 2, 3, 4, 4, 3],
};

/// Nothing happens.
const NOTHING: Plan<'static> = Plan {
    period: 3,
    put: &[],
    off: &[],
    rides: &[],
    tank: &[],
    path: &[2, 2, 2],
};

/// Two carriers of a period over one bath.
const ONE_BATH: Plan<'static> = Plan {
    period: 42,
    put: &[21, 42],
    off: &[36, 57],
    rides: &[
        Ride {
            start: 21,
            hoist: 0,
            long: 5,
        },
        Ride {
            start: 31,
            hoist: 0,
            long: 5,
        },
        Ride {
            start: 42,
            hoist: 0,
            long: 5,
        },
        Ride {
            start: 52,
            hoist: 0,
            long: 5,
        },
    ],
    tank: &[0, 1, 2, 0, 1, 2],
    path: &[
        0, 0, 1, 2, 3, 3, 2, 1, 1, 2, 3, 3, 4, 5, 6, 6, 5, 4, 3, 2, 1, 0, 0, 1, 2, 3, 3, 2, 1, 1,
        2, 3, 3, 4, 5, 6, 6, 5, 4, 3, 2, 1,
    ],
};

/// Each move by a hoist of its own.
const TWO_HOISTS: Plan<'static> = Plan {
    period: 9,
    put: &[9],
    off: &[24],
    rides: &[
        Ride {
            start: 9,
            hoist: 0,
            long: 5,
        },
        Ride {
            start: 19,
            hoist: 1,
            long: 5,
        },
    ],
    tank: &[0, 1, 2],
    path: &[0, 0, 1, 2, 3, 3, 2, 1, 0, 3, 3, 3, 4, 5, 6, 6, 5, 4],
};

/// One carrier of a period goes by the one bath, one by the other.
const TWO_BATHS: Plan<'static> = Plan {
    period: 42,
    put: &[6, 42],
    off: &[36, 72],
    rides: &[
        Ride {
            start: 6,
            hoist: 0,
            long: 6,
        },
        Ride {
            start: 32,
            hoist: 0,
            long: 4,
        },
        Ride {
            start: 42,
            hoist: 0,
            long: 4,
        },
        Ride {
            start: 66,
            hoist: 0,
            long: 6,
        },
    ],
    tank: &[0, 2, 3, 0, 1, 3],
    path: &[
        0, 0, 1, 2, 2, 1, 0, 0, 1, 2, 3, 4, 4, 3, 2, 1, 0, 0, 0, 0, 0, 0, 0, 1, 2, 2, 3, 4, 5, 6,
        6, 5, 4, 4, 5, 6, 6, 5, 4, 3, 2, 1,
    ],
};

#[test]
fn loops_of_two_stations(rt: HostRuntime) -> Result<(), Fail> {
    let alloc = rt.alloc();
    // the degree of the line, the plan, what is changed of it, and where it breaks
    let cases = [
        (1, STATIONS, AS_IT_IS, None),
        (1, STATIONS_LATER, AS_IT_IS, None),
        (2, STATIONS_TWICE, AS_IT_IS, None),
        // carriers are later by two, and not by one, or by one, and not by two
        (1, STATIONS_TWICE, AS_IT_IS, Some(19)),
        (2, STATIONS, AS_IT_IS, Some(9)),
        (1, NOTHING, AS_IT_IS, Some(2)),
        // the hoist is off the track in the first frame
        (
            1,
            STATIONS,
            Change {
                higher: 3,
                ..AS_IT_IS
            },
            Some(0),
        ),
        (
            1,
            STATIONS,
            Change {
                begins: false,
                ..AS_IT_IS
            },
            Some(1),
        ),
        (
            1,
            STATIONS,
            Change {
                puts: false,
                ..AS_IT_IS
            },
            Some(9),
        ),
    ];
    for (degree, plan, change, answer) in cases {
        let line = two_stations(alloc);
        assert_eq!(rt; broken_at(alloc, line, degree, plan, change), Ok(answer));
    }
    Ok(())
}

#[test]
fn loops_of_other_lines(rt: HostRuntime) -> Result<(), Fail> {
    let alloc = rt.alloc();
    let bath = broken_at(alloc, one_bath(alloc), 2, ONE_BATH, AS_IT_IS);
    assert_eq!(rt; bath, Ok(None));
    let hoists = broken_at(alloc, two_hoists(alloc), 1, TWO_HOISTS, AS_IT_IS);
    assert_eq!(rt; hoists, Ok(None));
    let baths = broken_at(alloc, two_baths(alloc), 2, TWO_BATHS, AS_IT_IS);
    assert_eq!(rt; baths, Ok(None));
    Ok(())
}

#[test]
fn frames_that_keep_the_rules(rt: HostRuntime) -> Result<(), Fail> {
    let alloc = rt.alloc();
    let line = two_stations(alloc).ok_or("no line")?;
    // a tick of the period, where the hoist is, and whether the frame keeps the frame rules
    let cases = [
        (0, 2, true),
        (0, 5, false),
        (2, 0, true),
        (2, 1, false),
        (5, 2, true),
        (7, 4, true),
        (8, 4, true),
    ];
    for (t, at, kept) in cases {
        let mut frame = frame_of(alloc, STATIONS, 1, 2, t)?;
        frame.at = vec![in alloc; at; 1]?;
        assert_eq!(rt; keeps(&line, &frame), kept);
    }
    let mut frame = frame_of(alloc, STATIONS, 1, 2, 3)?;
    assert!(rt; keeps(&line, &frame));
    // the carrier that is carried hasn't been put on
    frame.next = frame.next.saturating_sub(1);
    assert!(rt; !keeps(&line, &frame));
    Ok(())
}
