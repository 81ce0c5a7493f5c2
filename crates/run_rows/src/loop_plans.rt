// Timetables as rows of numbers, and the frames and orders of their loops, for tests.
use std::alloc::{AllocError, Global};
use tick_machine::{Carry, Frame, Go, Hold, Order, Rest};

/// The number of the carrier that is put on next in the first frame.
const FIRST: u64 = 100;

/// A move: when it starts, its hoist, and how long it lasts.
#[derive(Clone, Copy)]
pub(crate) struct Ride {
    pub(crate) start: u32,
    pub(crate) hoist: u32,
    pub(crate) long: u32,
}

/// A timetable by ticks after the first frame. All lifts and lowers last one tick.
///
/// `put` and `off` go by carrier, `rides` by carrier and step, `tank` by carrier and stage, `path` by hoist and tick.
#[derive(Clone, Copy)]
pub(crate) struct Plan<'a> {
    pub(crate) period: u32,
    pub(crate) put: &'a [u32],
    pub(crate) off: &'a [u32],
    pub(crate) rides: &'a [Ride],
    pub(crate) tank: &'a [u32],
    pub(crate) path: &'a [u32],
}

/// What is changed of the frames and orders.
#[derive(Clone, Copy)]
pub(crate) struct Change {
    /// the moves begin
    pub(crate) begins: bool,
    /// carriers are put on
    pub(crate) puts: bool,
    /// how much higher the hoists are in the first frame
    pub(crate) higher: u32,
}

/// A number of a list, or 0 past its end.
pub(crate) fn number(numbers: &[u32], i: usize) -> u32 {
    match numbers.get(i) {
        Some(x) => *x,
        None => 0,
    }
}

/// The place of a row and a column in a list of rows.
fn place(row: usize, width: usize, column: usize) -> usize {
    row.saturating_mul(width).saturating_add(column)
}

pub(crate) fn steps(plan: Plan) -> usize {
    if plan.put.is_empty() {
        0
    } else {
        plan.rides.len() / plan.put.len()
    }
}

pub(crate) fn ride_of(plan: Plan, c: usize, k: usize) -> Ride {
    match plan.rides.get(place(c, steps(plan), k)) {
        Some(x) => *x,
        None => Ride {
            start: 0,
            hoist: 0,
            long: 0,
        },
    }
}

pub(crate) fn tank(plan: Plan, c: usize, k: usize) -> u32 {
    number(plan.tank, place(c, steps(plan).saturating_add(1), k))
}

pub(crate) fn position(plan: Plan, h: usize, t: usize) -> u32 {
    number(plan.path, place(h, plan.period as usize, t))
}

/// For how long a carrier has rested at a stage at a tick, if it rests there.
fn age(plan: Plan, c: usize, k: usize, tick: u32) -> Option<u64> {
    let from = if k == 0 {
        number(plan.put, c)
    } else {
        let before = ride_of(plan, c, k - 1);
        before.start.saturating_add(before.long)
    };
    let until = if k == steps(plan) {
        number(plan.off, c)
    } else {
        ride_of(plan, c, k).start
    };
    if from <= tick && tick < until {
        Some(u64::from(tick - from))
    } else {
        None
    }
}

/// For how long a move has gone on at a tick, if it does.
fn elapsed(ride: Ride, tick: u32) -> Option<u32> {
    if ride.start <= tick && tick - ride.start < ride.long {
        Some(tick - ride.start)
    } else {
        None
    }
}

fn set_hold(frame: &mut Frame, tank: u32, carrier: u64, stage: usize, rest: Rest) {
    let i = tank as usize;
    if i < frame.hold.len() && stage < 32 {
        frame.hold[i] = Some(Hold {
            carrier,
            stage: stage as u32,
            rest,
        });
    }
}

fn set_carry(plan: Plan, frame: &mut Frame, carrier: u64, c: usize, k: usize, elapsed: u32) {
    let ride = ride_of(plan, c, k);
    let h = ride.hoist as usize;
    if h >= frame.carry.len() || k >= 31 {
        return;
    }
    let from = tank(plan, c, k);
    let to = tank(plan, c, k + 1);
    frame.carry[h] = Some(Carry {
        carrier,
        step: k as u32,
        elapsed,
        from,
        to,
    });
    if elapsed == 0 {
        set_hold(frame, from, carrier, k, Rest::Lifting);
    }
    if elapsed.saturating_add(1) == ride.long {
        set_hold(frame, to, carrier, k + 1, Rest::Lowering);
    }
}

/// Where a carrier is at a tick of the timetable.
fn set_carrier(plan: Plan, frame: &mut Frame, carrier: u64, c: usize, tick: u32) {
    let last = steps(plan);
    for k in 0..last.saturating_add(1) {
        if let Some(age) = age(plan, c, k, tick) {
            set_hold(frame, tank(plan, c, k), carrier, k, Rest::Resting(age));
        }
    }
    for k in 0..last {
        if let Some(e) = elapsed(ride_of(plan, c, k), tick) {
            set_carry(plan, frame, carrier, c, k, e);
        }
    }
}

/// The frame at tick `t` of the period.
pub(crate) fn frame_of(
    alloc: Global,
    plan: Plan,
    hoists: usize,
    tanks: usize,
    t: u32,
) -> Result<Frame, AllocError> {
    let mut at = Vec::new(alloc);
    for h in 0..hoists {
        at.push(position(plan, h, t as usize))?;
    }
    let before = plan.put.iter().filter(|tick| **tick <= t).count();
    let mut frame = Frame {
        at,
        carry: vec![in alloc; None; hoists]?,
        hold: vec![in alloc; None; tanks]?,
        next: FIRST.saturating_add(before as u64),
    };
    for periods in 0..4u32 {
        for c in 0..plan.put.len() {
            let earlier = (periods as usize).saturating_mul(plan.put.len());
            let carrier = FIRST
                .saturating_add(c as u64)
                .saturating_sub(earlier as u64);
            let tick = plan.period.saturating_mul(periods).saturating_add(t);
            set_carrier(plan, &mut frame, carrier, c, tick);
        }
    }
    Ok(frame)
}

pub(crate) fn frames_of(
    alloc: Global,
    plan: Plan,
    hoists: usize,
    tanks: usize,
    change: Change,
) -> Result<Vec<Frame>, AllocError> {
    let mut frames = Vec::new(alloc);
    for t in 0..plan.period {
        let mut frame = frame_of(alloc, plan, hoists, tanks, t)?;
        if t == 0 {
            for place in frame.at.iter_mut() {
                *place = place.saturating_add(change.higher);
            }
        }
        frames.push(frame)?;
    }
    Ok(frames)
}

/// Whether a tick comes some periods before another one.
fn is_copy(plan: Plan, t: u32, tick: u32) -> bool {
    plan.period != 0 && t % plan.period == tick % plan.period
}

fn go(plan: Plan, frame: &Frame, h: usize, t: usize) -> Go {
    let carries = match frame.carry.get(h) {
        Some(x) => x.is_some(),
        None => false,
    };
    let next = if t.saturating_add(1) == plan.period as usize {
        0
    } else {
        t.saturating_add(1)
    };
    let here = position(plan, h, t);
    let there = position(plan, h, next);
    if carries || here == there {
        Go::Stay
    } else if there < here {
        Go::Low
    } else {
        Go::High
    }
}

/// The tank to which hoist `h` begins a move at a tick, if it does.
fn begin(plan: Plan, h: usize, t: u32) -> Option<u32> {
    let mut begun = None;
    for c in 0..plan.put.len() {
        for k in 0..steps(plan) {
            let ride = ride_of(plan, c, k);
            if ride.hoist as usize == h && is_copy(plan, t, ride.start) {
                begun = Some(tank(plan, c, k.saturating_add(1)));
            }
        }
    }
    begun
}

/// The order that leads from the frame at tick `t` to the next one.
fn order_of(
    alloc: Global,
    plan: Plan,
    frame: &Frame,
    t: u32,
    change: Change,
) -> Result<Order, AllocError> {
    let next = t.saturating_add(1);
    let hoists = frame.at.len();
    let mut order = Order {
        go: Vec::new(alloc),
        begin: Vec::new(alloc),
        off: plan.off.iter().any(|tick| is_copy(plan, next, *tick)),
        put: change.puts && plan.put.iter().any(|tick| is_copy(plan, next, *tick)),
    };
    for h in 0..hoists {
        order.go.push(go(plan, frame, h, t as usize))?;
        let begun = if change.begins {
            begin(plan, h, next)
        } else {
            None
        };
        order.begin.push(begun)?;
    }
    Ok(order)
}

pub(crate) fn orders_of(
    alloc: Global,
    plan: Plan,
    frames: &[Frame],
    change: Change,
) -> Result<Vec<Order>, AllocError> {
    let mut orders = Vec::new(alloc);
    for (t, frame) in (0..plan.period).zip(frames) {
        orders.push(order_of(alloc, plan, frame, t, change)?)?;
    }
    Ok(orders)
}
