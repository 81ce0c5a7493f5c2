// Motions between tanks, and their clashes.

ghost use Rattle.std.specs.Prelude.{IsTrue};
ghost use Rattle.line_model.specs.Motion.{IsMotion};

use crate::stages::{NO_STAGE, Stop};
use collision_pairs::clash;
use hoist_base::Line;
use line_model::Motion;
use std::alloc::{AllocError, Global};
use walk_tables::at;

/// The motion of a step between two tanks: its places, how long it lasts, the way, and a mask of the hoists that reach
/// it.
#[derive(Clone, Copy)]
pub struct Ride {
    pub motion: Motion,
    pub lasts: i64,
    pub way: i64,
    pub from_mask: u8,
    pub to_mask: u8,
}

/// Stands where no motion is.
pub const NO_RIDE: Ride = Ride {
    motion: Motion {
        from: 0,
        to: 0,
        lift: 0,
        lower: 0,
    },
    lasts: 0,
    way: 0,
    from_mask: 0,
    to_mask: 0,
};

impl Ride {
    /// The hoists that reach both ends, as a mask.
    #[inline]
    pub fn mask(&self) -> u8 {
        self.from_mask & self.to_mask
    }

    /// Whether a hoist reaches both ends.
    #[inline]
    pub fn is_reached(&self, hoist: u8) -> bool {
        self.mask() & bit(i64::from(hoist)) != 0
    }

    /// The hoist that alone reaches both ends.
    pub fn only_hoist(&self) -> Option<u8> {
        match self.mask() {
            1 => Some(0),
            2 => Some(1),
            4 => Some(2),
            8 => Some(3),
            16 => Some(4),
            32 => Some(5),
            _ => None,
        }
    }

    /// Where the hoist is some ticks after the start.
    pub fn place(&self, ticks: i64) -> i64 {
        let from = i64::from(self.motion.from);
        let to = i64::from(self.motion.to);
        let gone = ticks
            .wrapping_sub(i64::from(self.motion.lift))
            .min(self.way)
            .max(0);
        if from <= to {
            from.wrapping_add(gone)
        } else {
            from.wrapping_sub(gone)
        }
    }
}

/// How long a move lasts over some motions: the least, the greatest, and the least with the way back.
#[derive(Clone, Copy, PartialEq, Eq)]
pub struct Lasts {
    pub low: i64,
    pub high: i64,
    pub back: i64,
}

impl Lasts {
    /// Of one motion.
    pub fn of(ride: &Ride) -> Lasts {
        Lasts {
            low: ride.lasts,
            high: ride.lasts,
            back: ride.lasts.wrapping_add(ride.way),
        }
    }

    /// Of these and others.
    pub fn and(self, other: Lasts) -> Lasts {
        Lasts {
            low: self.low.min(other.low),
            high: self.high.max(other.high),
            back: self.back.min(other.back),
        }
    }
}

/// Two motions' starts must not be nearer than `after` one way and `before` the other. Where `after` is `i32::MIN`
/// nothing is forbidden.
#[derive(Clone, Copy)]
pub struct Span {
    pub after: i32,
    pub before: i32,
}

/// Forbids nothing.
pub const FREE: Span = Span {
    after: i32::MIN,
    before: i32::MIN,
};

// The hoists that reach a place, as a mask.
fn mask_at(line: &Line, place: u32) -> u8 {
    let mut mask = 0u8;
    let gap = i64::from(line.gap());
    let hoists = i64::from(line.hoists());
    let at = i64::from(place);
    for h in 0..8 {
        let below = gap.wrapping_mul(h);
        let above = hoists.wrapping_sub(1).wrapping_sub(h).wrapping_mul(gap);
        if h < hoists && below <= at && at.wrapping_add(above) <= i64::from(line.track()) {
            mask |= bit(h);
        }
    }
    mask
}

// The mask of one hoist.
fn bit(hoist: i64) -> u8 {
    match hoist {
        0 => 1,
        1 => 2,
        2 => 4,
        3 => 8,
        4 => 16,
        5 => 32,
        _ => 0,
    }
}

fn place_of(line: &Line, tank: u32) -> u32 {
    match line.tanks().get(tank as usize) {
        Some(tank) => tank.at,
        None => 0,
    }
}

fn ride_of(line: &Line, from: u32, to: u32, lift: i64, lower: i64) -> Ride {
    let (from, to) = (place_of(line, from), place_of(line, to));
    let way = i64::from(from.abs_diff(to));
    let motion = Motion {
        from,
        to,
        lift: short(lift),
        lower: short(lower),
    };
    Ride {
        motion,
        lasts: lift.wrapping_add(way).wrapping_add(lower),
        way,
        from_mask: mask_at(line, from),
        to_mask: mask_at(line, to),
    }
}

fn short(ticks: i64) -> u32 {
    u32::try_from(ticks).unwrap_or(0)
}

/// The motions of a step: for each tank of its first stage one to each tank of its second stage.
fn push_rides(
    line: &Line,
    here: &Stop,
    next: &Stop,
    rides: &mut Vec<Ride>,
) -> Result<(), AllocError> {
    for i in 0..here.count.min(4) {
        for j in 0..next.count.min(4) {
            rides.push(ride_of(line, here.tanks[i], next.tanks[j], here.lift, next.lower))?;
        }
    }
    Ok(())
}

/// The motions of all steps, and the number of the first one of each step.
pub(crate) fn rides_of(
    alloc: Global,
    line: &Line,
    stops: &[Stop],
) -> Result<(Vec<Ride>, Vec<usize>), AllocError> {
    let mut rides = Vec::new(alloc);
    let mut first = Vec::new(alloc);
    for k in 1..stops.len() {
        first.push(rides.len())?;
        let here = at(stops, k.wrapping_sub(1), NO_STAGE);
        let next = at(stops, k, NO_STAGE);
        push_rides(line, &here, &next, &mut rides)?;
    }
    first.push(rides.len())?;
    Ok((rides, first))
}

// The clash of motion a on one hoist and motion b on another.
fn span_of(line: &Line, a: Motion, ha: u32, b: Motion, hb: u32) -> Span {
    if !is_motion(a) || !is_motion(b) || ha >= line.hoists() || hb >= line.hoists() {
        return FREE;
    }
    match clash(line, a, ha, b, hb) {
        Some(span) => Span {
            after: i32::try_from(span.after).unwrap_or(0),
            before: i32::try_from(span.before).unwrap_or(0),
        },
        None => FREE,
    }
}

fn is_motion(a: Motion) -> bool
    ensures { IsTrue result → IsMotion a }
{
    a.from <= 1000 && a.to <= 1000 && 1 <= a.lift && a.lift <= 500 && 1 <= a.lower && a.lower <= 500
}

/// The clashes of all motions a and b: that of hoists which differ by `d` stands at (d * motions + a) * motions + b,
/// d counted from -(hoists - 1) on.
pub(crate) fn spans_of(
    alloc: Global,
    line: &Line,
    rides: &[Ride],
) -> Result<Vec<Span>, AllocError> {
    let last = line.hoists().saturating_sub(1);
    let mut spans = Vec::new(alloc);
    for shift in 0..last.saturating_mul(2).saturating_add(1) {
        let lower = last.saturating_sub(shift);
        let upper = shift.saturating_sub(last);
        for a in rides {
            for b in rides {
                spans.push(span_of(line, a.motion, lower, b.motion, upper))?;
            }
        }
    }
    Ok(spans)
}
