// The rides and the starts of moves, and the first two moves that clash.
ghost use Rattle.std.specs.Prelude.{◌≡◌, ℕ, ◌≤◌, ◌<◌, length, unsigned_abs, IfSome};
ghost use Rattle.hoist_base.specs.LineData.{IsMove, move_count};
ghost use Rattle.collision_pairs.specs.Clash.{IsTight};
ghost use Rattle.longest_path.specs.Bounds.{IsPeriod};
ghost use Rattle.path_constraints.specs.Ticks.{AreTicks, tick_at};
ghost use Rattle.period_constraints.specs.Stays.{AreRouted, AreNear};
ghost use Rattle.period_constraints.specs.Starts as starts;
ghost use Rattle.period_constraints.specs.Pairs.{IsFirstShift, IsFirstPair};
ghost use Rattle.period_constraints.specs.Starts.{
  IsTable,
  IsNumbered,
  AreClashing,
  AreNumbered,
  AreMeeting,
  IsRide,
  IsStart,
  AreStarts,
  clash_rides,
  ride_in,
};

use crate::pairs::{Pair, first_shift};
use crate::stays::{motion_by, since_first};
use collision_pairs::{Span, clash};
use hoist_base::{Line, MoveId};
use path_constraints::{Moment, Ride, hoist_by};

/// The ride of a move, where it is settled, its number among the rides of a table, and the tick of its start, from that
/// of move 0 on.
#[derive(Clone, Copy)]
pub(crate) struct Start {
    pub(crate) ride: Option<Ride>,
    pub(crate) number: Option<u32>,
    pub(crate) tick: i32,
}

impl Start {
    /// What a place holds before a start is written into it.
    pub(crate) const NONE: Start = Start {
        ride: None,
        number: None,
        tick: 0,
    };
}

/// Rides by step, with the number of the first of each step, and the clash of each ride with each, row by row.
#[derive(Clone, Copy)]
pub(crate) struct Table<'a> {
    pub(crate) rides: &'a [Ride],
    pub(crate) firsts: &'a [u32],
    pub(crate) spans: &'a [Option<Span>],
}

// The clash of two moves: from the table where it has both rides.
fn span_of(line: &Line, table: Table, a: Start, b: Start) -> Option<Span>
    requires table { IsTable line.now table.rides.now table.spans.now }
    requires first { IsNumbered line.now table.rides.now a }
    requires second { IsNumbered line.now table.rides.now b }
    ensures value { result ≡ clash_rides line.now a.ride b.ride }
    ensures tight { IfSome result IsTight }
{
    if let (Some(i), Some(j)) = (a.number, b.number) {
        return table.spans[i as usize * table.rides.len() + j as usize];
    }
    match (a.ride, b.ride) {
        (Some(x), Some(y)) => clash(line, x.motion, x.hoist, y.motion, y.hoist),
        _ => None,
    }
}

// The first q at which two moves, the second q periods later, clash.
fn clash_shift(line: &Line, table: Table, a: Start, b: Start, period: u32) -> Option<i64>
    requires table { IsTable line.now table.rides.now table.spans.now }
    requires first { IsNumbered line.now table.rides.now a }
    requires second { IsNumbered line.now table.rides.now b }
    requires period { IsPeriod period }
    ensures first { IsFirstShift (λ q. AreClashing line.now a b period q) result }
    ensures small { IfSome result (λ q. unsigned_abs q ≤ 1000000000) }
{
    match span_of(line, table, a, b) {
        None => None,
        Some(span) => {
            let apart = a.tick - b.tick;
            first_shift(
                apart - span.before as i32,
                apart + span.after as i32,
                period,
            )
        }
    }
}

// The first later move that clashes with this one, with its first shift.
fn first_meeting_of(
    line: &Line,
    table: Table,
    starts: &[Start],
    period: u32,
    first: u32,
) -> Option<Pair>
    requires table { IsTable line.now table.rides.now table.spans.now }
    requires few { length starts.now ≤ 128 }
    requires numbered { AreNumbered line.now table.rides.now starts.now }
    requires period { IsPeriod period }
    requires there { first < length starts.now }
    ensures first { IsFirstPair (λ i j q. (i ≡ first) × AreMeeting line.now starts.now period i j q) result }
    ensures small { IfSome result (λ x. unsigned_abs x.shift ≤ 1000000000) }
{
    for second in first + 1..starts.len() as u32 {
        let shift = clash_shift(
            line,
            table,
            starts[first as usize],
            starts[second as usize],
            period,
        );
        if let Some(shift) = shift {
            return Some(Pair {
                first,
                second,
                shift,
            });
        }
    }
    None
}

/// The first two moves that clash.
pub(crate) fn first_meeting(
    line: &Line,
    table: Table,
    starts: &[Start],
    period: u32,
) -> Option<Pair>
    requires table { IsTable line.now table.rides.now table.spans.now }
    requires few { length starts.now ≤ 128 }
    requires numbered { AreNumbered line.now table.rides.now starts.now }
    requires period { IsPeriod period }
    ensures first { IsFirstPair (AreMeeting line.now starts.now period) result }
    ensures small { IfSome result (λ x. unsigned_abs x.shift ≤ 1000000000) }
{
    for first in 0..starts.len() as u32 {
        let pair = first_meeting_of(line, table, starts, period, first);
        if pair.is_some() {
            return pair;
        }
    }
    None
}

// The number of a ride of this step, where the table has it.
fn number_of(table: Table, step: u32, ride: Ride) -> Option<u32>
    requires { length table.rides.now ≤ 256 }
    ensures { IfSome result (λ n. (n < length table.entry.rides.now) × (ride ≡ ride_in table.entry.rides.now n)) }
{
    let first = table.firsts.get(step as usize).copied().unwrap_or(0);
    for number in first..table.rides.len() as u32 {
        if table.rides[number as usize] == ride {
            return Some(number);
        }
    }
    None
}

// The ride of a move between the tanks of its visits, where its hoist is settled.
fn ride_by(line: &Line, tanks: &[u32], assigned: Option<u32>, m: MoveId) -> Option<Ride>
    requires there { IsMove line.now m.carrier m.step }
    requires tanks { AreRouted line.now tanks.now }
    ensures value { result ≡ starts.ride_by line.now tanks.now assigned m.carrier m.step }
    ensures ride { IfSome result (λ r. IsRide line.now r) }
{
    let motion = motion_by(line, tanks, m);
    match hoist_by(line, motion, assigned) {
        None => None,
        Some(hoist) => Some(Ride { motion, hoist }),
    }
}

// The start of a move.
fn start_at(
    line: &Line,
    table: Table,
    tanks: &[u32],
    assigned: Option<u32>,
    ticks: &[i64],
    number: u32,
) -> Start
    requires table { length table.rides.now ≤ 256 }
    requires there { number < move_count line.now }
    requires tanks { AreRouted line.now tanks.now }
    requires ticks { AreTicks line.now ticks.now }
    requires near { AreNear line.now (tick_at ticks.now) }
    ensures start { IsStart line.now tanks.now assigned (tick_at ticks.now) number result }
    ensures numbered { IsNumbered line.now table.entry.rides.now result }
{
    let m = line.move_at(number);
    let ride = ride_by(line, tanks, assigned, m);
    let moment = Moment {
        carrier: m.carrier,
        step: m.step,
        fixed: 0,
    };
    let tick = since_first(line, ticks, moment);
    let number = match ride {
        None => None,
        Some(ride) => number_of(table, m.step, ride),
    };
    Start { ride, number, tick }
}

/// Writes the start of each move into its place.
pub(crate) fn write_starts(
    line: &Line,
    table: Table,
    tanks: &[u32],
    assigned: &[Option<u32>],
    ticks: &[i64],
    starts: &mut [Start],
)
    requires table { length table.rides.now ≤ 256 }
    requires count { length starts.old ≡ move_count line.now }
    requires assigned { move_count line.now ≤ length assigned.now }
    requires tanks { AreRouted line.now tanks.now }
    requires ticks { AreTicks line.now ticks.now }
    requires near { AreNear line.now (tick_at ticks.now) }
    ensures starts { AreStarts line.now tanks.now assigned.now (tick_at ticks.now) starts.new }
    ensures numbered { AreNumbered line.now table.entry.rides.now starts.new }
    ensures few { length starts.new ≤ 124 }
{
    for number in 0..line.move_count() {
        starts[number as usize] = start_at(
            line,
            table,
            tanks,
            assigned[number as usize],
            ticks,
            number,
        );
    }
}
