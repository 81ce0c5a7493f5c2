// Which carrier of the timetable a carrier of a frame is, and when.
ghost use Rattle.std.specs.Prelude.{◌≡◌, ◌+◌, ◌^◌, ◌≤◌, ◌<◌, length};
ghost use Rattle.hoist_base.specs.Valid.{IsLine};
ghost use Rattle.timetable.specs.TimetableData.{last_tick};
ghost use Rattle.machine_loops.specs.Loops.{IsInLine};
ghost use Rattle.machine_loops.specs.Lists.{scenes};
ghost use Rattle.machine_loops.specs.Reading.{IsReadable, IsTurn, IsSeen};

use hoist_base::Line;
use tick_machine::Frame;

/// A carrier of the timetable, from 0 on, whose part another one plays so many periods earlier.
#[derive(Clone, Copy)]
struct Turn {
    carrier: u32,
    periods: u64,
}

/// A carrier of the timetable, from 0 on, and a tick at which it is in the line.
#[derive(Clone, Copy)]
pub(crate) struct Seen {
    pub(crate) carrier: u32,
    pub(crate) tick: u64,
}

/// The part that a carrier plays, where carrier 0 of the timetable is the one with the number `first`.
#[tactic(auto, using(crate::proofs::SeenLemmas::rounded_up))]
fn turn_of(degree: u32, first: u64, carrier: u64) -> Turn
    requires degree { (1 ≤ degree) × (degree ≤ 4) }
    requires first { first < 2 ^ 61 }
    requires known { carrier < first + degree }
    ensures { IsTurn degree first carrier result.carrier result.periods }
{
    if carrier >= first {
        return Turn {
            carrier: (carrier - first) as u32,
            periods: 0,
        };
    }
    let degree = u64::from(degree);
    let behind = first - carrier;
    let periods = (behind + degree - 1) / degree;
    Turn {
        carrier: (periods * degree - behind) as u32,
        periods,
    }
}

/// The carrier that is put on next in frame `t`.
pub(crate) fn next_at(frames: &[Frame], t: usize) -> u64
    requires { t < length frames.now }
    ensures { result ≡ (scenes frames.now t).next }
{
    frames[t].next
}

/// Who a carrier is that is in the line in frame `t`, and when it is where that one is.
pub(crate) fn seen_at(line: &Line, frames: &[Frame], t: usize, carrier: u64) -> Seen
    requires closed { IsReadable line.now frames.now }
    requires there { t < length frames.now }
    requires in_line { IsInLine (scenes frames.now t) carrier }
    ensures seen { IsSeen line.now frames.now t carrier result }
    ensures soon { result.tick < last_tick }
    ensures valid { IsLine line.now }
{
    let turn = turn_of(line.degree(), next_at(frames, 0), carrier);
    Seen {
        carrier: turn.carrier,
        tick: t as u64 + turn.periods * frames.len() as u64,
    }
}
