// What a hoist does at each tick of the period.
ghost use Rattle.std.specs.Prelude.{◌≡◌, ◌+◌, ◌*◌, ◌<◌, ◌≤◌, ◌&&◌, not, cond, length};
ghost use Rattle.hoist_base.specs.LineData.{IsMove};
ghost use Rattle.timetable.specs.TimetableData.{timetable_of, FitsLine};
ghost use Rattle.report_shares.specs.Ticks as ticks;

use hoist_base::{Line, MoveId};
use move_list::{duration, motion_of};
use timetable::Timetable;

/// How many ticks of a period a hoist carries, drives without a load, and stands.
#[derive(Clone, Copy, Debug)]
pub(crate) struct Share {
    pub(crate) carrying: u32,
    pub(crate) driving: u32,
    pub(crate) standing: u32,
}

/// The ticks from the last start of a move to a tick of the period.
fn since(line: &Line, t: &Timetable, tick: u32, m: MoveId) -> u64
    requires fits { FitsLine line.now t.now }
    requires there { IsMove line.now m.carrier m.step }
    ensures { result ≡ ticks.since (timetable_of t.now) m.carrier m.step tick }
{
    let period = t.period() as u64;
    (tick as u64 + (period - t.start(m) % period)) % period
}

/// Whether a hoist carries at a tick by a move.
fn carries_by(line: &Line, t: &Timetable, h: u32, tick: u32, m: MoveId) -> bool
    requires fits { FitsLine line.now t.now }
    requires there { IsMove line.now m.carrier m.step }
    ensures { result ≡ ticks.carries_by line.now (timetable_of t.now) h tick m.carrier m.step }
{
    t.hoist(m) == h && since(line, t, tick, m) < duration(motion_of(line, t.route(), m)) as u64
}

/// Whether a hoist carries at a tick.
fn carries(line: &Line, t: &Timetable, h: u32, tick: u32) -> bool
    requires { FitsLine line.now t.now }
    ensures { result ≡ ticks.carries line.now (timetable_of t.now) h tick }
{
    for i in 0..line.move_count() {
        if carries_by(line, t, h, tick, line.move_at(i)) {
            return true;
        }
    }
    false
}

/// Whether a hoist's position changes from a tick to the next.
fn changes(t: &Timetable, h: u32, tick: u32) -> bool
    requires { (h + 1) * t.now.period ≤ length t.now.path }
    ensures { result ≡ ticks.changes (timetable_of t.now) h tick }
{
    t.position(h, tick as u64) != t.position(h, tick as u64 + 1)
}

/// The ticks of each kind with one more: that of a hoist which carries or not, and whose position changes or not.
fn with_tick(share: Share, carries: bool, changes: bool) -> Share
    requires { share.carrying + share.driving + share.standing < 20000 }
    ensures carrying { result.carrying ≡ share.carrying + cond carries 1 0 }
    ensures driving { result.driving ≡ share.driving + cond (not carries && changes) 1 0 }
    ensures standing { result.standing ≡ share.standing + cond (not carries && not changes) 1 0 }
{
    let mut more = share;
    if carries {
        more.carrying += 1;
    } else if changes {
        more.driving += 1;
    } else {
        more.standing += 1;
    }
    more
}

/// How many ticks of a period a hoist carries, drives without a load, and stands.
pub(crate) fn share_of(line: &Line, t: &Timetable, h: u32) -> Share
    requires fits { FitsLine line.now t.now }
    requires there { h < line.now.hoists }
    ensures carrying { result.carrying ≡ ticks.carrying line.now (timetable_of t.now) h }
    ensures driving { result.driving ≡ ticks.driving line.now (timetable_of t.now) h }
    ensures standing { result.standing ≡ ticks.standing line.now (timetable_of t.now) h }
    ensures whole { result.carrying + result.driving + result.standing ≡ t.now.period }
{
    let mut share = Share {
        carrying: 0,
        driving: 0,
        standing: 0,
    };
    for tick in 0..t.period() {
        share = with_tick(share, carries(line, t, h, tick), changes(t, h, tick));
    }
    share
}
