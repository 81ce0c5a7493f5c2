// Logs, read and played line by line.
ghost use Rattle.std.specs.Prelude.{◌≡◌, ◌≤◌, ◌-◌, ◌&&◌, nat_lt, length, codes, None, IfOk, IfErr};
ghost use Rattle.hoist_base.specs.Valid.{IsLine};
ghost use Rattle.field_reading.specs.Reading.{begins, word_at};
ghost use Rattle.field_reading.specs.Gives.{Gives, Fails};
ghost use Rattle.tick_machine.specs.Layout.{layout_of};
ghost use Rattle.tick_machine.specs.Rules.{AreApart};
ghost use Rattle.track_log.specs.Logs.{most_ticks};
ghost use Rattle.track_log.specs.Reading.{lines_at, log_at, behind};
ghost use Rattle.track_log.specs.Following.{place, IsPlayedOut, IsReadOut};
ghost use Rattle.track_log.specs.Following as following;

use crate::followed::Followed;
use crate::positions::{places, unspaced};
use crate::ticks::tick_line;
use field_reading::{Stop, word};
use hoist_base::Line;
use std::alloc::Global;
use std::mem;
use tick_machine::{Order, empty, step};

/// The greatest number of tick lines of a log.
const MOST_TICKS: u32 = 100_000;

/// The end of the log comes next, which it may not before the line of tick 0.
fn at_end(tick: u32, bytes: &[u8]) -> bool
    ensures { result ≡ (nat_lt 0 tick && begins 101 bytes.now) }
{
    match bytes {
        [b'e', ..] => tick > 0,
        _ => false,
    }
}

/// Reads the end of the log: the bytes behind it.
fn log_end(bytes: &[u8]) -> Result<&[u8], Stop>
    ensures { Gives (λ x. x.now) result (word_at (codes "end\n") bytes.now) }
{
    word(b"end\n", bytes)
}

/// An order with nothing in it.
fn no_order(alloc: Global) -> Order {
    Order {
        go: Vec::new(alloc),
        begin: Vec::new(alloc),
        off: false,
        put: false,
    }
}

/// Reads the tick lines from tick `first` on, and the end: the bytes behind it. They are read into `order`.
fn read_on<'a>(
    line: &Line,
    first: u32,
    bytes: &'a [u8],
    order: &mut Order,
) -> Result<&'a [u8], Stop>
    requires { first ≤ most_ticks }
    ensures { Gives (λ x. x.now) result (behind (lines_at line.now first (most_ticks - first) bytes.now)) }
{
    let mut rest = bytes;
    for tick in first..MOST_TICKS {
        if at_end(tick, rest) {
            return log_end(rest);
        }
        rest = tick_line(line, tick, rest, order)?;
    }
    log_end(rest)
}

/// Reads the tick lines and the end, and steps the machine by each line from the hoists' positions on, up to the first
/// breach: what comes of it, and the bytes behind the end.
fn play<'a>(
    alloc: Global,
    line: &Line,
    at: &[u32],
    bytes: &'a [u8],
) -> Result<(Followed, &'a [u8]), Stop>
    requires valid { IsLine line.now }
    requires count { length at.now ≡ line.now.hoists }
    requires spaced { following.unspaced (layout_of line.now) (place at.now) ≡ None }
    ensures played { IfOk result (λ x. IsPlayedOut line.now at.now
        (lines_at line.now 0 most_ticks bytes.now) x.0 x.1.now) }
    ensures broken { IfErr result (λ e. Fails e (lines_at line.now 0 most_ticks bytes.now)) }
{
    let mut frame = empty(alloc, line, at)?;
    let mut next = empty(alloc, line, at)?;
    let mut order = no_order(alloc);
    let mut rest = bytes;
    for tick in 0..MOST_TICKS {
        if at_end(tick, rest) {
            let rest = log_end(rest)?;
            let last = tick - 1;
            return Ok((Followed::Follows { last, end: frame }, rest));
        }
        rest = tick_line(line, tick, rest, &mut order)?;
        match step(line, &frame, &order, &mut next) {
            Ok(()) => mem::swap(&mut frame, &mut next),
            Err(breach) => {
                let rest = read_on(line, tick + 1, rest, &mut order)?;
                return Ok((Followed::Departs { tick, breach }, rest));
            }
        }
    }
    let rest = log_end(rest)?;
    let last = MOST_TICKS - 1;
    Ok((Followed::Follows { last, end: frame }, rest))
}

/// Reads a log from the front of the bytes and plays it: what comes of it, and the bytes behind it.
pub(crate) fn walk<'a>(
    alloc: Global,
    line: &Line,
    bytes: &'a [u8],
) -> Result<(Followed, &'a [u8]), Stop>
    ensures read { IfOk result (λ x. IsReadOut line.now (log_at line.now bytes.now) x.0 x.1.now) }
    ensures broken { IfErr result (λ e. Fails e (log_at line.now bytes.now)) }
    ensures valid { IsLine line.now }
{
    let hoists = line.hoists();
    let rest = word(b"hoist log 1\nat", bytes)?;
    let (at, rest) = places(alloc, hoists, rest)?;
    match unspaced(line, at.as_slice()) {
        None => play(alloc, line, at.as_slice(), rest),
        Some(breach) => {
            let mut order = no_order(alloc);
            let rest = read_on(line, 0, rest, &mut order)?;
            Ok((Followed::Departs { tick: 0, breach }, rest))
        }
    }
}
