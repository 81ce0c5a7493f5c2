// Tick lines, read from the front of the bytes over an order.
ghost use Rattle.std.specs.Prelude.{◌≡◌, IfOk, IfErr};
ghost use Rattle.hoist_base.specs.Valid.{IsLine};
ghost use Rattle.field_reading.specs.declared.stop.Stop.TheVariants.{Memory};
ghost use Rattle.field_reading.specs.Reading.{word_at};
ghost use Rattle.field_reading.specs.Gives.{Gives};
ghost use Rattle.track_log.specs.Reading.{at_most, letters_at, begins_at, tail_at, tick_at, flagged, line_of};
ghost use Rattle.track_log.specs.Reading as readings;

use crate::fields::{begin, letter, tank};
use field_reading::{Stop, word};
use hoist_base::Line;
use tick_machine::{Go, Order};

/// The stop that went on further: another word broke where it left `left` bytes.
fn further(left: usize, stop: Stop) -> Stop
    ensures { result ≡ readings.further left stop }
{
    match stop {
        Stop::Memory => Stop::Memory,
        Stop::Broken(other) => Stop::Broken(left.min(other)),
    }
}

/// The letters of all hoists.
fn letters<'a>(hoists: u32, tick: u32, bytes: &'a [u8], go: &mut Vec<Go>) -> Result<&'a [u8], Stop>
    ensures { Gives (λ x. (go.new.items, x.now)) result (letters_at hoists tick bytes.now) }
{
    go.clear();
    let mut rest = bytes;
    for h in 0..hoists {
        let (one, after) = letter(tick, rest)?;
        go.push(one)?;
        rest = after;
    }
    Ok(rest)
}

/// Whether the word stands there, what comes next, and how many bytes are left behind the furthest break so far.
fn flag<'a>(text: &[u8], bytes: &'a [u8], left: usize) -> Result<(bool, &'a [u8], usize), Stop>
    ensures flag { IfOk result (λ x. flagged (word_at text.now bytes.now) bytes.now left ≡ (x.0, x.1.now, x.2)) }
    ensures memory { IfErr result (λ e. e ≡ Memory) }
{
    match word(text, bytes) {
        Ok(rest) => Ok((true, rest, left)),
        Err(Stop::Broken(other)) => Ok((false, bytes, left.min(other))),
        Err(Stop::Memory) => Err(Stop::Memory),
    }
}

/// The begins of all hoists, and the end of the line. Words before them broke where they left `left` bytes.
fn begins<'a>(
    line: &Line,
    bytes: &'a [u8],
    left: usize,
    tanks: &mut Vec<Option<u32>>,
) -> Result<&'a [u8], Stop>
    ensures { Gives (λ x. (tanks.new.items, x.now)) result
        (at_most left (begins_at line.now 0 line.now.hoists bytes.now)) }
{
    tanks.clear();
    let hoists = line.hoists();
    let mut rest = bytes;
    let mut left = left;
    for h in 0..hoists {
        match begin(h, rest) {
            Ok(after) => match tank(line, after) {
                Ok((to, after)) => {
                    tanks.push(to)?;
                    rest = after;
                }
                Err(stop) => return Err(further(left, stop)),
            },
            Err(Stop::Broken(other)) => {
                tanks.push(None)?;
                left = left.min(other);
            }
            Err(Stop::Memory) => return Err(Stop::Memory),
        }
    }
    match word(b"\n", rest) {
        Ok(after) => Ok(after),
        Err(stop) => Err(further(left, stop)),
    }
}

/// What stands behind the letters: whether a carrier is taken off and put on, and the begins.
fn tail<'a>(
    line: &Line,
    bytes: &'a [u8],
    tanks: &mut Vec<Option<u32>>,
) -> Result<((bool, bool), &'a [u8]), Stop>
    requires { IsLine line.now }
    ensures { Gives (λ x. ((x.0.0, (x.0.1, tanks.new.items)), x.1.now)) result (tail_at line.now bytes.now) }
{
    let (off, rest, left) = flag(b" off", bytes, bytes.len())?;
    let (put, rest, left) = flag(b" put", rest, left)?;
    let rest = begins(line, rest, left, tanks)?;
    Ok(((off, put), rest))
}

/// The line of a tick: writes its order over `order`, and answers the bytes behind it.
#[tactic(auto, unfolding(crate::specs::Reading::tick_at))]
pub(crate) fn tick_line<'a>(
    line: &Line,
    tick: u32,
    bytes: &'a [u8],
    order: &mut Order,
) -> Result<&'a [u8], Stop>
    ensures { Gives (λ x. (line_of order.new, x.now)) result (tick_at line.now tick bytes.now) }
{
    let rest = letters(line.hoists(), tick, bytes, &mut order.go)?;
    let ((off, put), rest) = tail(line, rest, &mut order.begin)?;
    order.off = off;
    order.put = put;
    Ok(rest)
}
