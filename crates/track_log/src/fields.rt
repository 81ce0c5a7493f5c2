// Words of a tick line of which one or another may come next, read from the front of the bytes.
ghost use Rattle.std.specs.Prelude.{◌≡◌, ◌-◌, length, codes};
ghost use Rattle.field_reading.specs.Reading.{word_at, number_at};
ghost use Rattle.field_reading.specs.Gives.{Gives};
ghost use Rattle.track_log.specs.Logs.{most_position};
ghost use Rattle.track_log.specs.Reading.{at_most, begin_at, letter_at, tank_at, position_at};

use field_reading::{Stop, known_number, number, word};
use hoist_base::Line;
use tick_machine::Go;

/// The greatest position that a log may give.
const MOST_POSITION: u32 = 1000;

/// The letter of a hoist: at tick 0 it stays.
#[tactic(auto, unfolding(crate::specs::Reading::letter_at, field_reading::specs::Reading::kind_at, field_reading::specs::Reading::word_at))]
pub(crate) fn letter(tick: u32, bytes: &[u8]) -> Result<(Go, &[u8]), Stop>
    ensures { Gives (λ x. (x.0, x.1.now)) result (letter_at tick bytes.now) }
{
    match bytes {
        [b's', rest @ ..] => Ok((Go::Stay, rest)),
        [b'l', rest @ ..] if tick > 0 => Ok((Go::Low, rest)),
        [b'h', rest @ ..] if tick > 0 => Ok((Go::High, rest)),
        _ => Err(Stop::Broken(bytes.len())),
    }
}

/// The words that begin a begin of hoist `h`.
#[tactic(auto, unfolding(crate::specs::Reading::begin_at))]
pub(crate) fn begin(h: u32, bytes: &[u8]) -> Result<&[u8], Stop>
    ensures { Gives (λ x. x.now) result (begin_at h bytes.now) }
{
    let rest = word(b" begin ", bytes)?;
    let rest = known_number(h, rest)?;
    word(b" ", rest)
}

/// The number of a tank of the line.
#[tactic(auto, unfolding(crate::specs::Reading::tank_at))]
pub(crate) fn tank<'a>(line: &Line, bytes: &'a [u8]) -> Result<(Option<u32>, &'a [u8]), Stop>
    ensures { Gives (λ x. (x.0, x.1.now)) result (tank_at line.now bytes.now) }
{
    let last = line.tanks().len() - 1;
    let (tank, rest) = number(0, last as u32, bytes)?;
    Ok((Some(tank), rest))
}

/// A position of a hoist.
#[tactic(auto, unfolding(crate::specs::Reading::position_at))]
pub(crate) fn position(bytes: &[u8]) -> Result<(u32, &[u8]), Stop>
    ensures { Gives (λ x. (x.0, x.1.now)) result (position_at bytes.now) }
{
    let rest = word(b" ", bytes)?;
    number(0, MOST_POSITION, rest)
}
