// What is answered of a log.
ghost use Rattle.std.specs.Prelude.{IfOk};
ghost use Rattle.track_log.specs.Logs.{LogData, IsTextOf};
ghost use Rattle.track_log.specs.Following.{IsFollowed, IsOutcome};

use crate::walk::walk;
use field_reading::Stop;
use hoist_base::Line;
use std::alloc::{AllocError, Global};
use tick_machine::{Breach, Frame};

/// How far a log is followed.
///
/// `Follows`: the log keeps every rule up to its last tick, `last`, and ends in the frame `end`. `Departs`: `tick` is
/// the first with a breach, and `breach` that breach. `Broken`: the bytes are no log of the line, and their longest
/// front with which some log begins has `offset` bytes.
#[derive(Debug, Drop)]
pub enum Followed {
    Follows { last: u32, end: Frame },
    Departs { tick: u32, breach: Breach },
    Broken { offset: u64 },
}

/// How far the tick machine follows the log whose text the bytes are, or where they stop being a log of the line.
///
/// The machine starts at tick 0 from an empty line, with the hoists at the log's positions, and takes the orders of
/// one tick line after the other. Positions that aren't spaced are a breach at tick 0. The log is read and stepped line
/// by line: what is held does not grow with the log.
pub fn follow(alloc: Global, line: &Line, bytes: &[u8]) -> Result<Followed, AllocError>
    ensures found { IfOk result (IsFollowed line.now bytes.now) }
    ensures only { (log : LogData) → IsTextOf line.now bytes.now log → IfOk result (IsOutcome line.now log) }
{
    match walk(alloc, line, bytes) {
        Ok((followed, rest)) => {
            if rest.is_empty() {
                Ok(followed)
            } else {
                Ok(Followed::Broken {
                    offset: bytes.len().saturating_sub(rest.len()) as u64,
                })
            }
        }
        Err(Stop::Broken(left)) => Ok(Followed::Broken {
            offset: bytes.len().saturating_sub(left) as u64,
        }),
        Err(Stop::Memory) => Err(AllocError),
    }
}
