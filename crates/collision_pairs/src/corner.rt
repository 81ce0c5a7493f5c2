// Where motions turn.
ghost use Rattle.std.specs.Prelude.{◌≡◌};
ghost use Rattle.line_model.specs.Motion.{IsMotion};
ghost use Rattle.collision_pairs.specs.Clash as clash;

use crate::span::Span;
use move_list::{Motion, duration};

/// A position of a hoist at a tick of its motion.
#[derive(Clone, Copy, Debug)]
pub(crate) struct Corner {
    pub(crate) tick: u32,
    pub(crate) at: u32,
}

// Where a motion begins, has lifted, has arrived and ends.
pub(crate) fn corners(a: Motion) -> [Corner; 4]
    requires { IsMotion a }
    ensures { result ≡ clash.corners a }
{
    let end = duration(a);
    [
        Corner {
            tick: 0,
            at: a.from,
        },
        Corner {
            tick: a.lift,
            at: a.from,
        },
        Corner {
            tick: end - a.lower,
            at: a.to,
        },
        Corner {
            tick: end,
            at: a.to,
        },
    ]
}

// The offsets that a point of the lower hoist and one of the upper hoist forbid.
pub(crate) fn reach(room: u32, lower: Corner, upper: Corner) -> Option<Span>
    ensures { result ≡ clash.reach room lower upper }
{
    let lack = i64::from(lower.at) + i64::from(room) - i64::from(upper.at);
    if lack <= 0 {
        return None;
    }
    let offset = i64::from(lower.tick) - i64::from(upper.tick);
    Some(Span {
        after: offset + lack,
        before: lack - offset,
    })
}
