// Whether frames are a loop by given orders, and the timetable that they show.
ghost use Rattle.std.specs.Prelude.{◌≡◌, ◌^◌, ◌≤◌, All, IfOk, length};
ghost use Rattle.tick_machine.specs.Scene.{IsSized, IsSizedOrder};
ghost use Rattle.tick_machine.specs.Rules.{IsBelow};
ghost use Rattle.machine_loops.specs.Lists.{scenes, commands};
ghost use Rattle.machine_loops.specs.Looped.{IsLooped};

use crate::checking::first_break;
use crate::reading::shown_timetable;
use hoist_base::Line;
use std::alloc::{AllocError, Global};
use tick_machine::{Frame, Order};
use timetable::Timetable;

/// What frames and orders are: a loop, with the timetable that it shows, or none.
///
/// `index` is the first one at which they are none: frame `index` breaks the frame rules, or order `index` doesn't lead
/// from it to the frame after it.
#[derive(Debug, Drop)]
pub enum Looped {
    Made(Timetable),
    Broken { index: u32 },
}

/// Whether frames are a loop of the line by these orders, and the timetable that they show.
///
/// Order i leads from frame i to the next one, the last order to the first frame with next and all carrier numbers
/// raised by the degree. The timetable is legal, and its period is the number of frames. Its carrier c is the one that
/// is put on as the (c + 1)st after the first frame, which is tick 0; its path is that of the hoists in the frames.
///
/// There are as many orders as frames, at most 20,000, with lists that fit the line. In the first frame next and all
/// ages are below 2^61. The time is linear in the frames times the hoists and tanks, the memory in the moves and the
/// path.
pub fn every_loop(
    alloc: Global,
    line: &Line,
    frames: &[Frame],
    orders: &[Order],
) -> Result<Looped, AllocError>
    requires frames { All (IsSized line.now) frames.now }
    requires orders { All (IsSizedOrder line.now.hoists) orders.now }
    requires count { length orders.now ≡ length frames.now }
    requires some { (1 ≤ length frames.now) × (length frames.now ≤ 20000) }
    requires below { IsBelow (2 ^ 61) (scenes frames.now 0) }
    ensures { IfOk result (IsLooped line.now (length frames.now) (scenes frames.now) (commands orders.now)) }
{
    match first_break(alloc, line, frames, orders)? {
        Some(index) => Ok(Looped::Broken { index }),
        None => Ok(Looped::Made(shown_timetable(alloc, line, frames)?)),
    }
}
