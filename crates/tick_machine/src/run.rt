// Runs of steps.
ghost use Rattle.std.specs.Prelude.{◌≡◌, ℕ, ◌<◌, ◌≤◌, ◌^◌, IfOk};
ghost use Rattle.tick_machine.specs.declared.order.Go.TheVariants.{Stay};
ghost use Rattle.tick_machine.specs.Layout.{layout_of};
ghost use Rattle.tick_machine.specs.Rules.{AreApart};
ghost use Rattle.tick_machine.specs.Play as plays;

use crate::breach::Breach;
use crate::driver::Driver;
use crate::event::Event;
use crate::frame::Frame;
use crate::playing::Playing;
use hoist_base::Line;
use std::alloc::{AllocError, Global};

/// How a run ends: it is done, with its log and its last frame, or no step leads into a tick.
#[derive(Debug, Drop)]
pub enum Played {
    Done { log: Vec<Event>, end: Frame },
    Refused { tick: u64, breach: Breach },
}

/// Runs the machine by the orders of a driver, from the empty frame at its positions, which does the
/// events of the first tick without motion.
///
/// Done has the events of all ticks, in order, and the frame at the last tick. Refused has the first
/// tick into which no step leads, with the first breach of that step.
pub fn play<D: Driver>(alloc: Global, line: &Line, driver: &D) -> Result<Played, AllocError>
    requires order { D.first_tick driver.now ≤ D.last_tick driver.now }
    requires small { D.last_tick driver.now < 2 ^ 61 }
    requires apart { AreApart (layout_of line.now) (D.place driver.now) }
    requires hoists { D.hoists driver.now ≡ line.now.hoists }
    requires still { (h : ℕ) → h < line.now.hoists → (D.command driver.now (D.first_tick driver.now)).go h ≡ Stay }
    ensures run { IfOk result (plays.IsPlayed
        (plays.run (layout_of line.now) (D.place driver.now) (D.command driver.now) (D.first_tick driver.now)
        (D.last_tick driver.now))) }
    ensures end { IfOk result (plays.EndsIn line.now) }
{
    let mut playing = Playing::begin(alloc, line, driver)?;
    let mut log = Vec::new(alloc);
    let first = driver.first();
    let last = driver.last();
    for tick in first..last + 1 {
        if let Some(breach) = playing.advance(driver, &mut log)? {
            return Ok(Played::Refused { tick, breach });
        }
    }
    Ok(Played::Done {
        log,
        end: playing.into_frame(),
    })
}
