// Machines in play: a run, tick by tick.
ghost use Rattle.std.specs.Prelude.{◌≡◌, ℕ, ◌+◌, ◌<◌, ◌^◌, IfOk, OnErr, IfSome, Ok, None, length, get_or};
ghost use Rattle.hoist_base.specs.Valid.{IsLine};
ghost use Rattle.tick_machine.specs.Layout.{layout_of};
ghost use Rattle.tick_machine.specs.Scene.{scene_of, command_of, IsSized, IsSizedOrder};
ghost use Rattle.tick_machine.specs.Rules.{AreApart, IsBelow, IsFrame};
ghost use Rattle.tick_machine.specs.Play as plays;
ghost use Rattle.tick_machine.specs.Playing as machines;

use crate::breach::Breach;
use crate::driver::Driver;
use crate::event::Event;
use crate::frame::{Frame, empty};
use crate::log::note_step;
use crate::order::Order;
use crate::stepping::advance;
use hoist_base::Line;
use std::alloc::{AllocError, Global};
use std::marker::Model;
use std::mem;

/// A machine in play, which does a run tick by tick.
///
/// Contracts see its line, the tick into which its next step leads, and the frame before that step.
#[derive(Debug, Drop)]
pub struct Playing<'a> {
    line: &'a Line,
    tick: u64,
    frame: Frame,
    // Room for the next frame, and for the order that leads to it.
    next: Frame,
    order: Order,
}

impl<'a> Model for Playing<'a> {
    ghost use Rattle.tick_machine.specs.Playing.{PlayingData, IsPlaying};

    ghost Value = { PlayingData };

    ghost view = { λ m. record { line = m.line.now; tick = m.tick; frame = m.frame } };

    ghost invariant = { λ m. IsPlaying m.line.now m.tick m.frame m.next m.order };
}

impl<'a> Playing<'a> {
    /// The machine before the first tick of a driver's run: an empty frame, with the hoists where the driver has them.
    pub fn begin<D: Driver>(
        alloc: Global,
        line: &'a Line,
        driver: &D,
    ) -> Result<Playing<'a>, AllocError>
        requires apart { AreApart (layout_of line.now) (D.place driver.now) }
        requires hoists { D.hoists driver.now ≡ line.now.hoists }
        ensures line { IfOk result (λ machine. machine.line ≡ line.now) }
        ensures tick { IfOk result (λ machine. machine.tick ≡ D.first_tick driver.now) }
        ensures frame { IfOk result (λ machine. scene_of machine.frame
            ≡ plays.empty_scene (layout_of line.now) (D.place driver.now)) }
    {
        let hoists = line.hoists();
        let at = positions(alloc, driver, hoists)?;
        let frame = empty(alloc, line, at.as_slice())?;
        let next = empty(alloc, line, at.as_slice())?;
        let order = Order::idle(alloc, hoists)?;
        Ok(Playing {
            line,
            tick: driver.first(),
            frame,
            next,
            order,
        })
    }

    /// Does one tick by the driver's order, and appends the tick's events to `log`.
    ///
    /// Some is the first breach of the step into that tick, which isn't made: the machine stays as it was, and so it
    /// does where memory is wanting. The log may then have some of the tick's events.
    pub fn advance<D: Driver>(
        &mut self,
        driver: &D,
        log: &mut Vec<Event>,
    ) -> Result<Option<Breach>, AllocError>
        requires hoists { D.hoists driver.now ≡ self.old.line.hoists }
        requires small { self.old.tick < 2 ^ 61 }
        ensures line { self.new.line ≡ self.old.line }
        ensures step { IfOk result (λ breach. plays.next_step (layout_of self.old.line) self.old.tick
            (D.command driver.now self.old.tick) (Ok (machines.reached self.old log.old.items))
            ≡ plays.reached_or self.old.tick breach (machines.reached self.new log.new.items)) }
        ensures tick { IfOk result (λ breach. breach ≡ None → self.new.tick ≡ self.old.tick + 1) }
        ensures breach { IfOk result (λ breach. IfSome breach (λ _. self.new ≡ self.old)) }
        ensures memory { OnErr result (self.new ≡ self.old) }
    {
        driver.order(self.tick, &mut self.order);
        if let Some(breach) = play_tick(
            self.line,
            self.tick,
            &self.frame,
            &self.order,
            &mut self.next,
            log,
        )? {
            return Ok(Some(breach));
        }
        mem::swap(&mut self.frame, &mut self.next);
        self.tick += 1;
        Ok(None)
    }

    /// The frame that it has come to.
    pub(crate) fn into_frame(self) -> Frame
        ensures frame { result ≡ self.entry.frame }
        ensures rules { IsFrame self.entry.line result }
    {
        self.frame
    }
}

/// The positions of all hoists at the first tick.
fn positions<D: Driver>(alloc: Global, driver: &D, hoists: u32) -> Result<Vec<u32>, AllocError>
    requires { hoists ≡ D.hoists driver.now }
    ensures count { IfOk result (λ at. length at.items ≡ hoists) }
    ensures place { IfOk result (λ at. (h : ℕ) → h < hoists → get_or at.items h 0 ≡ D.place driver.now h) }
{
    let mut at = Vec::new(alloc);
    for h in 0..hoists {
        at.push(driver.at(h))?;
    }
    Ok(at)
}

/// Makes the step into `tick` from `old` by `order`, writes its frame over `new`, and appends its events to `log`.
fn play_tick(
    line: &Line,
    tick: u64,
    old: &Frame,
    order: &Order,
    new: &mut Frame,
    log: &mut Vec<Event>,
) -> Result<Option<Breach>, AllocError>
    requires old { IsFrame line.now old.now }
    requires order { IsSizedOrder line.now.hoists order.now }
    requires new { IsSized line.now new.old }
    requires below { IsBelow (2 ^ 62) (scene_of old.now) }
    ensures step { IfOk result (λ end. plays.next_step (layout_of line.now) tick (command_of order.now)
        (Ok (record { frame = scene_of old.now; log = log.old.items }))
        ≡ plays.reached_or tick end (record { frame = scene_of new.new; log = log.new.items })) }
    ensures sized { IsSized line.now new.new }
    ensures valid { IsLine line.now }
{
    match advance(line, old, order, new) {
        Ok(taken) => {
            note_step(line, tick, old, order, taken, new, log)?;
            Ok(None)
        }
        Err(breach) => Ok(Some(breach)),
    }
}
