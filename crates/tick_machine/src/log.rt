// The log of a run: the events of each step.
ghost use Rattle.std.specs.Prelude.{◌≡◌, ◌<◌, ◌++◌, OnOk, length, map};
ghost use Rattle.std.specs.Option.{option_map};
ghost use Rattle.tick_machine.specs.declared.event.What.TheVariants as whats;
ghost use Rattle.tick_machine.specs.Layout.{layout_of};
ghost use Rattle.tick_machine.specs.Scene.{scene_of, command_of, IsSized, IsSizedOrder};
ghost use Rattle.tick_machine.specs.Points as points;
ghost use Rattle.tick_machine.specs.Step as steps;
ghost use Rattle.tick_machine.specs.Events as events;
ghost use Rattle.tick_machine.specs.Fits.{Fits};

use crate::event::{Event, What};
use crate::frame::Frame;
use crate::moves::length_of;
use crate::order::Order;
use hoist_base::Line;
use std::alloc::AllocError;

/// Appends an event, where there is one.
fn note(tick: u64, what: Option<What>, log: &mut Vec<Event>) -> Result<(), AllocError>
    ensures { OnOk result (log.new.items ≡ log.old.items ++ map (events.at_tick tick) (events.given what)) }
{
    if let Some(what) = what {
        log.push(Event { tick, what })?;
    }
    Ok(())
}

/// The set of hoist `h`, where its carry ends at the tick after `old`.
fn set_of(line: &Line, old: &Frame, h: u32) -> Option<What>
    requires sized { IsSized line.now old.now }
    requires fits { Fits (layout_of line.now) 1999 (scene_of old.now) }
    requires hoist { h < line.now.hoists }
    ensures { result ≡ events.set_of (layout_of line.now) (option_map points.grown ((scene_of old.now).carry h)) }
{
    if let Some(c) = old.carry[h as usize] {
        if c.elapsed + 1 == length_of(line, c) {
            return Some(What::Set {
                carrier: c.carrier,
                stage: c.step + 1,
            });
        }
    }
    None
}

/// Appends the sets of the step from `old`, by hoist.
fn note_sets(line: &Line, tick: u64, old: &Frame, log: &mut Vec<Event>) -> Result<(), AllocError>
    requires sized { IsSized line.now old.now }
    requires fits { Fits (layout_of line.now) 1999 (scene_of old.now) }
    ensures { OnOk result (log.new.items ≡ log.old.items
        ++ map (events.at_tick tick) (events.collect line.now.hoists
        (λ h. events.set_of (layout_of line.now) (option_map points.grown ((scene_of old.now).carry h))))) }
{
    let hoists = line.hoists();
    for h in 0..hoists {
        note(tick, set_of(line, old, h), log)?;
    }
    Ok(())
}

/// The begin of hoist `h`, where it was ordered to begin and carries in `new`.
fn begin_of(order: &Order, new: &Frame, h: u32) -> Option<What>
    requires carry { h < length new.now.carry.items }
    requires begin { h < length order.now.begin.items }
    ensures { result ≡ events.begin_of h ((command_of order.now).begin h) ((scene_of new.now).carry h) }
{
    if order.begin[h as usize].is_some() {
        if let Some(c) = new.carry[h as usize] {
            return Some(What::Begin {
                carrier: c.carrier,
                step: c.step,
                hoist: h,
            });
        }
    }
    None
}

/// Appends the begins of the step by `order` to `new`, by hoist.
fn note_begins(
    line: &Line,
    tick: u64,
    order: &Order,
    new: &Frame,
    log: &mut Vec<Event>,
) -> Result<(), AllocError>
    requires sized { IsSized line.now new.now }
    requires order { IsSizedOrder line.now.hoists order.now }
    ensures { OnOk result (log.new.items ≡ log.old.items
        ++ map (events.at_tick tick) (events.collect line.now.hoists
        (λ h. events.begin_of h ((command_of order.now).begin h) ((scene_of new.now).carry h)))) }
{
    let hoists = line.hoists();
    for h in 0..hoists {
        note(tick, begin_of(order, new, h), log)?;
    }
    Ok(())
}

/// Appends the events of the step into `tick`, from `old` by `order` to `new`, which took `taken` off.
pub(crate) fn note_step(
    line: &Line,
    tick: u64,
    old: &Frame,
    order: &Order,
    taken: Option<u64>,
    new: &Frame,
    log: &mut Vec<Event>,
) -> Result<(), AllocError>
    requires old { IsSized line.now old.now }
    requires order { IsSizedOrder line.now.hoists order.now }
    requires new { IsSized line.now new.now }
    requires fits { Fits (layout_of line.now) 1999 (scene_of old.now) }
    requires taken { events.off_of order.now.off
        ((steps.after_free (layout_of line.now) (command_of order.now) (scene_of old.now)).hold
        (layout_of line.now).unload_tank) ≡ option_map whats.Off taken }
    ensures { OnOk result (log.new.items ≡ log.old.items
        ++ events.events_of (layout_of line.now) tick (command_of order.now) (scene_of old.now) (scene_of new.now)) }
{
    note_sets(line, tick, old, log)?;
    let off = match taken {
        Some(carrier) => Some(What::Off { carrier }),
        None => None,
    };
    note(tick, off, log)?;
    let put = if order.put {
        Some(What::Put { carrier: old.next })
    } else {
        None
    };
    note(tick, put, log)?;
    note_begins(line, tick, order, new, log)?;
    Ok(())
}
