// A step: from the frame at one tick to that at the next.
ghost use Rattle.std.specs.Prelude.{◌≡◌, ℕ, ◌+◌, ◌^◌, IfOk, OnOk, None};
ghost use Rattle.std.specs.Option.{option_map};
ghost use Rattle.hoist_base.specs.Valid.{IsLine};
ghost use Rattle.tick_machine.specs.declared.event.What.TheVariants as events;
ghost use Rattle.tick_machine.specs.Layout.{layout_of};
ghost use Rattle.tick_machine.specs.Scene.{scene_of, command_of, IsSized, IsSizedOrder};
ghost use Rattle.tick_machine.specs.Points as points;
ghost use Rattle.tick_machine.specs.Step as steps;
ghost use Rattle.tick_machine.specs.Events.{off_of};
ghost use Rattle.tick_machine.specs.Rules.{IsBelow, IsFrame, KeepsRules};
ghost use Rattle.tick_machine.specs.Fits.{Fits};

use crate::beginning::begin_all;
use crate::breach::Breach;
use crate::frame::Frame;
use crate::limits::{first_late, first_near};
use crate::lowering::lower_in_all;
use crate::motions::{first_busy, first_edge, pass_tick};
use crate::order::Order;
use crate::setting::{lift_out_all, set_down_all};
use crate::stations::{put_on, take_off};
use hoist_base::Line;

/// Points 2 to 5: writes the frame `old`, one tick later, over `new`, with carries ended and tanks freed.
fn pass(line: &Line, old: &Frame, order: &Order, new: &mut Frame)
    requires order { IsSizedOrder line.now.hoists order.now }
    requires old { IsSized line.now old.now }
    requires new { IsSized line.now new.old }
    requires fits { Fits (layout_of line.now) 1999 (scene_of old.now) }
    requires below { IsBelow (2 ^ 62) (scene_of old.now) }
    requires edges { steps.first line.now.hoists
        (points.edge (layout_of line.now) (command_of order.now) (scene_of old.now)) ≡ None }
    ensures scene { scene_of new.new ≡ steps.after_free (layout_of line.now) (command_of order.now) (scene_of old.now) }
    ensures fits { Fits (layout_of line.now) 2000 (scene_of new.new) }
    ensures sized { IsSized line.now new.new }
    ensures next { new.new.next ≡ old.now.next }
{
    pass_tick(line, order, old, new);
    set_down_all(line, new);
    lift_out_all(line, new);
}

/// The step of `step`, which answers which carrier is taken off.
pub(crate) fn advance(
    line: &Line,
    old: &Frame,
    order: &Order,
    new: &mut Frame,
) -> Result<Option<u64>, Breach>
    requires order { IsSizedOrder line.now.hoists order.now }
    requires old { IsSized line.now old.now }
    requires new { IsSized line.now new.old }
    requires rules { KeepsRules (layout_of line.now) (scene_of old.now) }
    requires below { IsBelow (2 ^ 62) (scene_of old.now) }
    ensures step { steps.made result (scene_of new.new)
        ≡ steps.step (layout_of line.now) (command_of order.now) (scene_of old.now) }
    ensures who { IfOk result (λ who. off_of order.now.off
        ((steps.after_free (layout_of line.now) (command_of order.now) (scene_of old.now)).hold
        (layout_of line.now).unload_tank) ≡ option_map events.Off who) }
    ensures sized { IsSized line.now new.new }
    ensures valid { IsLine line.now }
{
    match first_busy(line, order, old) {
        None => {}
        Some(breach) => return Err(breach),
    }
    match first_edge(line, order, old) {
        None => {}
        Some(breach) => return Err(breach),
    }
    pass(line, old, order, new);
    let taken = match take_off(line, order, new) {
        Ok(taken) => taken,
        Err(breach) => return Err(breach),
    };
    match put_on(line, order, new) {
        Ok(()) => {}
        Err(breach) => return Err(breach),
    }
    match lower_in_all(line, new) {
        Ok(()) => {}
        Err(breach) => return Err(breach),
    }
    let late = first_late(line, new);
    match begin_all(line, order, new) {
        Ok(()) => {}
        Err(breach) => return Err(breach),
    }
    match late {
        None => {}
        Some(breach) => return Err(breach),
    }
    match first_near(line, new) {
        None => Ok(taken),
        Some(breach) => Err(breach),
    }
}

/// Makes one step: writes the frame to which `order` leads from `old` over `new`.
///
/// Err is the first breach, by point, then by hoist or tank; `new` then holds anything, in lists of
/// fitting lengths. It takes no memory.
pub fn step(line: &Line, old: &Frame, order: &Order, new: &mut Frame) -> Result<(), Breach>
    requires old { IsFrame line.now old.now }
    requires order { IsSizedOrder line.now.hoists order.now }
    requires new { IsSized line.now new.old }
    requires below { IsBelow (2 ^ 62) (scene_of old.now) }
    ensures step { steps.made result (scene_of new.new)
        ≡ steps.step (layout_of line.now) (command_of order.now) (scene_of old.now) }
    ensures frame { OnOk result (IsFrame line.now new.new) }
    ensures grows { (n : ℕ) → IsBelow n (scene_of old.now) → OnOk result (IsBelow (n + 1) (scene_of new.new)) }
    ensures sized { IsSized line.now new.new }
{
    match advance(line, old, order, new) {
        Ok(_) => Ok(()),
        Err(breach) => Err(breach),
    }
}
