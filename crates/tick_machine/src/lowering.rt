// Point 8 of a step: hoists begin to lower.
ghost use Rattle.std.specs.Prelude.{◌≡◌, ◌<◌, OnOk};
ghost use Rattle.tick_machine.specs.Layout.{layout_of};
ghost use Rattle.tick_machine.specs.Scene.{scene_of, IsSized};
ghost use Rattle.tick_machine.specs.Points as points;
ghost use Rattle.tick_machine.specs.Step as steps;
ghost use Rattle.tick_machine.specs.Fits.{Fits, error_of};

use crate::breach::Breach;
use crate::frame::{Frame, Hold, Rest};
use crate::moves::length_of;
use hoist_base::Line;

/// Point 8 of hoist `h`: where it begins to lower, the tank is free, and held from now on.
fn lower_in(line: &Line, h: u32, frame: &mut Frame) -> Result<(), Breach>
    requires sized { IsSized line.now frame.old }
    requires fits { Fits (layout_of line.now) 2000 (scene_of frame.old) }
    requires hoist { h < line.now.hoists }
    ensures breach { error_of result ≡ points.no_lowering (layout_of line.now) h (scene_of frame.old) }
    ensures scene { OnOk result (scene_of frame.new ≡ points.lower_in (layout_of line.now) h (scene_of frame.old)) }
    ensures fits { Fits (layout_of line.now) 2000 (scene_of frame.new) }
    ensures sized { IsSized line.now frame.new }
{
    if let Some(c) = frame.carry[h as usize] {
        if c.elapsed + line.stages()[c.step as usize + 1].lower == length_of(line, c) {
            if let Some(hold) = frame.hold[c.to as usize] {
                return Err(Breach::Held {
                    tank: c.to,
                    carrier: hold.carrier,
                });
            }
            frame.hold[c.to as usize] = Some(Hold {
                carrier: c.carrier,
                stage: c.step + 1,
                rest: Rest::Lowering,
            });
        }
    }
    Ok(())
}

/// Point 8 of all hoists, from the lowest, up to the first breach.
pub(crate) fn lower_in_all(line: &Line, frame: &mut Frame) -> Result<(), Breach>
    requires sized { IsSized line.now frame.old }
    requires fits { Fits (layout_of line.now) 2000 (scene_of frame.old) }
    ensures breach { error_of result ≡ steps.first line.now.hoists
        (λ h. points.no_lowering (layout_of line.now) h
        (steps.each (points.lower_in (layout_of line.now)) h (scene_of frame.old))) }
    ensures scene { OnOk result (scene_of frame.new
        ≡ steps.each (points.lower_in (layout_of line.now)) line.now.hoists (scene_of frame.old)) }
    ensures fits { Fits (layout_of line.now) 2000 (scene_of frame.new) }
    ensures sized { IsSized line.now frame.new }
{
    let hoists = line.hoists();
    for h in 0..hoists {
        match lower_in(line, h, frame) {
            Ok(()) => {}
            Err(breach) => return Err(breach),
        }
    }
    Ok(())
}
