// Points 4 and 5 of a step: carries end, and tanks are freed once their carriers are lifted out.
ghost use Rattle.std.specs.Prelude.{◌≡◌, ◌<◌};
ghost use Rattle.tick_machine.specs.Layout.{layout_of};
ghost use Rattle.tick_machine.specs.Scene.{scene_of, IsSized};
ghost use Rattle.tick_machine.specs.Points as points;
ghost use Rattle.tick_machine.specs.Step as steps;
ghost use Rattle.tick_machine.specs.Fits.{Fits};

use crate::frame::{Frame, Hold, Rest};
use crate::moves::length_of;
use hoist_base::Line;

/// Point 4 of hoist `h`: a carry that has lasted as long as its move ends, and its carrier rests.
fn set_down(line: &Line, h: u32, frame: &mut Frame)
    requires sized { IsSized line.now frame.old }
    requires fits { Fits (layout_of line.now) 2000 (scene_of frame.old) }
    requires hoist { h < line.now.hoists }
    ensures scene { scene_of frame.new ≡ points.set_down (layout_of line.now) h (scene_of frame.old) }
    ensures fits { Fits (layout_of line.now) 2000 (scene_of frame.new) }
    ensures sized { IsSized line.now frame.new }
    ensures next { frame.new.next ≡ frame.old.next }
{
    if let Some(c) = frame.carry[h as usize] {
        if c.elapsed == length_of(line, c) {
            frame.carry[h as usize] = None;
            frame.hold[c.to as usize] = Some(Hold {
                carrier: c.carrier,
                stage: c.step + 1,
                rest: Rest::Resting(0),
            });
        }
    }
}

/// Point 4 of all hoists, from the lowest.
pub(crate) fn set_down_all(line: &Line, frame: &mut Frame)
    requires sized { IsSized line.now frame.old }
    requires fits { Fits (layout_of line.now) 2000 (scene_of frame.old) }
    ensures scene { scene_of frame.new ≡ steps.each (points.set_down (layout_of line.now)) line.now.hoists
        (scene_of frame.old) }
    ensures fits { Fits (layout_of line.now) 2000 (scene_of frame.new) }
    ensures sized { IsSized line.now frame.new }
    ensures next { frame.new.next ≡ frame.old.next }
{
    let hoists = line.hoists();
    for h in 0..hoists {
        set_down(line, h, frame);
    }
}

/// Point 5 of hoist `h`: once its carrier is lifted out, the tank is free.
fn lift_out(line: &Line, h: u32, frame: &mut Frame)
    requires sized { IsSized line.now frame.old }
    requires fits { Fits (layout_of line.now) 2000 (scene_of frame.old) }
    requires hoist { h < line.now.hoists }
    ensures scene { scene_of frame.new ≡ points.lift_out (layout_of line.now) h (scene_of frame.old) }
    ensures fits { Fits (layout_of line.now) 2000 (scene_of frame.new) }
    ensures sized { IsSized line.now frame.new }
    ensures next { frame.new.next ≡ frame.old.next }
{
    if let Some(c) = frame.carry[h as usize] {
        if c.elapsed == line.stages()[c.step as usize].lift {
            frame.hold[c.from as usize] = None;
        }
    }
}

/// Point 5 of all hoists, from the lowest.
pub(crate) fn lift_out_all(line: &Line, frame: &mut Frame)
    requires sized { IsSized line.now frame.old }
    requires fits { Fits (layout_of line.now) 2000 (scene_of frame.old) }
    ensures scene { scene_of frame.new ≡ steps.each (points.lift_out (layout_of line.now)) line.now.hoists
        (scene_of frame.old) }
    ensures fits { Fits (layout_of line.now) 2000 (scene_of frame.new) }
    ensures sized { IsSized line.now frame.new }
    ensures next { frame.new.next ≡ frame.old.next }
{
    let hoists = line.hoists();
    for h in 0..hoists {
        lift_out(line, h, frame);
    }
}
