// Points 6 and 7 of a step: a carrier is taken off, and the next one put on.
ghost use Rattle.std.specs.Prelude.{◌≡◌, ◌<◌, ◌+◌, ◌^◌, IfOk, OnOk};
ghost use Rattle.std.specs.Option.{option_map};
ghost use Rattle.tick_machine.specs.declared.event.What.TheVariants as events;
ghost use Rattle.tick_machine.specs.Layout.{layout_of};
ghost use Rattle.tick_machine.specs.Scene.{scene_of, command_of, IsSized};
ghost use Rattle.tick_machine.specs.Points as points;
ghost use Rattle.tick_machine.specs.Events.{off_of};
ghost use Rattle.tick_machine.specs.Fits.{Fits, error_of};

use crate::breach::Breach;
use crate::frame::{Frame, Hold, Rest};
use crate::moves::{least, load_tank, unload_tank};
use crate::order::Order;
use hoist_base::Line;

/// Point 6, where an off is ordered: the unload's carrier, which rests there for long enough.
fn leaving(line: &Line, held: Option<Hold>) -> Result<u64, Breach>
    ensures breach { error_of result ≡ points.no_off_by (layout_of line.now) held }
    ensures who { IfOk result (λ who. option_map (λ x. x.carrier) held ≡ Some who) }
{
    let tank = unload_tank(line);
    let last = line.inner() + 1;
    let Some(hold) = held else {
        return Err(Breach::NoCarrier { tank });
    };
    match hold.rest {
        Rest::Resting(age) if hold.stage == last => {
            let bound = u64::from(least(line, last));
            if age < bound {
                return Err(Breach::Early {
                    carrier: hold.carrier,
                    stage: hold.stage,
                    age,
                    bound,
                });
            }
            Ok(hold.carrier)
        }
        _ => Err(Breach::NoCarrier { tank }),
    }
}

/// Point 6: takes the carrier in the unload off where that is ordered, and answers which one it is.
pub(crate) fn take_off(line: &Line, order: &Order, frame: &mut Frame) -> Result<Option<u64>, Breach>
    requires sized { IsSized line.now frame.old }
    requires fits { Fits (layout_of line.now) 2000 (scene_of frame.old) }
    ensures breach { error_of result ≡ points.no_off (layout_of line.now) (command_of order.now) (scene_of frame.old) }
    ensures scene { OnOk result (scene_of frame.new
        ≡ points.taken_off (layout_of line.now) (command_of order.now) (scene_of frame.old)) }
    ensures who { IfOk result (λ who. off_of order.now.off ((scene_of frame.old).hold (layout_of line.now).unload_tank)
        ≡ option_map events.Off who) }
    ensures fits { Fits (layout_of line.now) 2000 (scene_of frame.new) }
    ensures sized { IsSized line.now frame.new }
    ensures next { frame.new.next ≡ frame.old.next }
{
    if !order.off {
        return Ok(None);
    }
    let tank = unload_tank(line) as usize;
    match leaving(line, frame.hold[tank]) {
        Ok(who) => {
            frame.hold[tank] = None;
            Ok(Some(who))
        }
        Err(breach) => Err(breach),
    }
}

/// Point 7: puts the next carrier on the load where that is ordered.
pub(crate) fn put_on(line: &Line, order: &Order, frame: &mut Frame) -> Result<(), Breach>
    requires sized { IsSized line.now frame.old }
    requires fits { Fits (layout_of line.now) 2000 (scene_of frame.old) }
    requires next { frame.old.next < 2 ^ 62 }
    ensures breach { error_of result ≡ points.no_put (layout_of line.now) (command_of order.now) (scene_of frame.old) }
    ensures scene { OnOk result (scene_of frame.new
        ≡ points.put_on (layout_of line.now) (command_of order.now) (scene_of frame.old)) }
    ensures fits { Fits (layout_of line.now) 2000 (scene_of frame.new) }
    ensures sized { IsSized line.now frame.new }
{
    if order.put {
        let tank = load_tank(line);
        if let Some(hold) = frame.hold[tank as usize] {
            return Err(Breach::Held {
                tank,
                carrier: hold.carrier,
            });
        }
        frame.hold[tank as usize] = Some(Hold {
            carrier: frame.next,
            stage: 0,
            rest: Rest::Resting(0),
        });
        frame.next += 1;
    }
    Ok(())
}
