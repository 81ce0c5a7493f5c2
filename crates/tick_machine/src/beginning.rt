// Point 9 of a step: hoists begin their moves.
ghost use Rattle.std.specs.Prelude.{◌≡◌, ◌<◌, OnOk, IfOk, IfSome, length};
ghost use Rattle.hoist_base.specs.Valid.{IsLine};
ghost use Rattle.tick_machine.specs.Layout.{layout_of};
ghost use Rattle.tick_machine.specs.Scene.{scene_of, command_of, IsSized, IsSizedOrder};
ghost use Rattle.tick_machine.specs.Points as points;
ghost use Rattle.tick_machine.specs.Step as steps;
ghost use Rattle.tick_machine.specs.Fits.{Fits, CarryFits, HoldFits, error_of};

use crate::breach::Breach;
use crate::frame::{Carry, Frame, Hold, Rest};
use crate::moves::least;
use crate::order::Order;
use hoist_base::Line;

/// The tank at a position, if there is one.
#[tactic(auto, using(crate::proofs::Tanks::tank_at_is, crate::proofs::Tanks::no_tank_next, crate::proofs::Lines::layout_is))]
fn tank_at(line: &Line, at: u32) -> Option<u32>
    ensures value { result ≡ points.tank_among (layout_of line.now) at (length line.now.tanks) }
    ensures there { IfSome result (λ i. i < length line.now.tanks) }
{
    let tanks = line.tanks().len() as u32;
    for i in 0..tanks {
        if line.at(i) == at {
            return Some(i);
        }
    }
    None
}

/// Whether a tank is one of a stage.
fn serves(line: &Line, tank: u32, stage: u32) -> bool
    requires { stage < length line.now.stages }
    ensures value { result ≡ (layout_of line.now).serves tank stage }
    ensures valid { IsLine line.now }
{
    line.stages()[stage as usize]
        .tanks
        .as_slice()
        .contains(&tank)
}

/// The carry of what the tank `from`, at the position `at`, holds, to the tank `to`; or why hoist `h` can't begin it.
fn leave(
    line: &Line,
    h: u32,
    at: u32,
    from: u32,
    to: u32,
    held: Option<Hold>,
) -> Result<Carry, Breach>
    requires held { IfSome held (HoldFits (layout_of line.now)) }
    requires from { from < length line.now.tanks }
    ensures value { result ≡ points.begin_hold (layout_of line.now) h at from to held }
    ensures fits { IfOk result (CarryFits (layout_of line.now) 2000) }
{
    let Some(hold) = held else {
        return Err(Breach::NotThere { hoist: h, at });
    };
    let Rest::Resting(age) = hold.rest else {
        return Err(Breach::NotThere { hoist: h, at });
    };
    if hold.stage > line.inner() {
        return Err(Breach::NoMove {
            carrier: hold.carrier,
            stage: hold.stage,
        });
    }
    if !serves(line, to, hold.stage + 1) {
        return Err(Breach::NoWay { hoist: h, tank: to });
    }
    let bound = u64::from(least(line, hold.stage));
    if age < bound {
        return Err(Breach::Early {
            carrier: hold.carrier,
            stage: hold.stage,
            age,
            bound,
        });
    }
    Ok(Carry {
        carrier: hold.carrier,
        step: hold.stage,
        elapsed: 0,
        from,
        to,
    })
}

/// The carry that hoist `h` begins towards the tank `to`, or why it can't.
fn begun(line: &Line, h: u32, to: u32, frame: &Frame) -> Result<Carry, Breach>
    requires sized { IsSized line.now frame.now }
    requires fits { Fits (layout_of line.now) 2000 (scene_of frame.now) }
    requires hoist { h < line.now.hoists }
    ensures value { result ≡ points.begun (layout_of line.now) h to (scene_of frame.now) }
    ensures fits { IfOk result (CarryFits (layout_of line.now) 2000) }
{
    let at = frame.at[h as usize];
    let Some(from) = tank_at(line, at) else {
        return Err(Breach::NotThere { hoist: h, at });
    };
    leave(line, h, at, from, to, frame.hold[from as usize])
}

/// Hoist `h` carries `c`, which is lifted out of its tank from now on.
fn start(line: &Line, h: u32, c: Carry, frame: &mut Frame)
    requires sized { IsSized line.now frame.old }
    requires fits { Fits (layout_of line.now) 2000 (scene_of frame.old) }
    requires hoist { h < line.now.hoists }
    requires carry { CarryFits (layout_of line.now) 2000 c }
    ensures scene { scene_of frame.new ≡ points.carrying h (Ok c) (scene_of frame.old) }
    ensures fits { Fits (layout_of line.now) 2000 (scene_of frame.new) }
    ensures sized { IsSized line.now frame.new }
{
    frame.carry[h as usize] = Some(c);
    frame.hold[c.from as usize] = Some(Hold {
        carrier: c.carrier,
        stage: c.step,
        rest: Rest::Lifting,
    });
}

/// Point 9 of hoist `h`, where it is ordered to begin towards the tank `to`.
fn begin_to(line: &Line, h: u32, to: u32, frame: &mut Frame) -> Result<(), Breach>
    requires sized { IsSized line.now frame.old }
    requires fits { Fits (layout_of line.now) 2000 (scene_of frame.old) }
    requires hoist { h < line.now.hoists }
    ensures breach { error_of result ≡ points.no_begin_by (layout_of line.now) h (Some to) (scene_of frame.old) }
    ensures scene { OnOk result (scene_of frame.new
        ≡ points.begin_by (layout_of line.now) h (Some to) (scene_of frame.old)) }
    ensures fits { Fits (layout_of line.now) 2000 (scene_of frame.new) }
    ensures sized { IsSized line.now frame.new }
{
    match begun(line, h, to, frame) {
        Ok(c) => {
            start(line, h, c, frame);
            Ok(())
        }
        Err(breach) => Err(breach),
    }
}

/// Point 9 of hoist `h`: where a begin is ordered, it carries the carrier that rests where it stands.
fn begin_move(line: &Line, order: &Order, h: u32, frame: &mut Frame) -> Result<(), Breach>
    requires sized { IsSized line.now frame.old }
    requires order { IsSizedOrder line.now.hoists order.now }
    requires fits { Fits (layout_of line.now) 2000 (scene_of frame.old) }
    requires hoist { h < line.now.hoists }
    ensures breach { error_of result ≡ points.no_begin (layout_of line.now) (command_of order.now) h
        (scene_of frame.old) }
    ensures scene { OnOk result (scene_of frame.new
        ≡ points.begin_move (layout_of line.now) (command_of order.now) h (scene_of frame.old)) }
    ensures fits { Fits (layout_of line.now) 2000 (scene_of frame.new) }
    ensures sized { IsSized line.now frame.new }
{
    match order.begin[h as usize] {
        Some(to) => begin_to(line, h, to, frame),
        None => Ok(()),
    }
}

/// Point 9 of all hoists, from the lowest, up to the first breach.
pub(crate) fn begin_all(line: &Line, order: &Order, frame: &mut Frame) -> Result<(), Breach>
    requires sized { IsSized line.now frame.old }
    requires order { IsSizedOrder line.now.hoists order.now }
    requires fits { Fits (layout_of line.now) 2000 (scene_of frame.old) }
    ensures breach { error_of result ≡ steps.first line.now.hoists
        (λ h. points.no_begin (layout_of line.now) (command_of order.now) h
        (steps.each (points.begin_move (layout_of line.now) (command_of order.now)) h (scene_of frame.old))) }
    ensures scene { OnOk result (scene_of frame.new
        ≡ steps.each (points.begin_move (layout_of line.now) (command_of order.now)) line.now.hoists
        (scene_of frame.old)) }
    ensures fits { Fits (layout_of line.now) 2000 (scene_of frame.new) }
    ensures sized { IsSized line.now frame.new }
{
    let hoists = line.hoists();
    for h in 0..hoists {
        match begin_move(line, order, h, frame) {
            Ok(()) => {}
            Err(breach) => return Err(breach),
        }
    }
    Ok(())
}
