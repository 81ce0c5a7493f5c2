// The frame rules as tests.
ghost use Rattle.std.specs.Prelude.{◌≡◌, ℕ, ◌+◌, ◌<◌, ◌≤◌, ◌↔◌, IsTrue, IfSome, true, None, Some, length, get_or};
ghost use Rattle.hoist_base.specs.LineData.{last_stage};
ghost use Rattle.hoist_base.specs.Valid.{IsLine};
ghost use Rattle.line_model.specs.Motion.{IsMotion};
ghost use Rattle.tick_machine.specs.declared.frame.Rest.TheVariants.{Lowering, Lifting};
ghost use Rattle.tick_machine.specs.Layout.{layout_of, move_between, move_place};
ghost use Rattle.tick_machine.specs.Scene.{scene_of, IsSized, hold_of};
ghost use Rattle.tick_machine.specs.Points.{length_of};
ghost use Rattle.tick_machine.specs.Rules.{AreApart, CarryRule, RestRule, HoldRule, IsFrame};
ghost use Rattle.machine_loops.specs.RuleTests.{CarryKeeps, HoldKeeps, Leaves, Comes, CarriesOnlyAt, RestsOnlyAt};
ghost use Rattle.machine_loops.specs.RuleTests.{CarriesNot, CarriesAlone, RestsAlone};

use hoist_base::Line;
use move_list::{Motion, duration, place};
use tick_machine::{Carry, Frame, Hold, Rest};

/// Whether a hoist is on the track, and the next one at least the gap above it.
fn is_apart(line: &Line, at: &[u32], h: usize) -> bool
    requires hoist { h < length at.now }
    ensures { IsTrue result
        ↔ ((get_or at.now h 0 ≤ line.now.track)
        × (h + 1 < length at.now → get_or at.now h 0 + line.now.gap ≤ get_or at.now (h + 1) 0)) }
{
    at[h] <= line.track() && (h + 1 >= at.len() || at[h] + line.gap() <= at[h + 1])
}

fn are_apart(line: &Line, frame: &Frame) -> bool
    requires { IsSized line.now frame.now }
    ensures { IsTrue result ↔ AreApart (layout_of line.now) (scene_of frame.now).at }
{
    let at = frame.at.as_slice();
    for h in 0..at.len() {
        if !is_apart(line, at, h) {
            return false;
        }
    }
    true
}

/// Whether a tank is one of a stage.
fn serves(line: &Line, tank: u32, stage: u32) -> bool
    requires { stage < length line.now.stages }
    ensures value { result ≡ (layout_of line.now).serves tank stage }
{
    line.stages()[stage as usize]
        .tanks
        .as_slice()
        .contains(&tank)
}

/// Whether a carry is by a move of the line.
#[tactic(auto, using(crate::proofs::RuleLemmas::served_there))]
fn is_move(line: &Line, y: Carry) -> bool
    ensures value { IsTrue result
        ↔ ((y.step < last_stage line.now) × ((layout_of line.now).serves y.from y.step ≡ true)
        × ((layout_of line.now).serves y.to (y.step + 1) ≡ true)) }
    ensures there { IsTrue result → (y.from < length line.now.tanks) × (y.to < length line.now.tanks) × (y.step ≤ 30) }
{
    y.step <= line.inner() && serves(line, y.from, y.step) && serves(line, y.to, y.step + 1)
}

fn motion_of(line: &Line, y: Carry) -> Motion
    requires step { y.step < last_stage line.now }
    requires from { y.from < length line.now.tanks }
    requires to { y.to < length line.now.tanks }
    ensures value { result ≡ move_between (layout_of line.now) y.step y.from y.to }
    ensures motion { IsMotion result }
{
    let stages = line.stages();
    let step = y.step as usize;
    Motion {
        from: line.at(y.from),
        to: line.at(y.to),
        lift: stages[step].lift,
        lower: stages[step + 1].lower,
    }
}

/// Whether a carry still lasts, and its hoist is where the move has it.
#[tactic(auto, unfolding(tick_machine::specs::Layout::move_ticks, tick_machine::specs::Layout::move_place))]
fn is_on_way(line: &Line, motion: Motion, y: Carry, at: u32) -> bool
    requires value { motion ≡ move_between (layout_of line.now) y.step y.from y.to }
    requires motion { IsMotion motion }
    ensures { IsTrue result
        ↔ ((y.elapsed < length_of (layout_of line.now) y)
        × (at ≡ move_place (layout_of line.now) y.step y.from y.to y.elapsed)) }
{
    y.elapsed < duration(motion) && at == place(motion, y.elapsed)
}

fn is_held(frame: &Frame, tank: u32, x: Hold) -> bool
    requires { tank < length frame.now.hold.items }
    ensures { IsTrue result ↔ (get_or frame.now.hold.items tank None ≡ Some x) }
{
    frame.hold[tank as usize] == Some(x)
}

/// Whether the tank that a carrier leaves is held by it exactly while it is lifted.
fn lifts_out(frame: &Frame, y: Carry, lift: u32) -> bool
    requires { y.from < length frame.now.hold.items }
    ensures { IsTrue result
        ↔ ((get_or frame.now.hold.items y.from None ≡ Some (hold_of y.carrier y.step Lifting)) ↔ (y.elapsed < lift)) }
{
    let lifted = Hold {
        carrier: y.carrier,
        stage: y.step,
        rest: Rest::Lifting,
    };
    is_held(frame, y.from, lifted) == (y.elapsed < lift)
}

/// Whether the tank to which a carrier comes is held by it exactly while it is lowered.
fn lowers_in(frame: &Frame, y: Carry, long: u32, lower: u32) -> bool
    requires tank { y.to < length frame.now.hold.items }
    requires step { y.step ≤ 30 }
    requires elapsed { y.elapsed < long }
    requires long { long ≤ 2000 }
    requires lower { lower ≤ 500 }
    ensures { IsTrue result
        ↔ ((get_or frame.now.hold.items y.to None ≡ Some (hold_of y.carrier (y.step + 1) Lowering))
        ↔ (long ≤ y.elapsed + lower)) }
{
    let lowered = Hold {
        carrier: y.carrier,
        stage: y.step + 1,
        rest: Rest::Lowering,
    };
    is_held(frame, y.to, lowered) == (long <= y.elapsed + lower)
}

/// Whether what hoist `h` carries is on the way of its move, and holds the tanks that it has to.
#[tactic(auto, unfolding(tick_machine::specs::Layout::move_ticks))]
fn carry_keeps(line: &Line, frame: &Frame, h: u32, y: Carry) -> bool
    requires sized { IsSized line.now frame.now }
    requires hoist { h < line.now.hoists }
    ensures { IsTrue result ↔ CarryRule (layout_of line.now) (scene_of frame.now) h y }
{
    if !is_move(line, y) || y.carrier >= frame.next {
        return false;
    }
    let motion = motion_of(line, y);
    is_on_way(line, motion, y, frame.at[h as usize])
        && lifts_out(frame, y, motion.lift)
        && lowers_in(frame, y, duration(motion), motion.lower)
}

fn carry_keeps_at(line: &Line, frame: &Frame, h: u32) -> bool
    requires sized { IsSized line.now frame.now }
    requires hoist { h < line.now.hoists }
    ensures { IsTrue result ↔ CarryKeeps (layout_of line.now) (scene_of frame.now) h }
{
    match frame.carry[h as usize] {
        Some(y) => carry_keeps(line, frame, h, y),
        None => true,
    }
}

fn carries_keep(line: &Line, frame: &Frame) -> bool
    requires sized { IsSized line.now frame.now }
    ensures { IsTrue result ↔ ((h : ℕ) → h < line.now.hoists → CarryKeeps (layout_of line.now) (scene_of frame.now) h) }
{
    for h in 0..line.hoists() {
        if !carry_keeps_at(line, frame, h) {
            return false;
        }
    }
    true
}

fn leaves(frame: &Frame, h: usize, tank: u32, carrier: u64, step: u32) -> bool
    requires { h < length frame.now.carry.items }
    ensures { IsTrue result ↔ Leaves (scene_of frame.now) tank carrier step h }
{
    match frame.carry[h] {
        Some(y) => y.carrier == carrier && y.step == step && y.from == tank,
        None => false,
    }
}

/// Whether a hoist carries a carrier by its move of a step out of a tank.
fn is_left(frame: &Frame, tank: u32, carrier: u64, step: u32) -> bool
    ensures { IsTrue result
        ↔ ((h : ℕ) × (h < length frame.now.carry.items) × Leaves (scene_of frame.now) tank carrier step h) }
{
    for h in 0..frame.carry.len() {
        if leaves(frame, h, tank, carrier, step) {
            return true;
        }
    }
    false
}

fn comes(frame: &Frame, h: usize, tank: u32, carrier: u64, stage: u32) -> bool
    requires { h < length frame.now.carry.items }
    ensures { IsTrue result ↔ Comes (scene_of frame.now) tank carrier stage h }
{
    match frame.carry[h] {
        Some(y) => {
            y.carrier == carrier && u64::from(y.step) + 1 == u64::from(stage) && y.to == tank
        }
        None => false,
    }
}

/// Whether a hoist carries a carrier to a stage, into a tank.
fn is_reached(frame: &Frame, tank: u32, carrier: u64, stage: u32) -> bool
    ensures { IsTrue result
        ↔ ((h : ℕ) × (h < length frame.now.carry.items) × Comes (scene_of frame.now) tank carrier stage h) }
{
    for h in 0..frame.carry.len() {
        if comes(frame, h, tank, carrier, stage) {
            return true;
        }
    }
    false
}

/// Whether a carrier rests no longer at a stage than it may.
fn is_young(line: &Line, stage: u32, age: u64) -> bool
    requires { stage < length line.now.stages }
    ensures { IsTrue result ↔ IfSome ((layout_of line.now).greatest stage) (λ m. age ≤ m) }
{
    match line.stages()[stage as usize].max {
        Some(greatest) => age <= u64::from(greatest),
        None => true,
    }
}

/// Whether who is lifted or lowered is carried, and who rests does so no longer than it may.
#[tactic(auto, using(crate::proofs::RuleLemmas::leaves_from, crate::proofs::RuleLemmas::leaves_to, crate::proofs::RuleLemmas::comes_from, crate::proofs::RuleLemmas::comes_to))]
fn rest_keeps(line: &Line, frame: &Frame, tank: u32, x: Hold) -> bool
    requires { x.stage < length line.now.stages }
    ensures { IsTrue result ↔ RestRule (layout_of line.now) (scene_of frame.now) tank x.carrier x.stage x.rest }
{
    match x.rest {
        Rest::Lowering => is_reached(frame, tank, x.carrier, x.stage),
        Rest::Resting(age) => is_young(line, x.stage, age),
        Rest::Lifting => is_left(frame, tank, x.carrier, x.stage),
    }
}

#[tactic(auto, using(crate::proofs::RuleLemmas::served_stage))]
fn hold_keeps(line: &Line, frame: &Frame, tank: u32, x: Hold) -> bool
    ensures { IsTrue result ↔ HoldRule (layout_of line.now) (scene_of frame.now) tank x }
{
    x.stage <= line.inner() + 1
        && serves(line, tank, x.stage)
        && x.carrier < frame.next
        && rest_keeps(line, frame, tank, x)
}

fn hold_keeps_at(line: &Line, frame: &Frame, tank: u32) -> bool
    requires { tank < length frame.now.hold.items }
    ensures { IsTrue result ↔ HoldKeeps (layout_of line.now) (scene_of frame.now) tank }
{
    match frame.hold[tank as usize] {
        Some(x) => hold_keeps(line, frame, tank, x),
        None => true,
    }
}

fn holds_keep(line: &Line, frame: &Frame) -> bool
    requires { IsSized line.now frame.now }
    ensures { IsTrue result
        ↔ ((i : ℕ) → i < length line.now.tanks → HoldKeeps (layout_of line.now) (scene_of frame.now) i) }
{
    for tank in 0..line.tanks().len() as u32 {
        if !hold_keeps_at(line, frame, tank) {
            return false;
        }
    }
    true
}

fn carries_only_at(frame: &Frame, carrier: u64, h: usize, j: usize) -> bool
    requires { j < length frame.now.carry.items }
    ensures { IsTrue result ↔ CarriesOnlyAt (scene_of frame.now) carrier h j }
{
    match frame.carry[j] {
        Some(y) => y.carrier != carrier || j == h,
        None => true,
    }
}

/// Whether no hoist but `h` carries a carrier.
fn no_other_carries(frame: &Frame, carrier: u64, h: usize) -> bool
    ensures { IsTrue result
        ↔ ((j : ℕ) → j < length frame.now.carry.items → CarriesOnlyAt (scene_of frame.now) carrier h j) }
{
    for j in 0..frame.carry.len() {
        if !carries_only_at(frame, carrier, h, j) {
            return false;
        }
    }
    true
}

fn carries_alone(frame: &Frame, h: usize) -> bool
    requires { h < length frame.now.carry.items }
    ensures { IsTrue result ↔ CarriesAlone (scene_of frame.now) (length frame.now.carry.items) h }
{
    match frame.carry[h] {
        Some(y) => no_other_carries(frame, y.carrier, h),
        None => true,
    }
}

/// Whether each carrier is carried by at most one hoist.
fn carry_alone(frame: &Frame) -> bool
    ensures { IsTrue result
        ↔ ((h : ℕ) → h < length frame.now.carry.items
        → CarriesAlone (scene_of frame.now) (length frame.now.carry.items) h) }
{
    for h in 0..frame.carry.len() {
        if !carries_alone(frame, h) {
            return false;
        }
    }
    true
}

fn rests_only_at(frame: &Frame, carrier: u64, i: usize, j: usize) -> bool
    requires { j < length frame.now.hold.items }
    ensures { IsTrue result ↔ RestsOnlyAt (scene_of frame.now) carrier i j }
{
    match frame.hold[j] {
        Some(
            Hold {
                carrier: other,
                rest: Rest::Resting(_),
                ..
            },
        ) => other != carrier || j == i,
        _ => true,
    }
}

/// Whether a carrier rests in no tank but `i`.
fn no_other_rests(frame: &Frame, carrier: u64, i: usize) -> bool
    ensures { IsTrue result
        ↔ ((j : ℕ) → j < length frame.now.hold.items → RestsOnlyAt (scene_of frame.now) carrier i j) }
{
    for j in 0..frame.hold.len() {
        if !rests_only_at(frame, carrier, i, j) {
            return false;
        }
    }
    true
}

fn carries_not(frame: &Frame, carrier: u64, j: usize) -> bool
    requires { j < length frame.now.carry.items }
    ensures { IsTrue result ↔ CarriesNot (scene_of frame.now) carrier j }
{
    match frame.carry[j] {
        Some(y) => y.carrier != carrier,
        None => true,
    }
}

/// Whether no hoist carries a carrier.
fn none_carries(frame: &Frame, carrier: u64) -> bool
    ensures { IsTrue result ↔ ((j : ℕ) → j < length frame.now.carry.items → CarriesNot (scene_of frame.now) carrier j) }
{
    for j in 0..frame.carry.len() {
        if !carries_not(frame, carrier, j) {
            return false;
        }
    }
    true
}

fn rests_alone(frame: &Frame, i: usize) -> bool
    requires { i < length frame.now.hold.items }
    ensures { IsTrue result
        ↔ RestsAlone (scene_of frame.now) (length frame.now.carry.items) (length frame.now.hold.items) i }
{
    match frame.hold[i] {
        Some(
            Hold {
                carrier,
                rest: Rest::Resting(_),
                ..
            },
        ) => no_other_rests(frame, carrier, i) && none_carries(frame, carrier),
        _ => true,
    }
}

/// Whether each carrier rests in at most one tank, and isn't carried then.
fn rest_alone(frame: &Frame) -> bool
    ensures { IsTrue result
        ↔ ((i : ℕ) → i < length frame.now.hold.items
        → RestsAlone (scene_of frame.now) (length frame.now.carry.items) (length frame.now.hold.items) i) }
{
    for i in 0..frame.hold.len() {
        if !rests_alone(frame, i) {
            return false;
        }
    }
    true
}

#[tactic(auto, using(crate::proofs::RuleLemmas::frame_from, crate::proofs::RuleLemmas::frame_to))]
/// Whether a frame is one of the line: its lists have one entry for each hoist or tank, and it keeps the frame rules.
///
/// It takes any frame, and no memory.
pub fn keeps(line: &Line, frame: &Frame) -> bool
    ensures rules { IsTrue result ↔ IsFrame line.now frame.now }
    ensures valid { IsLine line.now }
{
    if !frame.is_sized(line) {
        return false;
    }
    if !are_apart(line, frame) {
        return false;
    }
    if !carries_keep(line, frame) {
        return false;
    }
    if !holds_keep(line, frame) {
        return false;
    }
    if !carry_alone(frame) {
        return false;
    }
    rest_alone(frame)
}
