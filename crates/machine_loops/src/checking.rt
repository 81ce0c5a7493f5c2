// Whether frames are a loop by given orders.
ghost use Rattle.std.specs.Prelude.{◌≡◌, ℕ, ◌+◌, ◌^◌, ◌<◌, ◌≤◌, ◌↔◌, IsTrue, IfOk, All, length, get_or};
ghost use Rattle.std.specs.Option.{option_map};
ghost use Rattle.hoist_base.specs.Valid.{IsLine};
ghost use Rattle.tick_machine.specs.Layout.{layout_of};
ghost use Rattle.tick_machine.specs.Scene.{scene_of, IsSized, IsSizedOrder};
ghost use Rattle.tick_machine.specs.Rules.{IsBelow, KeepsRules};
ghost use Rattle.machine_loops.specs.Loops.{raised_carry, raised_hold, raised, frame_after, LeadsOn, IsFirstBreak};
ghost use Rattle.machine_loops.specs.Lists.{scenes, commands};
ghost use Rattle.machine_loops.specs.RuleTests.{CarryIsLater, HoldIsLater};

use crate::rules::keeps;
use hoist_base::Line;
use std::alloc::{AllocError, Global};
use tick_machine::{Carry, Frame, Hold, Order, empty, step};

/// Whether a carry is another one by a carrier whose number is greater by `later`.
fn is_later_carry(x: Carry, y: Carry, later: u64) -> bool
    ensures { IsTrue result ↔ (x ≡ raised_carry later y) }
{
    x.carrier.checked_sub(later) == Some(y.carrier)
        && x.step == y.step
        && x.elapsed == y.elapsed
        && x.from == y.from
        && x.to == y.to
}

fn is_later_carry_or_none(new: Option<Carry>, old: Option<Carry>, later: u64) -> bool
    ensures { IsTrue result ↔ (new ≡ option_map (raised_carry later) old) }
{
    match (new, old) {
        (Some(x), Some(y)) => is_later_carry(x, y, later),
        (None, None) => true,
        _ => false,
    }
}

fn is_later_hold(x: Hold, y: Hold, later: u64) -> bool
    ensures { IsTrue result ↔ (x ≡ raised_hold later y) }
{
    x.carrier.checked_sub(later) == Some(y.carrier) && x.stage == y.stage && x.rest == y.rest
}

fn is_later_hold_or_none(new: Option<Hold>, old: Option<Hold>, later: u64) -> bool
    ensures { IsTrue result ↔ (new ≡ option_map (raised_hold later) old) }
{
    match (new, old) {
        (Some(x), Some(y)) => is_later_hold(x, y, later),
        (None, None) => true,
        _ => false,
    }
}

fn is_later_carry_at(new: &Frame, old: &Frame, later: u64, h: usize) -> bool
    requires new { h < length new.now.carry.items }
    requires old { h < length old.now.carry.items }
    ensures { IsTrue result ↔ CarryIsLater later (scene_of new.now) (scene_of old.now) h }
{
    is_later_carry_or_none(new.carry[h], old.carry[h], later)
}

fn are_later_carries(new: &Frame, old: &Frame, later: u64) -> bool
    requires { length new.now.carry.items ≡ length old.now.carry.items }
    ensures { IsTrue result ↔ ((h : ℕ) → h < length new.now.carry.items
        → CarryIsLater later (scene_of new.now) (scene_of old.now) h) }
{
    for h in 0..new.carry.len() {
        if !is_later_carry_at(new, old, later, h) {
            return false;
        }
    }
    true
}

fn is_later_hold_at(new: &Frame, old: &Frame, later: u64, i: usize) -> bool
    requires new { i < length new.now.hold.items }
    requires old { i < length old.now.hold.items }
    ensures { IsTrue result ↔ HoldIsLater later (scene_of new.now) (scene_of old.now) i }
{
    is_later_hold_or_none(new.hold[i], old.hold[i], later)
}

fn are_later_holds(new: &Frame, old: &Frame, later: u64) -> bool
    requires { length new.now.hold.items ≡ length old.now.hold.items }
    ensures { IsTrue result ↔ ((i : ℕ) → i < length new.now.hold.items
        → HoldIsLater later (scene_of new.now) (scene_of old.now) i) }
{
    for i in 0..new.hold.len() {
        if !is_later_hold_at(new, old, later, i) {
            return false;
        }
    }
    true
}

fn are_same_places(new: &Frame, old: &Frame) -> bool
    ensures { IsTrue result ↔ (new.now.at.items ≡ old.now.at.items) }
{
    new.at.as_slice() == old.at.as_slice()
}

/// Whether a frame is another one with carriers whose numbers are greater by `later`.
fn is_later(line: &Line, new: &Frame, old: &Frame, later: u64) -> bool
    requires new { IsSized line.now new.now }
    requires old { IsSized line.now old.now }
    ensures { IsTrue result ↔ (scene_of new.now ≡ raised later (scene_of old.now)) }
{
    if new.next.checked_sub(later) != Some(old.next) {
        return false;
    }
    if !are_same_places(new, old) {
        return false;
    }
    if !are_later_carries(new, old, later) {
        return false;
    }
    are_later_holds(new, old, later)
}

/// Whether a frame is frame `i` with carriers whose numbers are greater by `later`.
fn is_later_than(line: &Line, new: &Frame, frames: &[Frame], i: usize, later: u64) -> bool
    requires frames { All (IsSized line.now) frames.now }
    requires there { i < length frames.now }
    requires new { IsSized line.now new.now }
    ensures { IsTrue result ↔ (scene_of new.now ≡ raised later (scenes frames.now i)) }
{
    is_later(line, new, &frames[i], later)
}

/// Whether a frame is the one that comes after frame `i`.
fn is_after(line: &Line, frames: &[Frame], i: usize, next: &Frame) -> bool
    requires frames { All (IsSized line.now) frames.now }
    requires there { i < length frames.now }
    requires next { IsSized line.now next.now }
    ensures { IsTrue result ↔ (scene_of next.now ≡ frame_after line.now (length frames.now) (scenes frames.now) i) }
{
    if i + 1 == frames.len() {
        is_later_than(line, next, frames, 0, u64::from(line.degree()))
    } else {
        is_later_than(line, next, frames, i + 1, 0)
    }
}

/// Whether order `i` leads from frame `i` to the frame after it; `next` is written over.
fn leads_on(line: &Line, frames: &[Frame], orders: &[Order], i: usize, next: &mut Frame) -> bool
    requires frames { All (IsSized line.now) frames.now }
    requires orders { All (IsSizedOrder line.now.hoists) orders.now }
    requires there { i < length frames.now }
    requires ordered { i < length orders.now }
    requires keeps { KeepsRules (layout_of line.now) (scenes frames.now i) }
    requires below { IsBelow (2 ^ 62) (scenes frames.now i) }
    requires next { IsSized line.now next.old }
    ensures leads { IsTrue result ↔ LeadsOn line.now (length frames.now) (scenes frames.now) i (commands orders.now i) }
    ensures sized { IsSized line.now next.new }
{
    match step(line, &frames[i], &orders[i], next) {
        Ok(()) => is_after(line, frames, i, next),
        Err(_) => false,
    }
}

/// The first frame whose order doesn't lead to the frame after it, where the first frame keeps the frame rules.
fn first_stray(line: &Line, frames: &[Frame], orders: &[Order], next: &mut Frame) -> Option<u32>
    requires frames { All (IsSized line.now) frames.now }
    requires orders { All (IsSizedOrder line.now.hoists) orders.now }
    requires count { length orders.now ≡ length frames.now }
    requires some { (1 ≤ length frames.now) × (length frames.now ≤ 20000) }
    requires keeps { KeepsRules (layout_of line.now) (scenes frames.now 0) }
    requires below { IsBelow (2 ^ 61) (scenes frames.now 0) }
    requires next { IsSized line.now next.old }
    requires valid { IsLine line.now }
    ensures { IsFirstBreak line.now (length frames.now) (scenes frames.now) (commands orders.now) result }
{
    for i in 0..frames.len() {
        if !leads_on(line, frames, orders, i, next) {
            return Some(i as u32);
        }
    }
    None
}

/// An empty frame with the hoists where this one has them.
fn cleared(alloc: Global, line: &Line, frame: &Frame) -> Result<Frame, AllocError>
    requires sized { IsSized line.now frame.now }
    requires rules { KeepsRules (layout_of line.now) (scene_of frame.now) }
    ensures { IfOk result (IsSized line.now) }
{
    empty(alloc, line, frame.at.as_slice())
}

fn keeps_first(line: &Line, frames: &[Frame]) -> bool
    requires frames { All (IsSized line.now) frames.now }
    requires some { 1 ≤ length frames.now }
    ensures rules { IsTrue result ↔ KeepsRules (layout_of line.now) (scenes frames.now 0) }
    ensures valid { IsLine line.now }
{
    keeps(line, &frames[0])
}

/// The first frame at which frames are no loop of the line by these orders: it breaks the frame rules, or its order
/// doesn't lead to the frame after it. The frame after the last one is the first one with next and all carrier numbers
/// raised by the degree. None comes exactly where they are such a loop.
pub(crate) fn first_break(
    alloc: Global,
    line: &Line,
    frames: &[Frame],
    orders: &[Order],
) -> Result<Option<u32>, AllocError>
    requires frames { All (IsSized line.now) frames.now }
    requires orders { All (IsSizedOrder line.now.hoists) orders.now }
    requires count { length orders.now ≡ length frames.now }
    requires some { (1 ≤ length frames.now) × (length frames.now ≤ 20000) }
    requires below { IsBelow (2 ^ 61) (scenes frames.now 0) }
    ensures { IfOk result (IsFirstBreak line.now (length frames.now) (scenes frames.now) (commands orders.now)) }
{
    if !keeps_first(line, frames) {
        return Ok(Some(0));
    }
    let mut next = cleared(alloc, line, &frames[0])?;
    Ok(first_stray(line, frames, orders, &mut next))
}
