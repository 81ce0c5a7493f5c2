// Points 1 to 3 of a step: which motions may be made, and the passing of a tick.
ghost use Rattle.std.specs.Prelude.{◌≡◌, ℕ, ◌+◌, ◌-◌, ◌<◌, ◌≤◌, ◌^◌, None, get_or, length, IfSome};
ghost use Rattle.std.specs.Option.{option_map};
ghost use Rattle.hoist_base.specs.Valid.{IsLine};
ghost use Rattle.tick_machine.specs.declared.order.Go.TheVariants.{Stay};
ghost use Rattle.tick_machine.specs.Layout.{layout_of};
ghost use Rattle.tick_machine.specs.Scene.{scene_of, command_of, IsSized, IsSizedOrder};
ghost use Rattle.tick_machine.specs.Points as points;
ghost use Rattle.tick_machine.specs.Step as steps;
ghost use Rattle.tick_machine.specs.Rules.{IsBelow, RestBelow, KeepsRules};
ghost use Rattle.tick_machine.specs.Fits.{Fits, CarryFits};

use crate::breach::Breach;
use crate::frame::{Carry, Frame, Hold, Rest};
use crate::moves::{length_of, place_of};
use crate::order::{Go, Order};
use hoist_base::Line;

/// Point 1 of hoist `h` with the carry `c`: it stays, and begins only where its carry ends at this tick.
fn busy(line: &Line, h: u32, c: Carry, go: Go, begin: Option<u32>) -> Option<Breach>
    requires { CarryFits (layout_of line.now) 1999 c }
    ensures { result ≡ points.busy_carry (layout_of line.now) h (Some c) go begin }
{
    let ends = c.elapsed + 1 == length_of(line, c);
    match (go, begin) {
        (Go::Stay, None) => None,
        (Go::Stay, Some(_)) if ends => None,
        _ => Some(Breach::Busy { hoist: h }),
    }
}

#[tactic(auto, using(crate::proofs::Passes::first_at, crate::proofs::Fitting::line_fits))]
/// Point 1 of all hoists, from the lowest.
pub(crate) fn first_busy(line: &Line, order: &Order, frame: &Frame) -> Option<Breach>
    requires sized { IsSized line.now frame.now }
    requires order { IsSizedOrder line.now.hoists order.now }
    requires rules { KeepsRules (layout_of line.now) (scene_of frame.now) }
    ensures fits { Fits (layout_of line.now) 1999 (scene_of frame.now) }
    ensures valid { IsLine line.now }
    ensures breach { result ≡ steps.first line.now.hoists
        (points.busy (layout_of line.now) (command_of order.now) (scene_of frame.now)) }
{
    let hoists = line.hoists();
    for h in 0..hoists {
        if let Some(c) = frame.carry[h as usize] {
            let found = busy(line, h, c, order.go[h as usize], order.begin[h as usize]);
            if found.is_some() {
                return found;
            }
        }
    }
    None
}

/// Point 2 of hoist `h`, which stands at `at` and carries nothing: it stays on the track.
fn edge(line: &Line, h: u32, go: Go, at: u32) -> Option<Breach>
    ensures { result ≡ points.edge_by (layout_of line.now) h None go at }
{
    let leaves = match go {
        Go::Stay => false,
        Go::Low => at == 0,
        Go::High => at >= line.track(),
    };
    if leaves {
        Some(Breach::Edge { hoist: h, at })
    } else {
        None
    }
}

#[tactic(auto, using(crate::proofs::Passes::first_at))]
/// Point 2 of all hoists, from the lowest.
pub(crate) fn first_edge(line: &Line, order: &Order, frame: &Frame) -> Option<Breach>
    requires sized { IsSized line.now frame.now }
    requires order { IsSizedOrder line.now.hoists order.now }
    ensures { result ≡ steps.first line.now.hoists
        (points.edge (layout_of line.now) (command_of order.now) (scene_of frame.now)) }
{
    let hoists = line.hoists();
    for h in 0..hoists {
        if frame.carry[h as usize].is_none() {
            let found = edge(line, h, order.go[h as usize], frame.at[h as usize]);
            if found.is_some() {
                return found;
            }
        }
    }
    None
}

/// Where a hoist at `at` is one tick later: on the way of its move, or where its order sends it.
fn next_place(line: &Line, carry: Option<Carry>, go: Go, at: u32) -> u32
    requires carry { IfSome carry (CarryFits (layout_of line.now) 1999) }
    requires at { at ≤ 1000 }
    ensures { result ≡ points.moved_to (layout_of line.now) carry go at }
{
    match (carry, go) {
        (Some(c), _) => place_of(line, c, c.elapsed + 1),
        (None, Go::Stay) => at,
        (None, Go::Low) => at.saturating_sub(1),
        (None, Go::High) => at + 1,
    }
}

/// A carry, one tick later.
fn grown(carry: Option<Carry>) -> Option<Carry>
    requires { IfSome carry (λ c. c.elapsed ≤ 1999) }
    ensures { result ≡ option_map points.grown carry }
{
    match carry {
        Some(c) => Some(Carry {
            elapsed: c.elapsed + 1,
            ..c
        }),
        None => None,
    }
}

/// Writes the positions and carries of `old` after one tick over those of `new`.
pub(crate) fn move_hoists(line: &Line, order: &Order, old: &Frame, new: &mut Frame)
    requires order { IsSizedOrder line.now.hoists order.now }
    requires old { IsSized line.now old.now }
    requires new { IsSized line.now new.old }
    requires fits { Fits (layout_of line.now) 1999 (scene_of old.now) }
    ensures at { (h : ℕ) → h < line.now.hoists
        → get_or new.new.at.items h 0 ≡ points.moved_to (layout_of line.now) (get_or old.now.carry.items h None)
        (get_or order.now.go.items h Stay) (get_or old.now.at.items h 0) }
    ensures carry { (h : ℕ) → h < line.now.hoists
        → get_or new.new.carry.items h None ≡ option_map points.grown (get_or old.now.carry.items h None) }
    ensures hold { new.new.hold.items ≡ new.old.hold.items }
    ensures sized { IsSized line.now new.new }
    ensures valid { IsLine line.now }
{
    let hoists = line.hoists();
    for h in 0..hoists {
        let i = h as usize;
        let carry = old.carry[i];
        new.at[i] = next_place(line, carry, order.go[i], old.at[i]);
        new.carry[i] = grown(carry);
    }
}

/// What a tank holds, one tick later.
fn aged(hold: Hold) -> Hold
    requires { RestBelow (2 ^ 62) hold.rest }
    ensures { result ≡ points.aged_hold hold }
{
    let rest = match hold.rest {
        Rest::Resting(age) => Rest::Resting(age + 1),
        other => other,
    };
    Hold { rest, ..hold }
}

/// Writes the holds of `old` after one tick over those of `new`.
pub(crate) fn age_holds(line: &Line, old: &Frame, new: &mut Frame)
    requires old { IsSized line.now old.now }
    requires new { IsSized line.now new.old }
    requires below { IsBelow (2 ^ 62) (scene_of old.now) }
    ensures hold { (i : ℕ) → i < length line.now.tanks
        → get_or new.new.hold.items i None ≡ option_map points.aged_hold (get_or old.now.hold.items i None) }
    ensures at { new.new.at.items ≡ new.old.at.items }
    ensures carry { new.new.carry.items ≡ new.old.carry.items }
    ensures sized { IsSized line.now new.new }
{
    let tanks = line.tanks().len();
    for i in 0..tanks {
        new.hold[i] = match old.hold[i] {
            Some(hold) => Some(aged(hold)),
            None => None,
        };
    }
}

/// Points 2 and 3: writes the frame `old`, one tick later, over `new`.
pub(crate) fn pass_tick(line: &Line, order: &Order, old: &Frame, new: &mut Frame)
    requires order { IsSizedOrder line.now.hoists order.now }
    requires old { IsSized line.now old.now }
    requires new { IsSized line.now new.old }
    requires fits { Fits (layout_of line.now) 1999 (scene_of old.now) }
    requires below { IsBelow (2 ^ 62) (scene_of old.now) }
    requires edges { steps.first line.now.hoists
        (points.edge (layout_of line.now) (command_of order.now) (scene_of old.now)) ≡ None }
    ensures scene { scene_of new.new ≡ steps.after_tick (layout_of line.now) (command_of order.now) (scene_of old.now) }
    ensures fits { Fits (layout_of line.now) 2000 (scene_of new.new) }
    ensures sized { IsSized line.now new.new }
    ensures next { new.new.next ≡ old.now.next }
{
    move_hoists(line, order, old, new);
    age_holds(line, old, new);
    new.next = old.next;
}
