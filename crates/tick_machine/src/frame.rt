// Frames: the state of the line at one tick.
ghost use Rattle.std.specs.Prelude.{◌≡◌, ◌↔◌, IfOk, IsTrue, length, get_or};
ghost use Rattle.hoist_base.specs.Valid.{IsLine};
ghost use Rattle.tick_machine.specs.Layout.{layout_of};
ghost use Rattle.tick_machine.specs.Scene.{scene_of, IsSized};
ghost use Rattle.tick_machine.specs.Rules.{AreApart, IsFrame};
ghost use Rattle.tick_machine.specs.Play.{empty_scene};

use hoist_base::Line;
use std::alloc::{AllocError, Global};

/// What a hoist carries: `carrier`, by its move of step `step` from the tank `from` to the tank `to`, numbers both.
///
/// The move began `elapsed` ticks ago.
#[derive(Clone, Copy, Debug, PartialEq, Eq)]
pub struct Carry {
    pub carrier: u64,
    pub step: u32,
    pub elapsed: u32,
    pub from: u32,
    pub to: u32,
}

/// How a carrier holds a tank: it is being lowered, rests for so many ticks, or is being lifted out.
#[derive(Clone, Copy, Debug, PartialEq, Eq)]
pub enum Rest {
    Lowering,
    Resting(u64),
    Lifting,
}

/// What a tank holds: `carrier`, by its visit of stage `stage`.
#[derive(Clone, Copy, Debug, PartialEq, Eq)]
pub struct Hold {
    pub carrier: u64,
    pub stage: u32,
    pub rest: Rest,
}

/// The state of a line at one tick, after the events of that tick.
///
/// `at` has the position of each hoist, `carry` what it carries, `hold` what each tank holds, and
/// `next` is the number of the carrier that is put on next.
#[derive(Debug, Drop)]
pub struct Frame {
    pub at: Vec<u32>,
    pub carry: Vec<Option<Carry>>,
    pub hold: Vec<Option<Hold>>,
    pub next: u64,
}

impl Frame {
    /// Whether the frame has a place for each hoist and each tank of the line, and no other.
    pub fn is_sized(&self, line: &Line) -> bool
        ensures value { IsTrue result ↔ IsSized line.now self.now }
        ensures valid { IsLine line.now }
    {
        let hoists = line.hoists() as usize;
        self.at.len() == hoists
            && self.carry.len() == hoists
            && self.hold.len() == line.tanks().len()
    }
}

/// The frame with the hoists at these positions, where nothing is carried or held and carrier 0 is the next.
pub fn empty(alloc: Global, line: &Line, at: &[u32]) -> Result<Frame, AllocError>
    requires count { length at.now ≡ line.now.hoists }
    requires apart { AreApart (layout_of line.now) (λ h. get_or at.now h 0) }
    ensures scene { IfOk result (λ frame. scene_of frame ≡ empty_scene (layout_of line.now) (λ h. get_or at.now h 0)) }
    ensures frame { IfOk result (IsFrame line.now) }
{
    let hoists = line.hoists() as usize;
    let positions = Vec::from_slice(alloc, at)?;
    let mut carry = Vec::new(alloc);
    carry.resize(hoists, None)?;
    let mut hold = Vec::new(alloc);
    hold.resize(line.tanks().len(), None)?;
    let frame = Frame {
        at: positions,
        carry,
        hold,
        next: 0,
    };
    Ok(frame)
}
