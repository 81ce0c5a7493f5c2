// What is reckoned once for a line.
ghost use Rattle.std.specs.Prelude.{◌≡◌, ℕ, ◌*◌, ◌≤◌, ◌<◌, List, length, get_or, IfOk, OnOk};
ghost use Rattle.hoist_base.specs.LineData.{IsStep, IsStageOf};
ghost use Rattle.hoist_base.specs.Valid.{IsLine};
ghost use Rattle.line_model.specs.Motion.{IsMotion};
ghost use Rattle.longest_path.specs.Bounds.{IsPeriod};
ghost use Rattle.longest_path.specs.System.{Solves};
ghost use Rattle.path_constraints.specs.Questions.{FitsPath};
ghost use Rattle.path_constraints.specs.Places.{system_below};
ghost use Rattle.path_constraints.specs.Ticks.{AreTicks, tick_at};
ghost use Rattle.period_constraints.specs.Order.{IsFirstQuestion};
ghost use Rattle.period_constraints.specs.Lookups.{AreRides, AreSpans, IsLookupOf};

use crate::asking::{Room, ask};
use crate::starts::Table;
use choice_tree::{Decision, Question};
use collision_pairs::{Span, clash};
use hoist_base::Line;
use move_list::{Motion, reaches};
use path_constraints::{Ride, motion_between};
use std::alloc::{AllocError, Global};
use std::marker::Model;

/// The rides of a line's steps and the clash of each with each, reckoned once.
///
/// It holds at most 256 rides; the clashes of others are reckoned where they are asked for. It has room for what a
/// question is sought by, so that each question is found without taking memory.
#[derive(Drop)]
pub struct Lookup {
    rides: Vec<Ride>,
    firsts: Vec<u32>,
    spans: Vec<Option<Span>>,
    room: Room,
}

impl Model for Lookup {
    ghost use Rattle.period_constraints.specs.Lookups.{LookupData};

    ghost Value = { LookupData };

    ghost view = { λ a. record { rides = a.rides.items; spans = a.spans.items } };
}

// Adds the rides of a motion: one for each hoist that reaches it, the lowest first, as far as there is room.
fn push_rides(rides: &mut Vec<Ride>, line: &Line, motion: Motion) -> Result<(), AllocError>
    requires motion { IsMotion motion }
    requires rides { AreRides line.now rides.old.items }
    ensures { OnOk result (AreRides line.now rides.new.items) }
{
    for hoist in 0..line.hoists() {
        if rides.len() < 256 && reaches(line, hoist, motion) {
            rides.push(Ride { motion, hoist })?;
        }
    }
    Ok(())
}

// The tanks of a stage.
fn tanks_of<'a>(line: &'a Line, stage: u32) -> &'a [u32]
    requires { IsStageOf line.now stage }
    ensures few { (1 ≤ length result.now) × (length result.now ≤ 4) }
    ensures there { (i : ℕ) → i < length result.now → get_or result.now i 0 < length line.now.tanks }
    ensures valid { IsLine line.now }
{
    line.stages()[stage as usize].tanks.as_slice()
}

// Adds the rides of a step: those between each tank before it and each after it.
fn push_step(rides: &mut Vec<Ride>, line: &Line, step: u32) -> Result<(), AllocError>
    requires step { IsStep line.now step }
    requires rides { AreRides line.now rides.old.items }
    ensures { OnOk result (AreRides line.now rides.new.items) }
{
    let from = tanks_of(line, step);
    let to = tanks_of(line, step + 1);
    for pair in 0..from.len() * to.len() {
        let motion = motion_between(line, step, from[pair / to.len()], to[pair % to.len()]);
        push_rides(rides, line, motion)?;
    }
    Ok(())
}

// Adds the clash of each ride with each, row by row.
fn push_spans(spans: &mut Vec<Option<Span>>, line: &Line, rides: &[Ride]) -> Result<(), AllocError>
    requires rides { AreRides line.now rides.now }
    requires none { length spans.old.items ≡ 0 }
    ensures count { OnOk result (length spans.new.items ≡ length rides.now * length rides.now) }
    ensures spans { OnOk result (AreSpans line.now rides.now spans.new.items) }
{
    let count = rides.len();
    for place in 0..count * count {
        let a = rides[place / count];
        let b = rides[place % count];
        spans.push(clash(line, a.motion, a.hoist, b.motion, b.hoist))?;
    }
    Ok(())
}

impl Lookup {
    /// The look-up of a line.
    pub fn new(alloc: Global, line: &Line) -> Result<Lookup, AllocError>
        ensures { IfOk result (λ x. IsLookupOf line.now x) }
    {
        let mut rides = Vec::new(alloc);
        let mut firsts = Vec::new(alloc);
        for step in 0..line.inner() + 1 {
            firsts.push(rides.len() as u32)?;
            push_step(&mut rides, line, step)?;
        }
        let mut spans = Vec::new(alloc);
        push_spans(&mut spans, line, rides.as_slice())?;
        Ok(Lookup {
            rides,
            firsts,
            spans,
            room: Room::new(),
        })
    }

    /// The first question that is to be asked below the path, as `first_question` answers it. It takes no memory.
    pub fn first_question(
        &mut self,
        line: &Line,
        path: &[Decision],
        ticks: &[i64],
        period: u32,
    ) -> Option<Question>
        requires line { IsLookupOf line.now self.old }
        requires fits { FitsPath line.now path.now }
        requires period { IsPeriod period }
        requires ticks { AreTicks line.now ticks.now }
        requires solves { Solves (system_below line.now path.now) period (tick_at ticks.now) }
        ensures same { self.new ≡ self.old }
        ensures first { IsFirstQuestion line.now path.now (tick_at ticks.now) period result }
    {
        let table = Table {
            rides: self.rides.as_slice(),
            firsts: self.firsts.as_slice(),
            spans: self.spans.as_slice(),
        };
        ask(line, table, path, ticks, period, &mut self.room)
    }
}
