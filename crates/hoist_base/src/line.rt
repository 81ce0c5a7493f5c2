// Valid lines.
ghost use Rattle.std.specs.Prelude.{◌≡◌, ◌+◌, ◌<◌, ◌≤◌, ◌↔◌, length, IsTrue, IfOk};
ghost use Rattle.hoist_base.specs.LineData.{last_step, position_of, is_single, IsSingle};
ghost use Rattle.hoist_base.specs.Limits.{max_degree};
ghost use Rattle.hoist_base.specs.Valid.{IsLine};
ghost use Rattle.hoist_base.specs.PartsData.{data_of};
ghost use Rattle.hoist_base.specs.Routes.{IsRoute};

use crate::parts::LineParts;
use crate::route::Route;
use crate::stage::Stage;
use crate::tank::Tank;
use std::alloc::{AllocError, Global};
use std::marker::Model;

/// A valid line, seen as its parts.
#[derive(Debug, Drop)]
pub struct Line {
    parts: LineParts,
}

impl Model for Line {
    ghost use Rattle.hoist_base.specs.LineData.{LineData};
    ghost use Rattle.hoist_base.specs.Valid.{IsLine};
    ghost use Rattle.hoist_base.specs.PartsData.{data_of};

    ghost Value = { LineData };

    ghost view = { λ line. data_of line.parts };

    ghost invariant = { λ line. IsLine (data_of line.parts) };
}

impl Line {
    /// The line of valid parts. It takes no memory.
    pub fn new(parts: LineParts) -> Line
        requires { IsLine (data_of parts) }
        ensures { result ≡ data_of parts }
    {
        Line { parts }
    }

    /// The length of the track: positions go from 0 to it.
    pub fn track(&self) -> u32
        ensures value { result ≡ self.now.track }
        ensures valid { IsLine self.now }
    {
        self.parts.track
    }

    /// How far a hoist stays above the next lower one.
    pub fn gap(&self) -> u32
        ensures value { result ≡ self.now.gap }
        ensures valid { IsLine self.now }
    {
        self.parts.gap
    }

    /// The number of hoists.
    pub fn hoists(&self) -> u32
        ensures value { result ≡ self.now.hoists }
        ensures valid { IsLine self.now }
    {
        self.parts.hoists
    }

    /// How many carriers enter in each period.
    pub fn degree(&self) -> u32
        ensures value { result ≡ self.now.degree }
        ensures valid { IsLine self.now }
    {
        self.parts.degree
    }

    /// The greatest period that a search considers, in ticks.
    pub fn max_period(&self) -> u32
        ensures value { result ≡ self.now.max_period }
        ensures valid { IsLine self.now }
    {
        self.parts.max_period
    }

    /// The ticks that a carrier is at the load station before it is lifted, at least.
    pub fn load(&self) -> u32
        ensures value { result ≡ self.now.load }
        ensures valid { IsLine self.now }
    {
        self.parts.load
    }

    /// The ticks that a carrier is at the unload station before it is taken off, at least.
    pub fn unload(&self) -> u32
        ensures value { result ≡ self.now.unload }
        ensures valid { IsLine self.now }
    {
        self.parts.unload
    }

    /// The tanks, by number.
    pub fn tanks(&self) -> &[Tank]
        ensures value { result.now ≡ self.now.tanks }
        ensures valid { IsLine self.now }
    {
        self.parts.tanks.as_slice()
    }

    /// The stages, from the load to the unload.
    pub fn stages(&self) -> &[Stage]
        ensures value { result.now ≡ self.now.stages }
        ensures valid { IsLine self.now }
    {
        self.parts.stages.as_slice()
    }

    /// The number of the stages between load and unload. It is the step of a carrier's last move too.
    pub fn inner(&self) -> u32
        ensures value { result ≡ last_step self.now }
        ensures count { result + 2 ≡ length self.now.stages }
        ensures valid { IsLine self.now }
    {
        self.parts.stages.len() as u32 - 2
    }

    /// The position of a tank, by its number.
    pub fn at(&self, tank: u32) -> u32
        requires { tank < length self.now.tanks }
        ensures value { result ≡ position_of self.now tank }
        ensures valid { IsLine self.now }
    {
        self.parts.tanks[tank as usize].at
    }

    /// Whether every stage has one tank.
    #[tactic(auto, using(crate::proofs::SingleLemmas::single_is))]
    pub fn single(&self) -> bool
        ensures value { IsTrue result ↔ IsSingle self.now }
        ensures test { result ≡ is_single self.now }
        ensures valid { IsLine self.now }
    {
        for k in 0..self.parts.stages.len() {
            if self.parts.stages[k].tanks.as_slice().len() != 1 {
                return false;
            }
        }
        true
    }

    /// The route of a line whose stages have one tank each.
    pub fn only_route(&self, alloc: Global) -> Result<Route, AllocError>
        requires { IsSingle self.now }
        ensures { IfOk result (λ route. IsRoute self.now route) }
    {
        let count = self.parts.stages.len();
        let mut numbers = Vec::new(alloc);
        for i in 0..self.parts.degree as usize * count {
            numbers.push(self.parts.stages[i % count].tanks.as_slice()[0])?;
        }
        Ok(Route::from_vec(numbers))
    }

    /// The same line with another degree: `degree` carriers enter in each period.
    pub fn of_degree(&self, alloc: Global, degree: u32) -> Result<Line, AllocError>
        requires { (1 ≤ degree) × (degree ≤ max_degree) }
        ensures { IfOk result (λ line. line ≡ record self.now { degree = degree }) }
    {
        let tanks = copied_tanks(alloc, self.parts.tanks.as_slice())?;
        let stages = copied_stages(alloc, self.parts.stages.as_slice())?;
        Ok(Line::new(LineParts {
            track: self.parts.track,
            gap: self.parts.gap,
            hoists: self.parts.hoists,
            degree,
            max_period: self.parts.max_period,
            load: self.parts.load,
            unload: self.parts.unload,
            tanks,
            stages,
        }))
    }
}

fn copied_tanks(alloc: Global, tanks: &[Tank]) -> Result<Vec<Tank>, AllocError>
    ensures { IfOk result (λ copy. copy.items ≡ tanks.now) }
{
    let mut copy = Vec::new(alloc);
    for tank in tanks {
        copy.push(tank.copied(alloc)?)?;
    }
    Ok(copy)
}

fn copied_stages(alloc: Global, stages: &[Stage]) -> Result<Vec<Stage>, AllocError>
    ensures { IfOk result (λ copy. copy.items ≡ stages.now) }
{
    let mut copy = Vec::new(alloc);
    for stage in stages {
        copy.push(stage.copied(alloc)?)?;
    }
    Ok(copy)
}
