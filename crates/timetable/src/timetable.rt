// Timetables.
ghost use Rattle.std.specs.Prelude.{◌≡◌, ◌+◌, ◌*◌, ◌<◌, ◌≤◌, length};
ghost use Rattle.hoist_base.specs.LineData.{last_stage};
ghost use Rattle.line_model.specs.Timetable.{position};
ghost use Rattle.timetable.specs.TimetableData.{timetable_of, last_tick, IsTimetable, IsTimetableOf};
ghost use Rattle.timetable.specs.PartsData.{data_of};

use crate::parts::TimetableParts;
use hoist_base::{Line, MoveId, Route, VisitId};
use std::marker::Model;

/// A timetable of some line, seen as its parts and the number of moves of a carrier.
#[derive(Debug, Drop)]
pub struct Timetable {
    period: u32,
    moves: u32,
    put: Vec<u64>,
    off: Vec<u64>,
    start: Vec<u64>,
    hoist: Vec<u32>,
    path: Vec<u32>,
    route: Route,
}

impl Model for Timetable {
    ghost use Rattle.timetable.specs.TimetableData.{TimetableData, IsTimetable};

    ghost Value = { TimetableData };

    ghost view = { λ timetable. record {
      period = timetable.period;
      steps = timetable.moves;
      put = timetable.put.items;
      off = timetable.off.items;
      start = timetable.start.items;
      hoist = timetable.hoist.items;
      path = timetable.path.items;
      tank = timetable.route;
    } };

    ghost invariant = { λ timetable. IsTimetable (record {
      period = timetable.period;
      steps = timetable.moves;
      put = timetable.put.items;
      off = timetable.off.items;
      start = timetable.start.items;
      hoist = timetable.hoist.items;
      path = timetable.path.items;
      tank = timetable.route;
    }) };
}

impl Timetable {
    /// The timetable of parts that fit the line. It takes no memory.
    pub fn new(line: &Line, parts: TimetableParts) -> Timetable
        requires { IsTimetableOf line.now (data_of (last_stage line.now) parts) }
        ensures { result ≡ data_of (last_stage line.now) parts }
    {
        let moves = line.inner() + 1;
        Timetable {
            period: parts.period,
            moves,
            put: parts.put,
            off: parts.off,
            start: parts.start,
            hoist: parts.hoist,
            path: parts.path,
            route: Route::from_vec(parts.tank),
        }
    }

    /// The period, in ticks.
    pub fn period(&self) -> u32
        ensures value { result ≡ self.now.period }
        ensures valid { IsTimetable self.now }
    {
        self.period
    }

    /// How many carriers enter in each period.
    pub fn carriers(&self) -> u32
        ensures value { result ≡ length self.now.put }
        ensures valid { IsTimetable self.now }
    {
        self.put.len() as u32
    }

    /// How many moves each carrier makes.
    pub fn moves(&self) -> u32
        ensures value { result ≡ self.now.steps }
        ensures valid { IsTimetable self.now }
    {
        self.moves
    }

    /// The tick at which carrier c is put on.
    pub fn put(&self, c: u32) -> u64
        requires { c < length self.now.put }
        ensures value { result ≡ (timetable_of self.now).put c }
        ensures small { result ≤ last_tick }
        ensures valid { IsTimetable self.now }
    {
        self.put[c as usize]
    }

    /// The tick at which carrier c is taken off.
    pub fn off(&self, c: u32) -> u64
        requires { c < length self.now.put }
        ensures value { result ≡ (timetable_of self.now).off c }
        ensures small { result ≤ last_tick }
        ensures valid { IsTimetable self.now }
    {
        self.off[c as usize]
    }

    /// The tick at which a move starts.
    pub fn start(&self, m: MoveId) -> u64
        requires carrier { m.carrier < length self.now.put }
        requires step { m.step < self.now.steps }
        ensures value { result ≡ (timetable_of self.now).start m.carrier m.step }
        ensures small { result ≤ last_tick }
        ensures valid { IsTimetable self.now }
    {
        let number = m.carrier as usize * self.moves as usize + m.step as usize;
        self.start[number]
    }

    /// The hoist that carries by a move.
    pub fn hoist(&self, m: MoveId) -> u32
        requires carrier { m.carrier < length self.now.put }
        requires step { m.step < self.now.steps }
        ensures value { result ≡ (timetable_of self.now).hoist m.carrier m.step }
        ensures there { (result + 1) * self.now.period ≤ length self.now.path }
        ensures valid { IsTimetable self.now }
    {
        let number = m.carrier as usize * self.moves as usize + m.step as usize;
        self.hoist[number]
    }

    /// The position of hoist h at tick t of the period.
    pub fn path(&self, h: u32, t: u32) -> u32
        requires hoist { (h + 1) * self.now.period ≤ length self.now.path }
        requires tick { t < self.now.period }
        ensures value { result ≡ (timetable_of self.now).path h t }
        ensures valid { IsTimetable self.now }
    {
        let number = h as usize * self.period as usize + t as usize;
        self.path[number]
    }

    /// The number of the tank that a visit uses.
    pub fn tank(&self, v: VisitId) -> u32
        requires carrier { v.carrier < length self.now.put }
        requires stage { v.stage ≤ self.now.steps }
        ensures value { result ≡ (timetable_of self.now).tank v.carrier v.stage }
        ensures valid { IsTimetable self.now }
    {
        let number = v.carrier as usize * (self.moves as usize + 1) + v.stage as usize;
        self.route.as_slice()[number]
    }

    /// The tanks of all visits.
    pub fn route(&self) -> &Route
        ensures value { result.now ≡ self.now.tank }
        ensures valid { IsTimetable self.now }
    {
        &self.route
    }

    /// The position of hoist h at any tick: the ticks of the period come again.
    pub fn position(&self, h: u32, tick: u64) -> u32
        requires { (h + 1) * self.now.period ≤ length self.now.path }
        ensures value { result ≡ position (timetable_of self.now) h tick }
        ensures valid { IsTimetable self.now }
    {
        let t = tick % self.period as u64;
        self.path(h, t as u32)
    }
}
