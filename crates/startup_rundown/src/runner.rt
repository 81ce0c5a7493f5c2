// The driver of a run.
ghost use Rattle.std.specs.Prelude.{◌≡◌, ◌+◌, ◌<◌, ◌≤◌, ◌==◌, ◌||◌, is_some};
ghost use Rattle.hoist_base.specs.LineData.{last_stage, IsMove};
ghost use Rattle.hoist_base.specs.Valid.{IsLine};
ghost use Rattle.line_model.specs.Motion.{IsMotion};
ghost use Rattle.line_model.specs.Motion as motions;
ghost use Rattle.line_model.specs.Timetable as model;
ghost use Rattle.timetable.specs.TimetableData.{timetable_of, FitsLine, IsTimetable};
ghost use Rattle.line_model.specs.Legal.{IsLegal};
ghost use Rattle.startup_rundown.specs.RunLog as runs;
ghost use Rattle.startup_rundown.specs.Picks.{pick};
ghost use Rattle.startup_rundown.specs.Driving as driving;
ghost use Rattle.startup_rundown.specs.Runner as runners;

use hoist_base::{Line, MoveId, VisitId};
use move_list::{Motion, duration, motion_of};
use std::marker::Model;
use tick_machine::{Driver, Go, Order};
use timetable::Timetable;

/// Drives a run of a legal timetable, from the first put to the last off: all hoists follow their paths, and only the
/// carriers of the run are moved, put on and taken off.
///
/// A hoist that carries a carrier of the run stays, since its carry moves it. The same hoist follows its path where the
/// timetable has it carry a carrier that isn't of the run.
#[derive(Debug, Drop)]
pub struct Runner<'a> {
    line: &'a Line,
    timetable: &'a Timetable,
    carriers: u64,
    first: u64,
    last: u64,
}

impl<'a> Model for Runner<'a> {
    ghost use Rattle.std.specs.Prelude.{◌≡◌};
    ghost use Rattle.startup_rundown.specs.Runner.{RunnerData, IsRunner, first_tick, last_tick};

    ghost Value = { RunnerData };

    ghost view = { λ runner.
        record { line = runner.line.now; timetable = runner.timetable.now; carriers = runner.carriers } };

    ghost invariant = { λ runner.
        IsRunner (record { line = runner.line.now; timetable = runner.timetable.now; carriers = runner.carriers })
        × (runner.first ≡ first_tick (record {
          line = runner.line.now;
          timetable = runner.timetable.now;
          carriers =
              runner.carriers;
        }))
        × (runner.last ≡ last_tick (record {
          line = runner.line.now;
          timetable = runner.timetable.now;
          carriers =
              runner.carriers;
        })) };
}

impl<'a> Runner<'a> {
    // The driver of the run of so many carriers.
    pub(crate) fn new(line: &'a Line, timetable: &'a Timetable, carriers: u64) -> Runner<'a>
        requires fits { FitsLine line.now timetable.now }
        requires legal { IsLegal line.now (timetable_of timetable.now) }
        requires carriers { (1 ≤ carriers) × (carriers ≤ 1000) }
        ensures value { result ≡ record { line = line.now; timetable = timetable.now; carriers = carriers } }
        ensures kept { runners.IsRunner (record { line = line.now; timetable = timetable.now; carriers = carriers }) }
        ensures small { runs.last_tick line.now (timetable_of timetable.now) carriers ≤ 2000000000 }
    {
        let last = last_off(line, timetable, carriers);
        let first = timetable.put(0);
        Runner {
            line,
            timetable,
            carriers,
            first,
            last,
        }
    }

    // Whether the carrier that copies carrier c of the timetable `turn` periods later is one of the run.
    fn has_carrier(&self, c: u32, turn: u64) -> bool
        requires { c < self.now.line.degree }
        ensures { result ≡ runners.has_carrier self.now c turn }
    {
        turn < self.carriers && (c as u64) + turn * (self.line.degree() as u64) < self.carriers
    }

    // Whether tick `at` of carrier c of the timetable comes at `tick` for a carrier of the run.
    fn is_due(&self, c: u32, at: u64, tick: u64) -> bool
        requires { c < self.now.line.degree }
        ensures { result ≡ runners.is_due self.now c at tick }
    {
        if tick < at {
            return false;
        }
        let period = self.timetable.period() as u64;
        let since = tick - at;
        since % period == 0 && self.has_carrier(c, since / period)
    }

    // Whether a carrier of the run is carried by its move that copies m, from the tick before into `tick`.
    fn is_under_way(&self, m: MoveId, tick: u64) -> bool
        requires { IsMove self.now.line m.carrier m.step }
        ensures { result ≡ runners.is_under_way self.now m.carrier
            ((timetable_of self.now.timetable).start m.carrier m.step)
            (motions.duration (model.motion self.now.line (timetable_of self.now.timetable) m.carrier m.step)) tick }
    {
        let start = self.timetable.start(m);
        if tick <= start {
            return false;
        }
        let period = self.timetable.period() as u64;
        let since = tick - 1 - start;
        since % period < duration(self.motion(m)) as u64
            && self.has_carrier(m.carrier, since / period)
    }

    // The motion of a move.
    fn motion(&self, m: MoveId) -> Motion
        requires { IsMove self.now.line m.carrier m.step }
        ensures value { result ≡ model.motion self.now.line (timetable_of self.now.timetable) m.carrier m.step }
        ensures motion { IsMotion result }
    {
        motion_of(self.line, self.timetable.route(), m)
    }

    // Whether hoist h begins a copy of the move at `tick`, with a carrier of the run.
    fn begins(&self, m: MoveId, h: u32, tick: u64) -> bool
        requires { IsMove self.now.line m.carrier m.step }
        ensures { result ≡ runners.begins_at self.now tick h m.carrier m.step }
    {
        self.timetable.hoist(m) == h && self.is_due(m.carrier, self.timetable.start(m), tick)
    }

    // Whether hoist h carries by a copy of the move from the tick before into `tick`, with a carrier of the run.
    fn carries(&self, m: MoveId, h: u32, tick: u64) -> bool
        requires { IsMove self.now.line m.carrier m.step }
        ensures { result ≡ runners.carries_into self.now tick h m.carrier m.step }
    {
        self.timetable.hoist(m) == h && self.is_under_way(m, tick)
    }

    // The tank to which hoist h begins a move at `tick`, with a carrier of the run that copies carrier c.
    #[tactic(auto, using(crate::proofs::Picks::pick_first, crate::proofs::Picks::pick_more))]
    fn begin_with(&self, c: u32, h: u32, tick: u64) -> Option<u32>
        requires { c < self.now.line.degree }
        ensures { result ≡ pick (last_stage self.now.line) (runners.begins_at self.now tick h c)
            (λ k. (timetable_of self.now.timetable).tank c (k + 1)) }
    {
        for step in 0..self.timetable.moves() {
            let m = MoveId { carrier: c, step };
            if self.begins(m, h, tick) {
                let to = VisitId {
                    carrier: c,
                    stage: step + 1,
                };
                return Some(self.timetable.tank(to));
            }
        }
        None
    }

    // The tank to which hoist h begins a move at `tick`, with a carrier of the run.
    #[tactic(auto, using(crate::proofs::Picks::lowest_first, crate::proofs::Picks::lowest_more))]
    fn begin(&self, h: u32, tick: u64) -> Option<u32>
        ensures { result ≡ runners.begin_of self.now tick h }
    {
        for c in 0..self.line.degree() {
            if let Some(tank) = self.begin_with(c, h, tick) {
                return Some(tank);
            }
        }
        None
    }

    // Whether hoist h carries a carrier of the run that copies carrier c, from the tick before into `tick`.
    #[tactic(auto, using(crate::proofs::Picks::pick_first, crate::proofs::Picks::pick_more))]
    fn is_loaded_with(&self, c: u32, h: u32, tick: u64) -> bool
        requires { c < self.now.line.degree }
        ensures { result ≡ is_some (pick (last_stage self.now.line) (runners.carries_into self.now tick h c) (λ k. c)) }
    {
        for step in 0..self.timetable.moves() {
            let m = MoveId { carrier: c, step };
            if self.carries(m, h, tick) {
                return true;
            }
        }
        false
    }

    // Whether hoist h carries a carrier of the run, from the tick before into `tick`.
    #[tactic(auto, using(crate::proofs::Picks::lowest_first, crate::proofs::Picks::lowest_more))]
    fn is_loaded(&self, h: u32, tick: u64) -> bool
        ensures { result ≡ runners.is_loaded self.now tick h }
    {
        for c in 0..self.line.degree() {
            if self.is_loaded_with(c, h, tick) {
                return true;
            }
        }
        false
    }

    // Whether a carrier of the run is taken off at `tick`.
    #[tactic(auto, using(crate::proofs::Picks::pick_first, crate::proofs::Picks::pick_more))]
    fn takes_off(&self, tick: u64) -> bool
        ensures { result ≡ runners.takes_off self.now tick }
    {
        for c in 0..self.line.degree() {
            if self.is_due(c, self.timetable.off(c), tick) {
                return true;
            }
        }
        false
    }

    // Whether a carrier of the run is put on at `tick`.
    #[tactic(auto, using(crate::proofs::Picks::pick_first, crate::proofs::Picks::pick_more))]
    fn puts_on(&self, tick: u64) -> bool
        ensures { result ≡ runners.puts_on self.now tick }
    {
        for c in 0..self.line.degree() {
            if self.is_due(c, self.timetable.put(c), tick) {
                return true;
            }
        }
        false
    }

    // Whether hoist h stays where it is, whatever its path: at the first tick, and while it carries.
    fn stays(&self, h: u32, tick: u64) -> bool
        ensures { result ≡ (tick == runners.first_tick self.now) || runners.is_loaded self.now tick h }
    {
        tick == self.first || self.is_loaded(h, tick)
    }

    // Where hoist h goes from the tick before to `tick`.
    fn go(&self, h: u32, tick: u64) -> Go
        requires { h < self.now.line.hoists }
        ensures { result ≡ runners.go_of self.now tick h }
    {
        if self.stays(h, tick) {
            Go::Stay
        } else {
            toward(
                self.timetable.position(h, tick.saturating_sub(1)),
                self.timetable.position(h, tick),
            )
        }
    }
}

// The tick of the last off of the run of so many carriers.
fn last_off(line: &Line, t: &Timetable, carriers: u64) -> u64
    requires fits { FitsLine line.now t.now }
    requires carriers { carriers ≤ 1000 }
    ensures value { result ≡ runs.last_tick line.now (timetable_of t.now) carriers }
    ensures small { result ≤ 2000000000 }
    ensures line { IsLine line.now }
    ensures timetable { IsTimetable t.now }
{
    let degree = line.degree() as u64;
    let period = t.period() as u64;
    let mut last: u64 = 0;
    for c in 0..degree.min(carriers) {
        let turns = (carriers - 1 - c) / degree;
        last = last.max(t.off(c as u32) + turns * period);
    }
    last
}

// The motion of a tick from one position to another.
fn toward(from: u32, to: u32) -> Go
    ensures { result ≡ driving.toward from to }
{
    if to < from {
        Go::Low
    } else if from < to {
        Go::High
    } else {
        Go::Stay
    }
}

impl<'a> Driver for Runner<'a> {
    ghost use Rattle.timetable.specs.TimetableData.{timetable_of};
    ghost use Rattle.startup_rundown.specs.Driving.{order_into, first_place};
    ghost use Rattle.startup_rundown.specs.Runner.{first_tick, last_tick};

    ghost hoists = { λ r. r.line.hoists };

    ghost first_tick = { first_tick };

    ghost last_tick = { last_tick };

    ghost place = { λ r. first_place r.line (timetable_of r.timetable) };

    ghost command = { λ r. order_into r.line (timetable_of r.timetable) r.carriers };

    fn first(&self) -> u64 {
        self.first
    }

    fn last(&self) -> u64 {
        self.last
    }

    fn at(&self, h: u32) -> u32 {
        self.timetable.position(h, self.first)
    }

    #[tactic(auto, using(crate::proofs::RunnerLaw::order_is))]
    fn order(&self, tick: u64, into: &mut Order) {
        for h in 0..self.line.hoists() {
            into.go[h as usize] = self.go(h, tick);
            into.begin[h as usize] = self.begin(h, tick);
        }
        into.off = self.takes_off(tick);
        into.put = self.puts_on(tick);
    }
}
