// Moves and visits by number: carrier by carrier, and by step or stage within a carrier.
ghost use Rattle.std.specs.Prelude.{◌≡◌, ◌<◌, ◌≤◌, ◌↔◌, IsTrue};
ghost use Rattle.hoist_base.specs.LineData.{IsMove, IsVisit};
ghost use Rattle.hoist_base.specs.LineData as line_data;
ghost use Rattle.hoist_base.specs.Valid.{IsLine};

use crate::ids::{MoveId, VisitId};
use crate::line::Line;

impl Line {
    /// How many moves a period has.
    pub fn move_count(&self) -> u32
        ensures value { result ≡ line_data.move_count self.now }
        ensures small { (1 ≤ result) × (result ≤ 124) }
        ensures valid { IsLine self.now }
    {
        self.degree() * (self.inner() + 1)
    }

    /// How many visits a period has.
    pub fn visit_count(&self) -> u32
        ensures value { result ≡ line_data.visit_count self.now }
        ensures small { (2 ≤ result) × (result ≤ 128) }
        ensures valid { IsLine self.now }
    {
        self.degree() * (self.inner() + 2)
    }

    /// The move with a number; for the first carrier it is found without a division.
    pub fn move_at(&self, number: u32) -> MoveId
        requires { number < line_data.move_count self.now }
        ensures value { result ≡ line_data.move_at self.now number }
        ensures number { line_data.move_number self.now result.carrier result.step ≡ number }
        ensures there { IsMove self.now result.carrier result.step }
        ensures valid { IsLine self.now }
    {
        let steps = self.inner() + 1;
        if number < steps {
            return MoveId {
                carrier: 0,
                step: number,
            };
        }
        MoveId {
            carrier: number / steps,
            step: number % steps,
        }
    }

    /// The visit with a number; for the first carrier it is found without a division.
    pub fn visit_at(&self, number: u32) -> VisitId
        requires { number < line_data.visit_count self.now }
        ensures value { result ≡ line_data.visit_at self.now number }
        ensures number { line_data.visit_number self.now result.carrier result.stage ≡ number }
        ensures there { IsVisit self.now result.carrier result.stage }
        ensures valid { IsLine self.now }
    {
        let stages = self.inner() + 2;
        if number < stages {
            return VisitId {
                carrier: 0,
                stage: number,
            };
        }
        VisitId {
            carrier: number / stages,
            stage: number % stages,
        }
    }

    /// The number of a move of the line.
    pub fn move_number(&self, m: MoveId) -> u32
        requires { IsMove self.now m.carrier m.step }
        ensures value { result ≡ line_data.move_number self.now m.carrier m.step }
        ensures there { result < line_data.move_count self.now }
        ensures small { line_data.move_count self.now ≤ 124 }
        ensures valid { IsLine self.now }
    {
        m.carrier * (self.inner() + 1) + m.step
    }

    /// The number of a visit of the line.
    pub fn visit_number(&self, v: VisitId) -> u32
        requires { IsVisit self.now v.carrier v.stage }
        ensures value { result ≡ line_data.visit_number self.now v.carrier v.stage }
        ensures there { result < line_data.visit_count self.now }
        ensures small { line_data.visit_count self.now ≤ 128 }
        ensures valid { IsLine self.now }
    {
        v.carrier * (self.inner() + 2) + v.stage
    }

    /// Whether the line has this move in a period.
    pub fn has_move(&self, m: MoveId) -> bool
        ensures value { IsTrue result ↔ IsMove self.now m.carrier m.step }
        ensures valid { IsLine self.now }
    {
        m.carrier < self.degree() && m.step <= self.inner()
    }

    /// Whether the line has this visit in a period.
    pub fn has_visit(&self, v: VisitId) -> bool
        ensures value { IsTrue result ↔ IsVisit self.now v.carrier v.stage }
        ensures valid { IsLine self.now }
    {
        v.carrier < self.degree() && v.stage <= self.inner() + 1
    }
}
