// Which question is asked first.
ghost use Rattle.std.specs.Prelude.{◌≡◌, ◌≢◌, ◌≤◌, ◌↔◌, length, unsigned_abs, None, IsTrue, IfSome};
ghost use Rattle.hoist_base.specs.LineData.{IsMove, move_count};
ghost use Rattle.longest_path.specs.Bounds.{IsPeriod};
ghost use Rattle.longest_path.specs.System.{Solves};
ghost use Rattle.path_constraints.specs.Questions.{FitsPath};
ghost use Rattle.path_constraints.specs.Hoists.{hoists_reaching};
ghost use Rattle.path_constraints.specs.Places.{system_below};
ghost use Rattle.path_constraints.specs.Ticks.{AreTicks, tick_at};
ghost use Rattle.period_constraints.specs.Order.{IsFirstQuestion};
ghost use Rattle.period_constraints.specs.Pairs.{IsFirstNumber, IsFirstPair};
ghost use Rattle.period_constraints.specs.Stays.{AreRouted, AreNear};
ghost use Rattle.period_constraints.specs.Stays as stays;
ghost use Rattle.period_constraints.specs.Starts.{IsTable};
ghost use Rattle.period_constraints.specs.Routed.{ClashByRides, IsUnassigned};

use crate::marks::{first_open_visit, mark, write_tanks};
use crate::pairs::Pair;
use crate::starts::{Start, Table, first_meeting, write_starts};
use crate::stays::{first_tank_pair, motion_by};
use choice_tree::{Decision, Question};
use hoist_base::{Line, MoveId};
use path_constraints::reaching_count;

/// Room for what a question is sought by: a place for each visit or each move of any line. What stands in it means
/// nothing between two calls.
#[derive(Drop)]
pub(crate) struct Room {
    choices: [Option<u32>; 128],
    assigned: [Option<u32>; 124],
    tanks: [u32; 128],
    starts: [Start; 124],
}

impl Room {
    /// Nothing is noted in it.
    pub(crate) fn new() -> Room {
        Room {
            choices: [None; 128],
            assigned: [None; 124],
            tanks: [0; 128],
            starts: [Start::NONE; 124],
        }
    }
}

// The first two moves that clash; their starts are written into their places.
fn first_hoist_pair(
    line: &Line,
    table: Table,
    tanks: &[u32],
    assigned: &[Option<u32>],
    ticks: &[i64],
    period: u32,
    starts: &mut [Start],
) -> Option<Pair>
    requires table { IsTable line.now table.rides.now table.spans.now }
    requires tanks { AreRouted line.now tanks.now }
    requires assigned { move_count line.now ≤ length assigned.now }
    requires ticks { AreTicks line.now ticks.now }
    requires near { AreNear line.now (tick_at ticks.now) }
    requires period { IsPeriod period }
    requires room { length starts.old ≡ move_count line.now }
    ensures first { IsFirstPair (ClashByRides line.now tanks.now assigned.now (tick_at ticks.now) period) result }
    ensures small { IfSome result (λ x. unsigned_abs x.shift ≤ 1000000000) }
{
    write_starts(line, table, tanks, assigned, ticks, starts);
    first_meeting(line, table, starts, period)
}

// Whether no hoist is assigned to a move, and not one alone reaches it.
fn is_unassigned(line: &Line, tanks: &[u32], assigned: Option<u32>, m: MoveId) -> bool
    requires tanks { AreRouted line.now tanks.now }
    requires there { IsMove line.now m.carrier m.step }
    ensures { IsTrue result ↔ ((assigned ≡ None)
        × (length (hoists_reaching line.now (stays.motion_by line.now tanks.now m.carrier m.step)) ≢ 1)) }
{
    assigned.is_none() && reaching_count(line, motion_by(line, tanks, m)) != 1
}

// The first move to which a hoist is to be assigned.
fn first_unassigned(line: &Line, tanks: &[u32], assigned: &[Option<u32>]) -> Option<u32>
    requires tanks { AreRouted line.now tanks.now }
    requires assigned { move_count line.now ≤ length assigned.now }
    ensures { IsFirstNumber (IsUnassigned line.now tanks.now assigned.now) result }
{
    for number in 0..line.move_count() {
        if is_unassigned(line, tanks, assigned[number as usize], line.move_at(number)) {
            return Some(number);
        }
    }
    None
}

/// The first question that is to be asked below the path; the clashes are those of the table where it has the rides.
pub(crate) fn ask(
    line: &Line,
    table: Table,
    path: &[Decision],
    ticks: &[i64],
    period: u32,
    room: &mut Room,
) -> Option<Question>
    requires table { IsTable line.now table.rides.now table.spans.now }
    requires fits { FitsPath line.now path.now }
    requires period { IsPeriod period }
    requires ticks { AreTicks line.now ticks.now }
    requires solves { Solves (system_below line.now path.now) period (tick_at ticks.now) }
    ensures first { IsFirstQuestion line.now path.now (tick_at ticks.now) period result }
{
    let moves = line.move_count() as usize;
    mark(line, path, &mut room.choices, &mut room.assigned);
    if let Some(number) = first_open_visit(line, &room.choices) {
        return Some(Question::Choose {
            v: line.visit_at(number),
        });
    }
    write_tanks(line, &room.choices, &mut room.tanks);
    let tanks = &room.tanks;
    let starts = &mut room.starts[..];
    if let Some(pair) = first_tank_pair(line, tanks, ticks, period) {
        return Some(Question::TankOrder {
            a: line.visit_at(pair.first),
            b: line.visit_at(pair.second),
            q: pair.shift,
        });
    }
    if let Some(pair) = first_hoist_pair(
        line,
        table,
        tanks,
        &room.assigned,
        ticks,
        period,
        &mut starts[..moves],
    ) {
        return Some(Question::HoistOrder {
            a: line.move_at(pair.first),
            b: line.move_at(pair.second),
            q: pair.shift,
        });
    }
    if let Some(number) = first_unassigned(line, tanks, &room.assigned) {
        return Some(Question::Assign {
            m: line.move_at(number),
        });
    }
    None
}

/// The first question that is to be asked below the path, where the ticks, one a move, solve the path's constraints at
/// the period; None where none is to be asked.
///
/// Choices of tanks come first, by visit; then the orders of visits and those of moves that the ticks leave open, by
/// their names and then by q from the most negative; then the hoists, by move. It takes no memory.
pub fn first_question(
    line: &Line,
    path: &[Decision],
    ticks: &[i64],
    period: u32,
) -> Option<Question>
    requires fits { FitsPath line.now path.now }
    requires period { IsPeriod period }
    requires ticks { AreTicks line.now ticks.now }
    requires solves { Solves (system_below line.now path.now) period (tick_at ticks.now) }
    ensures first { IsFirstQuestion line.now path.now (tick_at ticks.now) period result }
{
    let table = Table {
        rides: &[],
        firsts: &[],
        spans: &[],
    };
    ask(line, table, path, ticks, period, &mut Room::new())
}
