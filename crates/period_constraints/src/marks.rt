// The choices of tanks and of hoists on a path, by the numbers of the visits and of the moves.
ghost use Rattle.std.specs.Prelude.{◌≡◌, ◌≤◌, ◌↔◌, length, None, IsTrue};
ghost use Rattle.hoist_base.specs.LineData.{IsVisit, stage, move_count, visit_count};
ghost use Rattle.path_constraints.specs.Questions.{FitsPath};
ghost use Rattle.period_constraints.specs.Pairs.{IsFirstNumber};
ghost use Rattle.period_constraints.specs.Marks.{AreChoices, AreAssigned, IsOpenByChoices, HaveTanks, AreChosen};

use choice_tree::{Decision, Question};
use hoist_base::{Line, VisitId};

/// Notes which tank of its stage each visit has by its Choose, and which hoist of those that reach it each move has by
/// its Assign, or None.
pub(crate) fn mark(
    line: &Line,
    path: &[Decision],
    choices: &mut [Option<u32>],
    assigned: &mut [Option<u32>],
)
    requires fits { FitsPath line.now path.now }
    requires room { (visit_count line.now ≤ length choices.old) × (move_count line.now ≤ length assigned.old) }
    ensures choices { AreChoices line.now path.now choices.new }
    ensures assigned { AreAssigned line.now path.now assigned.new }
{
    choices.fill(None);
    assigned.fill(None);
    for decision in path {
        match decision.question {
            Question::Choose { v } => {
                choices[line.visit_number(v) as usize] = Some(decision.child);
            }
            Question::Assign { m } => {
                assigned[line.move_number(m) as usize] = Some(decision.child);
            }
            _ => {}
        }
    }
}

/// The first visit whose stage has a choice, where none is noted.
pub(crate) fn first_open_visit(line: &Line, choices: &[Option<u32>]) -> Option<u32>
    requires room { visit_count line.now ≤ length choices.now }
    ensures { IsFirstNumber (IsOpenByChoices line.now choices.now) result }
{
    for number in 0..line.visit_count() {
        if is_open(line, choices[number as usize], line.visit_at(number)) {
            return Some(number);
        }
    }
    None
}

// Whether the stage of a visit has a choice, where none is noted.
fn is_open(line: &Line, choice: Option<u32>, visit: VisitId) -> bool
    requires { IsVisit line.now visit.carrier visit.stage }
    ensures { IsTrue result ↔ ((2 ≤ length (stage line.now visit.stage).tanks) × (choice ≡ None)) }
{
    let several = line.stages()[visit.stage as usize].tanks.as_slice().len() >= 2;
    several && choice.is_none()
}

/// Writes the tank of each visit into its place: the one that is chosen, or the first of its stage.
pub(crate) fn write_tanks(line: &Line, choices: &[Option<u32>], tanks: &mut [u32])
    requires choices { HaveTanks line.now choices.now }
    requires room { visit_count line.now ≤ length tanks.old }
    ensures { AreChosen line.now choices.now tanks.new }
{
    for number in 0..line.visit_count() {
        let visit = line.visit_at(number);
        let chosen = choices[number as usize].unwrap_or(0);
        let stage = &line.stages()[visit.stage as usize];
        tanks[number as usize] = stage.tanks.as_slice()[chosen as usize];
    }
}
