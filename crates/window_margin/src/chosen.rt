//! The path of decisions that gives each visit its tank of a timetable and each move its hoist.

ghost use Rattle.std.specs.Prelude.{◌≡◌, ◌+◌, ◌≤◌, ◌<◌, length, slice_get, Some, Contains, IfOk, OnOk};
ghost use Rattle.hoist_base.specs.LineData.{stage, visit_at, move_at, visit_count, move_count, IsMove};
ghost use Rattle.line_model.specs.Motion.{IsMotion};
ghost use Rattle.line_model.specs.Timetable as model;
ghost use Rattle.line_model.specs.Legal.{IsLegal};
ghost use Rattle.timetable.specs.TimetableData.{timetable_of, FitsLine};
ghost use Rattle.path_constraints.specs.Hoists.{hoists_reaching};
ghost use Rattle.window_margin.specs.Chosen.{ChoosesBelow, AssignsBelow, IsChosen};

use crate::orders::motion;
use choice_tree::{Decision, Question};
use hoist_base::Line;
use move_list::Motion;
use path_constraints::{hoist_by, reaching_count};
use std::alloc::{AllocError, Global};
use timetable::Timetable;

// The place of a tank among those of a stage.
fn place_of(tanks: &[u32], tank: u32) -> u32
    requires there { Contains tanks.now tank }
    requires few { length tanks.now ≤ 4 }
    ensures { slice_get tanks.now result ≡ Some tank }
{
    for place in 0..tanks.len() {
        if tanks[place] == tank {
            return place as u32;
        }
    }
    unreachable!()
}

// Decides the tank of a visit, named by its number, where its stage has several.
fn choose_tank(
    path: &mut Vec<Decision>,
    line: &Line,
    t: &Timetable,
    number: u32,
) -> Result<(), AllocError>
    requires fits { FitsLine line.now t.now }
    requires legal { IsLegal line.now (timetable_of t.now) }
    requires there { number < visit_count line.now }
    requires chosen { ChoosesBelow line.now (timetable_of t.now) path.old.items number }
    ensures { OnOk result (ChoosesBelow line.now (timetable_of t.now) path.new.items (number + 1)) }
{
    let v = line.visit_at(number);
    let tanks = line.stages()[v.stage as usize].tanks.as_slice();
    if tanks.len() >= 2 {
        let child = place_of(tanks, t.tank(v));
        path.push(Decision {
            question: Question::Choose { v },
            child,
        })?;
    }
    Ok(())
}

// The number of a hoist among those that reach a motion, from the lowest.
fn number_of(line: &Line, a: Motion, hoist: u32) -> u32
    requires motion { IsMotion a }
    requires there { Contains (hoists_reaching line.now a) hoist }
    requires several { 2 ≤ length (hoists_reaching line.now a) }
    ensures { slice_get (hoists_reaching line.now a) result ≡ Some hoist }
{
    for number in 0..reaching_count(line, a) {
        if hoist_by(line, a, Some(number)) == Some(hoist) {
            return number;
        }
    }
    unreachable!()
}

// Decides the hoist of a move, named by its number, where several reach it.
fn assign_hoist(
    path: &mut Vec<Decision>,
    line: &Line,
    t: &Timetable,
    number: u32,
) -> Result<(), AllocError>
    requires fits { FitsLine line.now t.now }
    requires legal { IsLegal line.now (timetable_of t.now) }
    requires there { number < move_count line.now }
    requires assigned { AssignsBelow line.now (timetable_of t.now) path.old.items number }
    ensures { OnOk result (AssignsBelow line.now (timetable_of t.now) path.new.items (number + 1)) }
{
    let m = line.move_at(number);
    let motion = motion(line, t, m);
    if reaching_count(line, motion) >= 2 {
        let child = number_of(line, motion, t.hoist(m));
        path.push(Decision {
            question: Question::Assign { m },
            child,
        })?;
    }
    Ok(())
}

// Decides the tanks of all visits.
fn choose_tanks(alloc: Global, line: &Line, t: &Timetable) -> Result<Vec<Decision>, AllocError>
    requires fits { FitsLine line.now t.now }
    requires legal { IsLegal line.now (timetable_of t.now) }
    ensures { IfOk result (λ path. AssignsBelow line.now (timetable_of t.now) path.items 0) }
{
    let mut path = Vec::new(alloc);
    for number in 0..line.visit_count() {
        choose_tank(&mut path, line, t, number)?;
    }
    Ok(path)
}

/// The path that decides the tank of each visit whose stage has several, and then the hoist of each move that several
/// reach.
pub(crate) fn chosen_path(
    alloc: Global,
    line: &Line,
    t: &Timetable,
) -> Result<Vec<Decision>, AllocError>
    requires fits { FitsLine line.now t.now }
    requires legal { IsLegal line.now (timetable_of t.now) }
    ensures chosen { IfOk result (λ path. IsChosen line.now (timetable_of t.now) path.items) }
    ensures short { IfOk result (λ path. length path.items ≤ 252) }
{
    let mut path = choose_tanks(alloc, line, t)?;
    for number in 0..line.move_count() {
        assign_hoist(&mut path, line, t, number)?;
    }
    Ok(path)
}
