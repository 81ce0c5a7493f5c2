// When hoists carry.
ghost use Rattle.std.specs.Prelude.{◌≡◌, ℕ, ◌+◌, ◌*◌, ◌<◌, ◌≤◌, ◌||◌, length, get_or, false, IfOk};
ghost use Rattle.hoist_base.specs.LineData.{IsMove};
ghost use Rattle.line_model.specs.Legal.{IsLegal};
ghost use Rattle.timetable.specs.TimetableData.{timetable_of, FitsLine};
ghost use Rattle.gantt_report.specs.Chart.{AreMarks, is_marked_by};

use hoist_base::{Line, MoveId};
use move_list::{duration, motion_of};
use std::alloc::{AllocError, Global};
use timetable::Timetable;

/// Whether each hoist carries at each tick of the period: for hoist h at tick t it is said at h * period + t.
pub(crate) fn carrying(alloc: Global, line: &Line, t: &Timetable) -> Result<Vec<bool>, AllocError>
    requires fits { FitsLine line.now t.now }
    requires legal { IsLegal line.now (timetable_of t.now) }
    ensures { IfOk result (λ marks. AreMarks line.now (timetable_of t.now) marks.items) }
{
    let mut marks = Vec::new(alloc);
    marks.resize(line.hoists() as usize * t.period() as usize, false)?;
    for number in 0..line.move_count() {
        mark_move(&mut marks, line, t, line.move_at(number));
    }
    Ok(marks)
}

// Marks the ticks of the period at which the hoist of a move carries by it.
fn mark_move(marks: &mut Vec<bool>, line: &Line, t: &Timetable, m: MoveId)
    requires fits { FitsLine line.now t.now }
    requires there { IsMove line.now m.carrier m.step }
    requires room { ((timetable_of t.now).hoist m.carrier m.step + 1) * t.now.period ≤ length marks.old.items }
    ensures count { length marks.new.items ≡ length marks.old.items }
    ensures each { (j : ℕ) → get_or marks.new.items j false
        ≡ (get_or marks.old.items j false || is_marked_by line.now (timetable_of t.now) j m.carrier m.step) }
{
    let period = t.period() as u64;
    let row = t.hoist(m) as u64 * period;
    for u in 0..duration(motion_of(line, t.route(), m)) {
        let tick = (t.start(m) + u as u64) % period;
        marks[(row + tick) as usize] = true;
    }
}
