// The timetable of a solved path.
ghost use Rattle.std.specs.Prelude.{◌≡◌, ℕ, ◌≤◌, length, get_or, IfOk};
ghost use Rattle.hoist_base.specs.LineData.{last_stage, move_count};
ghost use Rattle.hoist_base.specs.Routes.{IsRoute};
ghost use Rattle.hoist_base.specs.Valid.{IsLine};
ghost use Rattle.line_model.specs.Legal.{IsLegal};
ghost use Rattle.timetable.specs.TimetableData.{timetable_of, IsTimetableOf};
ghost use Rattle.timetable.specs.PartsData.{data_of};
ghost use Rattle.answer_text.specs.Answers.{HasSmallPath};
ghost use Rattle.node_expand.specs.Plannable.{IsPlannable};
ghost use Rattle.path_envelope.specs.Duties.{duties};
ghost use Rattle.path_envelope.specs.Envelope.{AreLowest};
ghost use Rattle.planning.specs.Planned.{IsPlan};
ghost use Rattle.planning.specs.Lists.{HasSmallTicks, AreStarts, AreLoaded, ArePuts, AreOffs};

use hoist_base::{Line, MoveId, Route};
use move_list::{duration, motion_of};
use node_expand::Solved;
use path_envelope::{Traced, paths};
use std::alloc::{AllocError, Global};
use timetable::{Timetable, TimetableParts};

// The starts of all moves: the load time after their ticks, so that the first carrier is put on at tick 0.
fn starts_of(alloc: Global, load: u32, ticks: &[i64]) -> Result<Vec<u64>, AllocError>
    requires small { load ≤ 20000 }
    requires ticks { HasSmallTicks ticks.now }
    ensures { IfOk result (λ starts. AreStarts load ticks.now starts.items) }
{
    let mut starts = vec![in alloc; 0; ticks.len()]?;
    for i in 0..ticks.len() {
        starts[i] = (ticks[i] + load as i64) as u64;
    }
    Ok(starts)
}

// When each carrier is put on: the load time before its first move starts.
fn puts_of(alloc: Global, line: &Line, starts: &[u64]) -> Result<Vec<u64>, AllocError>
    requires count { length starts.now ≡ move_count line.now }
    requires loaded { AreLoaded line.now starts.now }
    ensures { IfOk result (λ puts. ArePuts line.now starts.now puts.items) }
{
    let mut puts = vec![in alloc; 0; line.degree() as usize]?;
    for carrier in 0..line.degree() {
        let first = line.move_number(MoveId { carrier, step: 0 });
        puts[carrier as usize] = starts[first as usize] - line.load() as u64;
    }
    Ok(puts)
}

// When each carrier is taken off: the unload time after its last move has ended.
fn offs_of(
    alloc: Global,
    line: &Line,
    route: &Route,
    starts: &[u64],
) -> Result<Vec<u64>, AllocError>
    requires route { IsRoute line.now route.now }
    requires count { length starts.now ≡ move_count line.now }
    requires small { (i : ℕ) → get_or starts.now i 0 ≤ 900000000 }
    ensures { IfOk result (λ offs. AreOffs line.now route.now starts.now offs.items) }
{
    let step = line.inner();
    let mut offs = vec![in alloc; 0; line.degree() as usize]?;
    for carrier in 0..line.degree() {
        let last = MoveId { carrier, step };
        let start = starts[line.move_number(last) as usize];
        let end = start + duration(motion_of(line, route, last)) as u64;
        offs[carrier as usize] = end + line.unload() as u64;
    }
    Ok(offs)
}

// The lowest paths; no two moves of a plan contradict one another.
fn paths_of(
    alloc: Global,
    line: &Line,
    solved: &Solved,
    starts: &[u64],
) -> Result<Vec<u32>, AllocError>
    requires valid { IsLine line.now }
    requires plannable { IsPlannable line.now solved.now }
    requires starts { AreStarts line.now.load solved.now.ticks starts.now }
    ensures { IfOk result (λ rows. AreLowest line.now
        (duties line.now solved.now.tanks solved.now.period starts.now solved.now.hoists) rows.items) }
{
    let hoists = solved.hoists.as_slice();
    let traced = paths(alloc, line, &solved.tanks, solved.period, starts, hoists)?;
    match traced {
        Traced::Made(rows) => Ok(rows),
        Traced::Clashing { .. } => unreachable!(),
    }
}

// The lists of the plan.
fn parts_of(alloc: Global, line: &Line, solved: &Solved) -> Result<TimetableParts, AllocError>
    requires { IsPlannable line.now solved.now }
    ensures plan { IfOk result (λ parts. IsPlan line.now solved.now (data_of (last_stage line.now) parts)) }
    ensures fits { IfOk result (λ parts. IsTimetableOf line.now (data_of (last_stage line.now) parts)) }
    ensures valid { IsLine line.now }
{
    let start = starts_of(alloc, line.load(), solved.ticks.as_slice())?;
    let put = puts_of(alloc, line, start.as_slice())?;
    let off = offs_of(alloc, line, &solved.tanks, start.as_slice())?;
    let path = paths_of(alloc, line, solved, start.as_slice())?;
    let hoist = Vec::from_slice(alloc, solved.hoists.as_slice())?;
    let tank = Vec::from_slice(alloc, solved.tanks.as_slice())?;
    Ok(TimetableParts {
        period: solved.period,
        put,
        off,
        start,
        hoist,
        path,
        tank,
    })
}

/// The timetable of a solved path, which is legal.
///
/// Its period, tanks and hoists are those of the path. Its moves start at their ticks, moved by the load time, so that
/// carrier 0 is put on at tick 0. Each carrier is put on and taken off without waiting, and the hoists keep as low as
/// their moves let them.
pub fn plan(alloc: Global, line: &Line, solved: &Solved) -> Result<Timetable, AllocError>
    requires { IsPlannable line.now solved.now }
    ensures plan { IfOk result (λ t. IsPlan line.now solved.now t) }
    ensures legal { IfOk result (λ t. IsLegal line.now (timetable_of t)) }
    ensures fits { IfOk result (λ t. IsTimetableOf line.now t) }
    ensures small { IfOk result HasSmallPath }
{
    let parts = parts_of(alloc, line, solved)?;
    Ok(Timetable::new(line, parts))
}
