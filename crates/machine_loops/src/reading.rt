// Reading the timetable off the frames of a loop: what each frame tells is noted in the lists of the timetable.
ghost use Rattle.std.specs.Prelude.{◌≡◌, ◌+◌, ◌<◌, Some, length, set, IfOk};
ghost use Rattle.hoist_base.specs.LineData.{IsMove, move_number, move_count, visit_number, visit_count};
ghost use Rattle.hoist_base.specs.Valid.{IsLine};
ghost use Rattle.line_model.specs.Legal.{IsLegal};
ghost use Rattle.timetable.specs.TimetableData.{timetable_of, IsTimetableOf};
ghost use Rattle.machine_loops.specs.Loops.{IsInLine, Shows};
ghost use Rattle.machine_loops.specs.Lists.{scenes};
ghost use Rattle.machine_loops.specs.Reading.{IsReadable, for_ever, IsRester, PutsTo, OffsTo, IsNoted};
ghost use Rattle.machine_loops.specs.Reading.{MovesTo, PathTo, PartsTo};

use crate::seen::{Seen, next_at, seen_at};
use hoist_base::{Line, MoveId, VisitId};
use std::alloc::{AllocError, Global};
use tick_machine::{Carry, Frame, Hold, Rest};
use timetable::{Timetable, TimetableParts};

/// What hoist `h` carries in frame `t`.
fn carry_at(line: &Line, frames: &[Frame], t: usize, h: u32) -> Option<Carry>
    requires closed { IsReadable line.now frames.now }
    requires there { t < length frames.now }
    requires hoist { h < line.now.hoists }
    ensures { result ≡ (scenes frames.now t).carry h }
{
    frames[t].carry[h as usize]
}

/// Where hoist `h` is in frame `t`.
fn place_at(line: &Line, frames: &[Frame], t: usize, h: u32) -> u32
    requires closed { IsReadable line.now frames.now }
    requires there { t < length frames.now }
    requires hoist { h < line.now.hoists }
    ensures { result ≡ (scenes frames.now t).at h }
{
    frames[t].at[h as usize]
}

/// What a tank holds in frame `t`.
fn hold_at(line: &Line, frames: &[Frame], t: usize, tank: u32) -> Option<Hold>
    requires closed { IsReadable line.now frames.now }
    requires there { t < length frames.now }
    requires tank { tank < length line.now.tanks }
    ensures { result ≡ (scenes frames.now t).hold tank }
{
    frames[t].hold[tank as usize]
}

fn resting_carrier(x: Hold) -> Option<u64>
    ensures { IsRester (Some x) result }
{
    match x.rest {
        Rest::Resting(_) => Some(x.carrier),
        _ => None,
    }
}

/// The carrier that rests in a tank in frame `t`.
fn rester(line: &Line, frames: &[Frame], t: usize, tank: u32) -> Option<u64>
    requires closed { IsReadable line.now frames.now }
    requires there { t < length frames.now }
    requires tank { tank < length line.now.tanks }
    ensures { IsRester ((scenes frames.now t).hold tank) result }
{
    match hold_at(line, frames, t, tank) {
        Some(x) => resting_carrier(x),
        None => None,
    }
}

/// A carrier is in the line in frame `t`, so it isn't taken off until then.
fn note_carrier(line: &Line, frames: &[Frame], t: usize, carrier: u64, off: &mut Vec<u64>)
    requires closed { IsReadable line.now frames.now }
    requires there { t < length frames.now }
    requires in_line { IsInLine (scenes frames.now t) carrier }
    requires count { length off.old.items ≡ line.now.degree }
    ensures noted { IsNoted line.now frames.now t carrier off.old.items off.new.items }
    ensures valid { IsLine line.now }
{
    let seen = seen_at(line, frames, t, carrier);
    let c = seen.carrier as usize;
    off[c] = off[c].max(seen.tick + 1);
}

fn note_carried(line: &Line, frames: &[Frame], t: usize, h: u32, off: &mut Vec<u64>)
    requires closed { IsReadable line.now frames.now }
    requires there { t < length frames.now }
    requires hoist { h < line.now.hoists }
    requires read { OffsTo line.now frames.now t h 0 off.old.items }
    ensures read { OffsTo line.now frames.now t (h + 1) 0 off.new.items }
{
    match carry_at(line, frames, t, h) {
        Some(y) => note_carrier(line, frames, t, y.carrier, off),
        None => {}
    }
}

/// Notes all that are carried in frame `t`.
fn note_all_carried(line: &Line, frames: &[Frame], t: usize, off: &mut Vec<u64>)
    requires closed { IsReadable line.now frames.now }
    requires there { t < length frames.now }
    requires read { OffsTo line.now frames.now t 0 0 off.old.items }
    ensures read { OffsTo line.now frames.now t line.now.hoists 0 off.new.items }
    ensures valid { IsLine line.now }
{
    for h in 0..line.hoists() {
        note_carried(line, frames, t, h, off);
    }
}

fn note_resting(line: &Line, frames: &[Frame], t: usize, tank: u32, off: &mut Vec<u64>)
    requires closed { IsReadable line.now frames.now }
    requires there { t < length frames.now }
    requires tank { tank < length line.now.tanks }
    requires read { OffsTo line.now frames.now t line.now.hoists tank off.old.items }
    ensures read { OffsTo line.now frames.now t line.now.hoists (tank + 1) off.new.items }
{
    match rester(line, frames, t, tank) {
        Some(carrier) => note_carrier(line, frames, t, carrier, off),
        None => {}
    }
}

/// Notes all that rest in frame `t`.
fn note_all_resting(line: &Line, frames: &[Frame], t: usize, off: &mut Vec<u64>)
    requires closed { IsReadable line.now frames.now }
    requires there { t < length frames.now }
    requires read { OffsTo line.now frames.now t line.now.hoists 0 off.old.items }
    ensures read { OffsTo line.now frames.now t line.now.hoists (length line.now.tanks) off.new.items }
{
    for tank in 0..line.tanks().len() as u32 {
        note_resting(line, frames, t, tank, off);
    }
}

/// The next carrier isn't put on before the tick after frame `t`.
#[tactic(auto, using(crate::proofs::ReadLemmas::next_from, crate::proofs::ReadLemmas::put_noted, crate::proofs::ReadLemmas::none_put))]
fn note_put(line: &Line, frames: &[Frame], t: usize, put: &mut Vec<u64>)
    requires closed { IsReadable line.now frames.now }
    requires there { t < length frames.now }
    requires read { PutsTo line.now frames.now t put.old.items }
    ensures read { PutsTo line.now frames.now (t + 1) put.new.items }
{
    let degree = u64::from(line.degree());
    let carrier = next_at(frames, t) - next_at(frames, 0);
    if carrier < degree {
        put[carrier as usize] = t as u64 + 1;
    }
}

/// Notes where hoist `h` is in frame `t`.
#[tactic(auto, using(crate::proofs::MoveLemmas::place_noted))]
fn note_place(line: &Line, frames: &[Frame], t: usize, h: u32, path: &mut Vec<u32>)
    requires closed { IsReadable line.now frames.now }
    requires there { t < length frames.now }
    requires hoist { h < line.now.hoists }
    requires read { PathTo line.now frames.now t h path.old.items }
    ensures read { PathTo line.now frames.now t (h + 1) path.new.items }
{
    path[h as usize * frames.len() + t] = place_at(line, frames, t, h);
}

/// Notes where all hoists are in frame `t`.
fn note_places(line: &Line, frames: &[Frame], t: usize, path: &mut Vec<u32>)
    requires closed { IsReadable line.now frames.now }
    requires there { t < length frames.now }
    requires read { PathTo line.now frames.now t 0 path.old.items }
    ensures read { PathTo line.now frames.now t line.now.hoists path.new.items }
{
    for h in 0..line.hoists() {
        note_place(line, frames, t, h, path);
    }
}

/// Notes that hoist `h` begins the carry `y` in frame `t`.
fn note_move(
    line: &Line,
    seen: Seen,
    h: u32,
    y: Carry,
    start: &mut Vec<u64>,
    hoist: &mut Vec<u32>,
    tank: &mut Vec<u32>,
)
    requires there { IsMove line.now seen.carrier y.step }
    requires starts { length start.old.items ≡ move_count line.now }
    requires hoists { length hoist.old.items ≡ move_count line.now }
    requires tanks { length tank.old.items ≡ visit_count line.now }
    ensures start { start.new.items ≡ set start.old.items (move_number line.now seen.carrier y.step) seen.tick }
    ensures hoist { hoist.new.items ≡ set hoist.old.items (move_number line.now seen.carrier y.step) h }
    ensures tank { let from = visit_number line.now seen.carrier y.step in
        let to = visit_number line.now seen.carrier (y.step + 1) in
        tank.new.items ≡ set (set tank.old.items from y.from) to y.to }
    ensures valid { IsLine line.now }
{
    let carrier = seen.carrier;
    let number = line.move_number(MoveId {
        carrier,
        step: y.step,
    }) as usize;
    start[number] = seen.tick;
    hoist[number] = h;
    let from = line.visit_number(VisitId {
        carrier,
        stage: y.step,
    }) as usize;
    let to = line.visit_number(VisitId {
        carrier,
        stage: y.step + 1,
    }) as usize;
    tank[from] = y.from;
    tank[to] = y.to;
}

/// Notes a move that hoist `h` begins in frame `t`, if it does.
fn note_begin(
    line: &Line,
    frames: &[Frame],
    t: usize,
    h: u32,
    start: &mut Vec<u64>,
    hoist: &mut Vec<u32>,
    tank: &mut Vec<u32>,
)
    requires closed { IsReadable line.now frames.now }
    requires there { t < length frames.now }
    requires hoist { h < line.now.hoists }
    requires read { MovesTo line.now frames.now t h start.old.items hoist.old.items tank.old.items }
    ensures read { MovesTo line.now frames.now t (h + 1) start.new.items hoist.new.items tank.new.items }
{
    match carry_at(line, frames, t, h) {
        Some(y) => {
            if y.elapsed == 0 {
                let seen = seen_at(line, frames, t, y.carrier);
                note_move(line, seen, h, y, start, hoist, tank);
            }
        }
        None => {}
    }
}

/// Notes the moves that begin in frame `t`.
fn note_begins(
    line: &Line,
    frames: &[Frame],
    t: usize,
    start: &mut Vec<u64>,
    hoist: &mut Vec<u32>,
    tank: &mut Vec<u32>,
)
    requires closed { IsReadable line.now frames.now }
    requires there { t < length frames.now }
    requires read { MovesTo line.now frames.now t 0 start.old.items hoist.old.items tank.old.items }
    ensures read { MovesTo line.now frames.now t line.now.hoists start.new.items hoist.new.items tank.new.items }
{
    for h in 0..line.hoists() {
        note_begin(line, frames, t, h, start, hoist, tank);
    }
}

/// Notes what frame `t` tells.
fn note_frame(line: &Line, frames: &[Frame], t: usize, parts: &mut TimetableParts)
    requires closed { IsReadable line.now frames.now }
    requires there { t < length frames.now }
    requires read { PartsTo line.now frames.now t parts.old }
    ensures read { PartsTo line.now frames.now (t + 1) parts.new }
{
    note_put(line, frames, t, &mut parts.put);
    note_all_carried(line, frames, t, &mut parts.off);
    note_all_resting(line, frames, t, &mut parts.off);
    note_begins(
        line,
        frames,
        t,
        &mut parts.start,
        &mut parts.hoist,
        &mut parts.tank,
    );
    note_places(line, frames, t, &mut parts.path);
}

/// Parts of a timetable of this line and period in which nothing is written yet.
fn blank(alloc: Global, line: &Line, frames: &[Frame]) -> Result<TimetableParts, AllocError>
    requires closed { IsReadable line.now frames.now }
    ensures blank { IfOk result (PartsTo line.now frames.now 0) }
    ensures valid { IsLine line.now }
{
    let carriers = line.degree() as usize;
    let moves = line.inner() as usize + 1;
    let positions = line.hoists() as usize * frames.len();
    Ok(TimetableParts {
        period: frames.len() as u32,
        put: vec![in alloc; 0; carriers]?,
        off: vec![in alloc; 0; carriers]?,
        start: vec![in alloc; 0; carriers * moves]?,
        hoist: vec![in alloc; 0; carriers * moves]?,
        path: vec![in alloc; 0; positions]?,
        tank: vec![in alloc; 0; carriers * (moves + 1)]?,
    })
}

/// The timetable that the frames of a loop show, read in one pass.
pub(crate) fn shown_timetable(
    alloc: Global,
    line: &Line,
    frames: &[Frame],
) -> Result<Timetable, AllocError>
    requires closed { IsReadable line.now frames.now }
    ensures shows { let period = length frames.now in
        IfOk result (λ t. Shows line.now period (for_ever line.now frames.now) (timetable_of t)) }
    ensures legal { IfOk result (λ t. IsLegal line.now (timetable_of t)) }
    ensures fits { IfOk result (IsTimetableOf line.now) }
{
    let mut parts = blank(alloc, line, frames)?;
    for t in 0..frames.len() {
        note_frame(line, frames, t, &mut parts);
    }
    Ok(Timetable::new(line, parts))
}
