// The lines of a timetable, read from the front of the bytes.
ghost use Rattle.std.specs.Prelude.{◌≡◌, ◌<◌, ◌≤◌, length, get_or, codes};
ghost use Rattle.hoist_base.specs.LineData.{IsStageOf, move_count, visit_count};
ghost use Rattle.timetable.specs.TimetableData.{last_tick};
ghost use Rattle.field_reading.specs.Reading.{word_at, number_at, both_at, ended, items_at, with_front};
ghost use Rattle.field_reading.specs.Gives.{Gives};
ghost use Rattle.answer_read.specs.Tables.{carrier_at, carriers_at, chosen_at, choice_at, choices_at, move_at};
ghost use Rattle.answer_read.specs.Tables.{moves_at};
ghost use Rattle.answer_read.specs.Tables.{position_at, path_at, paths_at, table_at, timetable_at};

use answer_text::{LAST_TICK, MOST_PERIOD, MOST_POSITION};
use field_reading::{Stop, known_number, known_pair, number, word};
use hoist_base::{Line, VisitId};
use std::alloc::Global;
use timetable::{Timetable, TimetableParts};

/// A tick, a word, and a number up to `most`, to the end of the line.
fn two_numbers<'a>(
    between: &[u8],
    most: u32,
    bytes: &'a [u8],
) -> Result<((u64, u32), &'a [u8]), Stop>
    ensures { Gives (λ x. (x.0, x.1.now)) result (ended
        (both_at (number_at 0 last_tick) between.now (number_at 0 most) bytes.now)) }
{
    let (first, rest) = number(0, LAST_TICK, bytes)?;
    let rest = word(between, rest)?;
    let (second, rest) = number(0, most, rest)?;
    let rest = word(b"\n", rest)?;
    Ok(((u64::from(first), second), rest))
}

/// The line of carrier `c`: when it is put on and taken off.
#[tactic(auto, unfolding(crate::specs::Tables::carrier_at))]
fn carrier(c: u32, bytes: &[u8]) -> Result<((u64, u32), &[u8]), Stop>
    ensures { Gives (λ x. (x.0, x.1.now)) result (carrier_at c bytes.now) }
{
    let rest = word(b"carrier ", bytes)?;
    let rest = known_number(c, rest)?;
    let rest = word(b" put ", rest)?;
    two_numbers(b" off ", LAST_TICK, rest)
}

/// The lines of the carriers.
#[tactic(auto, unfolding(crate::specs::Tables::carriers_at))]
fn carriers(alloc: Global, count: u32, bytes: &[u8]) -> Result<((Vec<u64>, Vec<u64>), &[u8]), Stop>
    ensures { Gives (λ x. ((x.0.0.items, x.0.1.items), x.1.now)) result (carriers_at count bytes.now) }
{
    let mut put = Vec::with_capacity(alloc, count as usize)?;
    let mut off = Vec::with_capacity(alloc, count as usize)?;
    let mut rest = bytes;
    for c in 0..count {
        let ((first, last), after) = carrier(c, rest)?;
        put.push(first)?;
        off.push(u64::from(last))?;
        rest = after;
    }
    Ok(((put, off), rest))
}

/// The line of a stage that has several tanks: which of them the carrier uses.
#[tactic(auto, unfolding(crate::specs::Tables::chosen_at))]
fn chosen<'a>(line: &Line, v: VisitId, bytes: &'a [u8]) -> Result<(u32, &'a [u8]), Stop>
    requires { IsStageOf line.now v.stage }
    ensures { Gives (λ x. (x.0, x.1.now)) result (chosen_at line.now v bytes.now) }
{
    let tanks = line.stages()[v.stage as usize].tanks.as_slice();
    let rest = word(b"choice ", bytes)?;
    let rest = known_pair(v.carrier, v.stage, rest)?;
    let rest = word(b" ", rest)?;
    let (j, rest) = number(0, tanks.len() as u32 - 1, rest)?;
    let rest = word(b"\n", rest)?;
    Ok((tanks[j as usize], rest))
}

/// The tank of the visit with this number: nothing is written of a stage with one tank.
#[tactic(auto, unfolding(crate::specs::Tables::choice_at))]
fn choice<'a>(line: &Line, number: u32, bytes: &'a [u8]) -> Result<(u32, &'a [u8]), Stop>
    requires { number < visit_count line.now }
    ensures { Gives (λ x. (x.0, x.1.now)) result (choice_at line.now number bytes.now) }
{
    let v = line.visit_at(number);
    let tanks = line.stages()[v.stage as usize].tanks.as_slice();
    if tanks.len() > 1 {
        chosen(line, v, bytes)
    } else {
        Ok((tanks[0], bytes))
    }
}

/// The tanks of all visits.
#[tactic(auto, unfolding(crate::specs::Tables::choices_at))]
fn choices<'a>(alloc: Global, line: &Line, bytes: &'a [u8]) -> Result<(Vec<u32>, &'a [u8]), Stop>
    ensures { Gives (λ x. (x.0.items, x.1.now)) result (choices_at line.now bytes.now) }
{
    let count = line.visit_count();
    let mut tanks = Vec::with_capacity(alloc, count as usize)?;
    let mut rest = bytes;
    for number in 0..count {
        let (tank, after) = choice(line, number, rest)?;
        tanks.push(tank)?;
        rest = after;
    }
    Ok((tanks, rest))
}

/// The line of the move with this number: when it starts, and its hoist.
#[tactic(auto, unfolding(crate::specs::Tables::move_at))]
fn move_line<'a>(line: &Line, number: u32, bytes: &'a [u8]) -> Result<((u64, u32), &'a [u8]), Stop>
    requires { number < move_count line.now }
    ensures { Gives (λ x. (x.0, x.1.now)) result (move_at line.now number bytes.now) }
{
    let m = line.move_at(number);
    let rest = word(b"move ", bytes)?;
    let rest = known_pair(m.carrier, m.step, rest)?;
    let rest = word(b" start ", rest)?;
    two_numbers(b" hoist ", line.hoists() - 1, rest)
}

/// The lines of the moves.
#[tactic(auto, unfolding(crate::specs::Tables::moves_at))]
fn moves<'a>(
    alloc: Global,
    line: &Line,
    bytes: &'a [u8],
) -> Result<((Vec<u64>, Vec<u32>), &'a [u8]), Stop>
    ensures { Gives (λ x. ((x.0.0.items, x.0.1.items), x.1.now)) result (moves_at line.now bytes.now) }
{
    let count = line.move_count();
    let mut start = Vec::with_capacity(alloc, count as usize)?;
    let mut hoist = Vec::with_capacity(alloc, count as usize)?;
    let mut rest = bytes;
    for number in 0..count {
        let ((tick, by), after) = move_line(line, number, rest)?;
        start.push(tick)?;
        hoist.push(by)?;
        rest = after;
    }
    Ok(((start, hoist), rest))
}

#[tactic(auto, unfolding(crate::specs::Tables::position_at))]
fn position(bytes: &[u8]) -> Result<(u32, &[u8]), Stop>
    ensures { Gives (λ x. (x.0, x.1.now)) result (position_at bytes.now) }
{
    let rest = word(b" ", bytes)?;
    number(0, MOST_POSITION, rest)
}

/// Puts so many positions behind those in `path`.
fn positions<'a>(path: &mut Vec<u32>, count: u32, bytes: &'a [u8]) -> Result<&'a [u8], Stop>
    ensures { Gives (λ x. (path.new.items, x.now)) result
        (with_front path.old.items (items_at (λ t. position_at) 0 count bytes.now)) }
{
    let mut rest = bytes;
    for t in 0..count {
        let (at, after) = position(rest)?;
        path.push(at)?;
        rest = after;
    }
    Ok(rest)
}

/// The line of hoist `h`: puts its positions behind those in `path`.
#[tactic(auto, unfolding(crate::specs::Tables::path_at))]
fn path_line<'a>(
    path: &mut Vec<u32>,
    h: u32,
    period: u32,
    bytes: &'a [u8],
) -> Result<&'a [u8], Stop>
    ensures { Gives (λ x. (path.new.items, x.now)) result (with_front path.old.items (path_at period h bytes.now)) }
{
    let rest = word(b"path ", bytes)?;
    let rest = known_number(h, rest)?;
    let rest = positions(path, period, rest)?;
    word(b"\n", rest)
}

/// The lines of the hoists.
#[tactic(auto, unfolding(crate::specs::Tables::paths_at))]
fn paths(alloc: Global, hoists: u32, period: u32, bytes: &[u8]) -> Result<(Vec<u32>, &[u8]), Stop>
    ensures { Gives (λ x. (x.0.items, x.1.now)) result (paths_at hoists period bytes.now) }
{
    let mut path = Vec::new(alloc);
    let mut rest = bytes;
    for h in 0..hoists {
        rest = path_line(&mut path, h, period, rest)?;
    }
    Ok((path, rest))
}

/// A timetable: its period, and a line for each carrier, each stage with several tanks, each move and each hoist.
#[tactic(auto, unfolding(crate::specs::Tables::table_at))]
fn table<'a>(alloc: Global, line: &Line, bytes: &'a [u8]) -> Result<(Timetable, &'a [u8]), Stop>
    ensures { Gives (λ x. (x.0, x.1.now)) result (table_at line.now bytes.now) }
{
    let (period, rest) = number(1, MOST_PERIOD, bytes)?;
    let rest = word(b"\n", rest)?;
    let ((put, off), rest) = carriers(alloc, line.degree(), rest)?;
    let (tank, rest) = choices(alloc, line, rest)?;
    let ((start, hoist), rest) = moves(alloc, line, rest)?;
    let (path, rest) = paths(alloc, line.hoists(), period, rest)?;
    let parts = TimetableParts {
        period,
        put,
        off,
        start,
        hoist,
        path,
        tank,
    };
    Ok((Timetable::new(line, parts), rest))
}

/// The word none, or a timetable.
#[tactic(auto, unfolding(crate::specs::Tables::timetable_at))]
pub(crate) fn timetable<'a>(
    alloc: Global,
    line: &Line,
    bytes: &'a [u8],
) -> Result<(Option<Timetable>, &'a [u8]), Stop>
    ensures { Gives (λ x. (x.0, x.1.now)) result (timetable_at line.now bytes.now) }
{
    match bytes {
        [b'n', ..] => {
            let rest = word(b"none\n", bytes)?;
            Ok((None, rest))
        }
        _ => {
            let (table, rest) = table(alloc, line, bytes)?;
            Ok((Some(table), rest))
        }
    }
}
