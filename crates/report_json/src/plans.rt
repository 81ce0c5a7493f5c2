// The parts of a timetable.
ghost use Rattle.std.specs.Prelude.{◌≡◌, ◌<◌, length, IfOk};
ghost use Rattle.hoist_base.specs.LineData.{IsMove, IsVisit, move_at, move_count};
ghost use Rattle.timetable.specs.TimetableData.{timetable_of, FitsLine};
ghost use Rattle.serde_json.specs.View.{view};
ghost use Rattle.report_json.specs.Document as document;

use crate::lines::most_dwell;
use hoist_base::{Line, MoveId, VisitId};
use move_list::{duration, motion_of};
use serde_json::{Value, json};
use std::alloc::{AllocError, Global};
use timetable::{Timetable, arrival, departure, least_dwell};

/// A stay: the ticks at which the carrier begins and ends its rest in its tank, the ticks between, and the window of
/// the stage.
#[tactic(auto, unfolding(crate::specs::Document::stay_value))]
fn stay(alloc: Global, line: &Line, t: &Timetable, v: VisitId) -> Result<Value, AllocError>
    requires fits { FitsLine line.now t.now }
    requires there { IsVisit line.now v.carrier v.stage }
    ensures { IfOk result (λ value. view value ≡ document.stay_value line.now (timetable_of t.now) v.carrier v.stage) }
{
    let begin = arrival(line, t, v);
    let end = departure(line, t, v);
    let dwell = end.saturating_sub(begin);
    let max = most_dwell(line, v.stage);
    let min = least_dwell(line, v.stage);
    let tank = t.tank(v);
    json!(in alloc; {
        "begin": begin,
        "dwell": dwell,
        "end": end,
        "max": max,
        "min": min,
        "stage": v.stage,
        "tank": tank
    })
}

/// The stays of a carrier, by stage.
#[tactic(auto, using(crate::proofs::Lists::one_more))]
fn stays(alloc: Global, line: &Line, t: &Timetable, c: u32) -> Result<Value, AllocError>
    requires fits { FitsLine line.now t.now }
    requires there { c < line.now.degree }
    ensures { IfOk result (λ v. view v
        ≡ document.listed (document.stay_value line.now (timetable_of t.now) c) (length line.now.stages)) }
{
    let mut values = Vec::new(alloc);
    for stage in 0..line.stages().len() as u32 {
        let visit = VisitId { carrier: c, stage };
        let value = stay(alloc, line, t, visit)?;
        values.push(value)?;
    }
    Ok(Value::from(values))
}

/// A carrier, with its stays.
#[tactic(auto, unfolding(crate::specs::Document::carrier_value))]
fn carrier(alloc: Global, line: &Line, t: &Timetable, c: u32) -> Result<Value, AllocError>
    requires fits { FitsLine line.now t.now }
    requires there { c < line.now.degree }
    ensures { IfOk result (λ v. view v ≡ document.carrier_value line.now (timetable_of t.now) c) }
{
    let stays = stays(alloc, line, t, c)?;
    json!(in alloc; {"carrier": c, "off": t.off(c), "put": t.put(c), "stays": stays})
}

/// The carriers that enter in a period.
#[tactic(auto, using(crate::proofs::Lists::one_more))]
pub(crate) fn carriers(alloc: Global, line: &Line, t: &Timetable) -> Result<Value, AllocError>
    requires { FitsLine line.now t.now }
    ensures { IfOk result (λ v. view v
        ≡ document.listed (document.carrier_value line.now (timetable_of t.now)) line.now.degree) }
{
    let mut values = Vec::new(alloc);
    for c in 0..line.degree() {
        let value = carrier(alloc, line, t, c)?;
        values.push(value)?;
    }
    Ok(Value::from(values))
}

/// A move: its hoist, and the ticks at which it starts and ends.
#[tactic(auto, unfolding(crate::specs::Document::move_value))]
fn carry(alloc: Global, line: &Line, t: &Timetable, m: MoveId) -> Result<Value, AllocError>
    requires fits { FitsLine line.now t.now }
    requires there { IsMove line.now m.carrier m.step }
    ensures { IfOk result (λ v. view v ≡ document.move_value line.now (timetable_of t.now) m.carrier m.step) }
{
    let start = t.start(m);
    let end = start + duration(motion_of(line, t.route(), m)) as u64;
    json!(in alloc; {
        "carrier": m.carrier,
        "end": end,
        "hoist": t.hoist(m),
        "start": start,
        "step": m.step
    })
}

/// The moves of a period, by carrier and step.
#[tactic(auto, using(crate::proofs::Lists::one_more))]
pub(crate) fn moves(alloc: Global, line: &Line, t: &Timetable) -> Result<Value, AllocError>
    requires { FitsLine line.now t.now }
    ensures { IfOk result (λ v. view v
        ≡ document.listed (λ i. document.move_value line.now (timetable_of t.now) (move_at line.now i).carrier
        (move_at line.now i).step)
        (move_count line.now)) }
{
    let mut values = Vec::new(alloc);
    for i in 0..line.move_count() {
        let value = carry(alloc, line, t, line.move_at(i))?;
        values.push(value)?;
    }
    Ok(Value::from(values))
}

/// The position of a hoist at each tick of the period.
#[tactic(auto, using(crate::proofs::Lists::one_more))]
fn positions(alloc: Global, line: &Line, t: &Timetable, h: u32) -> Result<Value, AllocError>
    requires fits { FitsLine line.now t.now }
    requires there { h < line.now.hoists }
    ensures { IfOk result (λ v. view v
        ≡ document.listed (λ tick. document.count ((timetable_of t.now).path h tick)) t.now.period) }
{
    let mut values = Vec::with_capacity(alloc, t.period() as usize)?;
    for tick in 0..t.period() {
        values.push(Value::from(t.path(h, tick)))?;
    }
    Ok(Value::from(values))
}

/// A hoist, with its positions.
#[tactic(auto, unfolding(crate::specs::Document::hoist_value))]
fn hoist(alloc: Global, line: &Line, t: &Timetable, h: u32) -> Result<Value, AllocError>
    requires fits { FitsLine line.now t.now }
    requires there { h < line.now.hoists }
    ensures { IfOk result (λ v. view v ≡ document.hoist_value (timetable_of t.now) h) }
{
    let positions = positions(alloc, line, t, h)?;
    json!(in alloc; {"hoist": h, "positions": positions})
}

/// The hoists.
#[tactic(auto, using(crate::proofs::Lists::one_more))]
pub(crate) fn hoists(alloc: Global, line: &Line, t: &Timetable) -> Result<Value, AllocError>
    requires { FitsLine line.now t.now }
    ensures { IfOk result (λ v. view v ≡ document.listed (document.hoist_value (timetable_of t.now)) line.now.hoists) }
{
    let mut values = Vec::new(alloc);
    for h in 0..line.hoists() {
        let value = hoist(alloc, line, t, h)?;
        values.push(value)?;
    }
    Ok(Value::from(values))
}
