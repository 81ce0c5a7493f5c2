// The parts of a line.
ghost use Rattle.std.specs.Prelude.{◌≡◌, ◌<◌, length, get_or, IfOk};
ghost use Rattle.hoist_base.specs.LineData.{IsStageOf};
ghost use Rattle.hoist_base.specs.LineData as lines;
ghost use Rattle.serde_json.specs.Data.{string};
ghost use Rattle.serde_json.specs.View.{view};
ghost use Rattle.report_json.specs.Document as document;

use hoist_base::Line;
use serde_json::{Value, json};
use std::alloc::{AllocError, Global};

/// The name of a tank.
fn tank_name(alloc: Global, line: &Line, tank: u32) -> Result<Value, AllocError>
    requires { tank < length line.now.tanks }
    ensures { IfOk result (λ v. view v ≡ string (lines.tank line.now tank).name) }
{
    let bytes = line.tanks()[tank as usize].name.as_slice();
    let name = String::from_utf8_lossy(alloc, bytes)?;
    Ok(Value::from(name))
}

/// A tank: its position, and its name.
#[tactic(auto, unfolding(crate::specs::Document::tank_value))]
fn tank(alloc: Global, line: &Line, tank: u32) -> Result<Value, AllocError>
    requires { tank < length line.now.tanks }
    ensures { IfOk result (λ v. view v ≡ document.tank_value line.now tank) }
{
    let name = tank_name(alloc, line, tank)?;
    json!(in alloc; {"at": line.at(tank), "name": name})
}

/// The tanks.
#[tactic(auto, using(crate::proofs::Lists::one_more))]
fn tanks(alloc: Global, line: &Line) -> Result<Value, AllocError>
    ensures { IfOk result (λ v. view v ≡ document.listed (document.tank_value line.now) (length line.now.tanks)) }
{
    let mut values = Vec::new(alloc);
    for i in 0..line.tanks().len() as u32 {
        let value = tank(alloc, line, i)?;
        values.push(value)?;
    }
    Ok(Value::from(values))
}

/// The numbers of the tanks of a stage.
#[tactic(auto, using(crate::proofs::Lists::one_more))]
fn tanks_of(alloc: Global, line: &Line, k: u32) -> Result<Value, AllocError>
    requires { IsStageOf line.now k }
    ensures { IfOk result (λ v. view v
        ≡ document.listed (λ j. document.count (get_or (lines.stage line.now k).tanks j 0))
        (length (lines.stage line.now k).tanks)) }
{
    let numbers = line.stages()[k as usize].tanks.as_slice();
    let mut values = Vec::new(alloc);
    for j in 0..numbers.len() {
        values.push(Value::from(numbers[j]))?;
    }
    Ok(Value::from(values))
}

/// The greatest dwell of a stage, where it has one.
pub(crate) fn most_dwell(line: &Line, k: u32) -> Option<u32>
    requires { IsStageOf line.now k }
    ensures { result ≡ (lines.stage line.now k).max }
{
    line.stages()[k as usize].max
}

/// A stage, with the numbers of its tanks.
#[tactic(auto, unfolding(crate::specs::Document::stage_value))]
fn stage(alloc: Global, line: &Line, k: u32) -> Result<Value, AllocError>
    requires { IsStageOf line.now k }
    ensures { IfOk result (λ v. view v ≡ document.stage_value line.now k) }
{
    let tanks = tanks_of(alloc, line, k)?;
    let stage = &line.stages()[k as usize];
    json!(in alloc; {
        "lift": stage.lift,
        "lower": stage.lower,
        "max": most_dwell(line, k),
        "min": stage.min,
        "tanks": tanks
    })
}

/// The stages.
#[tactic(auto, using(crate::proofs::Lists::one_more))]
fn stages(alloc: Global, line: &Line) -> Result<Value, AllocError>
    ensures { IfOk result (λ v. view v ≡ document.listed (document.stage_value line.now) (length line.now.stages)) }
{
    let mut values = Vec::new(alloc);
    for k in 0..line.stages().len() as u32 {
        let value = stage(alloc, line, k)?;
        values.push(value)?;
    }
    Ok(Value::from(values))
}

/// The line, as its file has it.
#[tactic(auto, unfolding(crate::specs::Document::line_value))]
pub(crate) fn line_value(alloc: Global, line: &Line) -> Result<Value, AllocError>
    ensures { IfOk result (λ v. view v ≡ document.line_value line.now) }
{
    let stages = stages(alloc, line)?;
    let tanks = tanks(alloc, line)?;
    json!(in alloc; {
        "degree": line.degree(),
        "gap": line.gap(),
        "hoists": line.hoists(),
        "load": line.load(),
        "max_period": line.max_period(),
        "stages": stages,
        "tanks": tanks,
        "track": line.track(),
        "unload": line.unload()
    })
}
