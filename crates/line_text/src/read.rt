// Reading a line file.
ghost use Rattle.std.specs.Prelude.{◌≡◌, ◌≤◌, ◌<◌, IfOk, None, map, length, get_or};
ghost use Rattle.toml.specs.View.{view};
ghost use Rattle.hoist_base.specs.Firsts.{first_some, numbers};
ghost use Rattle.hoist_base.specs.Limits.{max_tanks, max_stages};
ghost use Rattle.line_text.specs.File.{
  no_value,
  tank_tables,
  stage_tables,
  root_why,
  tank_why,
  stage_why,
  tables_why,
  table_read,
  bytes_read,
};

use crate::fields::{
    Field, first_stage_rules, inner_stage_rules, last_stage_rules, root_rules, single_stage_rules,
    tank_rules,
};
use crate::parts::parts_of;
use crate::tables::table_why;
use crate::values::{items_at, number_at};
use crate::why::{LineRead, Place, Why};
use hoist_base::Line;
use std::alloc::{AllocError, Global};
use toml::Value;

#[tactic(auto, using(crate::proofs::Valid::view_at))]
fn item_at(items: &[Value], i: usize) -> &Value
    requires { i < length items.now }
    ensures { view result.now ≡ get_or (map view items.now) i no_value }
{
    &items[i]
}

/// The first fault of the root table by itself.
fn root_why(alloc: Global, root: &Value) -> Result<Option<Why>, AllocError>
    ensures { IfOk result (λ why. why ≡ root_why (view root.now)) }
{
    table_why(alloc, Place::Root, &root_rules(), root)
}

/// The tanks' tables of a root table with no fault.
#[tactic(auto, using(crate::proofs::Valid::few_tanks))]
fn tank_tables(root: &Value) -> &[Value]
    requires { root_why (view root.now) ≡ None }
    ensures tables { map view result.now ≡ tank_tables (view root.now) }
    ensures few { length result.now ≤ max_tanks }
{
    items_at(root, Field::Tank)
}

/// The stages' tables of a root table with no fault.
#[tactic(auto, using(crate::proofs::Valid::few_stages))]
fn stage_tables(root: &Value) -> &[Value]
    requires { root_why (view root.now) ≡ None }
    ensures tables { map view result.now ≡ stage_tables (view root.now) }
    ensures few { length result.now ≤ max_stages }
{
    items_at(root, Field::Stage)
}

/// The first fault of the table of tank `i` by itself, on a track of this length.
fn tank_why(alloc: Global, track: u32, tanks: &[Value], i: u32) -> Result<Option<Why>, AllocError>
    requires { i < length tanks.now }
    ensures { IfOk result (λ why. why ≡ tank_why track (map view tanks.now) i) }
{
    let table = item_at(tanks, i as usize);
    table_why(alloc, Place::Tank(i), &tank_rules(track), table)
}

/// The first fault of the tanks' tables.
#[tactic(auto, using(hoist_base::proofs::Firsts::numbers_more, hoist_base::proofs::Firsts::numbers_none))]
fn tanks_why(alloc: Global, track: u32, tanks: &[Value]) -> Result<Option<Why>, AllocError>
    requires { length tanks.now ≤ max_tanks }
    ensures { IfOk result (λ why. why ≡ first_some (tank_why track (map view tanks.now)) (numbers (length tanks.now))) }
{
    for i in 0..tanks.len() as u32 {
        if let Some(why) = tank_why(alloc, track, tanks, i)? {
            return Ok(Some(why));
        }
    }
    Ok(None)
}

/// The first fault of the table of stage `k` by itself, in a file of this version.
fn stage_why(
    alloc: Global,
    version: u32,
    stages: &[Value],
    k: u32,
) -> Result<Option<Why>, AllocError>
    requires few { length stages.now ≤ max_stages }
    requires there { k < length stages.now }
    ensures { IfOk result (λ why. why ≡ stage_why version (map view stages.now) k) }
{
    let place = Place::Stage(k);
    let table = item_at(stages, k as usize);
    if k == 0 {
        return table_why(alloc, place, &first_stage_rules(), table);
    }
    if k + 1 == stages.len() as u32 {
        return table_why(alloc, place, &last_stage_rules(), table);
    }
    if version == 1 {
        return table_why(alloc, place, &single_stage_rules(), table);
    }
    table_why(alloc, place, &inner_stage_rules(), table)
}

/// The first fault of the stages' tables.
#[tactic(auto, using(hoist_base::proofs::Firsts::numbers_more, hoist_base::proofs::Firsts::numbers_none))]
fn stages_why(alloc: Global, version: u32, stages: &[Value]) -> Result<Option<Why>, AllocError>
    requires { length stages.now ≤ max_stages }
    ensures { IfOk result (λ why. why ≡ first_some (stage_why version (map view stages.now))
        (numbers (length stages.now))) }
{
    for k in 0..stages.len() as u32 {
        if let Some(why) = stage_why(alloc, version, stages, k)? {
            return Ok(Some(why));
        }
    }
    Ok(None)
}

/// The first fault of the tables, each by itself: the root, the tanks, the stages.
fn tables_why(alloc: Global, root: &Value) -> Result<Option<Why>, AllocError>
    ensures { IfOk result (λ why. why ≡ tables_why (view root.now)) }
{
    let why = root_why(alloc, root)?;
    if why.is_some() {
        return Ok(why);
    }
    let track = number_at(root, Field::Track);
    let why = tanks_why(alloc, track, tank_tables(root))?;
    if why.is_some() {
        return Ok(why);
    }
    let version = number_at(root, Field::Version);
    stages_why(alloc, version, stage_tables(root))
}

fn read_table(alloc: Global, root: &Value) -> Result<LineRead, AllocError>
    ensures { IfOk result (λ read. read ≡ table_read (view root.now)) }
{
    match tables_why(alloc, root)? {
        Some(why) => Ok(LineRead::Refused(why)),
        None => {
            let parts = parts_of(alloc, root)?;
            match parts.first_flaw() {
                Some(flaw) => Ok(LineRead::Refused(Why::of_flaw(flaw))),
                None => Ok(LineRead::Ready(Line::new(parts))),
            }
        }
    }
}

/// Reads a line file. What the bytes give is the line of the file, or the first thing that is wrong with it: that
/// they are no TOML document; then what is wrong with a table by itself, the root, each tank and each stage in turn;
/// then what is wrong between the parts.
///
/// # Errors
///
/// Only for want of memory.
pub fn read_line(alloc: Global, bytes: &[u8]) -> Result<LineRead, AllocError>
    ensures { IfOk result (λ read. read ≡ bytes_read bytes.now) }
{
    match toml::table_from_slice(alloc, bytes) {
        Ok(table) => read_table(alloc, &Value::Table(table)),
        Err(e) => {
            if e.is_memory() {
                Err(AllocError)
            } else {
                Ok(LineRead::Refused(Why::NotToml))
            }
        }
    }
}
