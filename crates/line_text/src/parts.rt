// The parts of the line that a file describes.
ghost use Rattle.std.specs.Prelude.{◌≡◌, ◌≤◌, ◌++◌, ℕ, List, [], IfOk, OnOk, map, length, unwrap_or};
ghost use Rattle.std.specs.Option.{option_or};
ghost use Rattle.std.specs.List.{filter_map, cons_option};
ghost use Rattle.std.specs.Str.{bytes_eq};
ghost use Rattle.toml.specs.Data.{as_str};
ghost use Rattle.toml.specs.View.{view};
ghost use Rattle.indexmap.specs.IndexMap.{get_by_text};
ghost use Rattle.hoist_base.specs.declared.tank.Tank.{Tank};
ghost use Rattle.hoist_base.specs.PartsData.{data_of};
ghost use Rattle.line_text.specs.Values.{items_at};
ghost use Rattle.hoist_base.specs.Firsts.{given};
ghost use Rattle.hoist_base.specs.Limits.{max_tanks};
ghost use Rattle.line_text.specs.File.{tank_of, tank_tables, stage_of, stage_names, line_of};
ghost use Rattle.line_text.specs.Names.{IsNumbering};

use crate::fields::Field;
use crate::values::{items_at, number_at, number_if, text_at, text_if};
use hoist_base::{LineParts, Name, Stage, Tank, Tanks};
use indexmap::IndexMap;
use std::alloc::{AllocError, Global};
use toml::Value;

fn tank_of(alloc: Global, table: &Value) -> Result<Tank, AllocError>
    ensures { IfOk result (λ tank. tank ≡ tank_of (view table.now)) }
{
    let name = Vec::from_slice(alloc, text_at(table, Field::Name).as_bytes())?;
    Ok(Tank {
        name: Name::from_vec(name),
        at: number_at(table, Field::At),
    })
}

fn tanks_of(alloc: Global, tables: &[Value]) -> Result<Vec<Tank>, AllocError>
    ensures { IfOk result (λ tanks. tanks.items ≡ map tank_of (map view tables.now)) }
{
    let mut tanks = Vec::with_capacity(alloc, tables.len())?;
    for table in tables {
        tanks.push(tank_of(alloc, table)?)?;
    }
    Ok(tanks)
}

/// Gives a name the number, unless it has one.
fn add_name(
    alloc: Global,
    numbers: &mut IndexMap<String, u32>,
    name: &str,
    number: u32,
) -> Result<(), AllocError>
    ensures { OnOk result ((q : List ℕ) → get_by_text numbers.new q
        ≡ option_or (get_by_text numbers.old q) (given (bytes_eq q name.now) number)) }
{
    if numbers.contains_key(name) {
        return Ok(());
    }
    let key = String::from_str(alloc, name)?;
    match numbers.insert(key, number) {
        Ok(_) => Ok(()),
        Err(_) => Err(AllocError),
    }
}

/// The tanks' numbers by their names.
fn numbers_of(alloc: Global, tables: &[Value]) -> Result<IndexMap<String, u32>, AllocError>
    requires { length tables.now ≤ max_tanks }
    ensures { IfOk result (λ numbers. IsNumbering numbers (map tank_of (map view tables.now))) }
{
    let mut numbers = IndexMap::new(alloc);
    for i in 0..tables.len() {
        add_name(
            alloc,
            &mut numbers,
            text_at(&tables[i], Field::Name),
            i as u32,
        )?;
    }
    Ok(numbers)
}

/// The number of a name, `count` where it has none.
fn number_of(numbers: &IndexMap<String, u32>, count: u32, name: &str) -> u32
    ensures { result ≡ unwrap_or (get_by_text numbers.now name.now) count }
{
    match numbers.get(name) {
        Some(number) => *number,
        None => count,
    }
}

/// Puts the number of the item behind those found, where it is a text.
fn push_tank_number(
    found: &mut Vec<u32>,
    numbers: &IndexMap<String, u32>,
    count: u32,
    item: &Value,
) -> Result<(), AllocError>
    ensures { OnOk result (found.new.items
        ≡ found.old.items ++ map (λ name. unwrap_or (get_by_text numbers.now name) count)
        (cons_option (as_str (view item.now)) [])) }
{
    if let Some(name) = item.as_str() {
        found.push(number_of(numbers, count, name))?;
    }
    Ok(())
}

/// The numbers of the texts among the items.
#[tactic(auto, using(crate::proofs::Numbering::texts_more))]
fn numbers_among(
    alloc: Global,
    numbers: &IndexMap<String, u32>,
    count: u32,
    items: &[Value],
) -> Result<Vec<u32>, AllocError>
    ensures { IfOk result (λ found. found.items
        ≡ map (λ name. unwrap_or (get_by_text numbers.now name) count) (filter_map as_str (map view items.now))) }
{
    let mut found = Vec::new(alloc);
    for item in items {
        push_tank_number(&mut found, numbers, count, item)?;
    }
    Ok(found)
}

/// The numbers of a stage's tanks.
fn stage_tanks(
    alloc: Global,
    numbers: &IndexMap<String, u32>,
    count: u32,
    table: &Value,
) -> Result<Vec<u32>, AllocError>
    ensures { IfOk result (λ found. found.items
        ≡ map (λ name. unwrap_or (get_by_text numbers.now name) count) (stage_names (view table.now))) }
{
    if let Some(name) = text_if(table, Field::Tank) {
        let mut only = Vec::new(alloc);
        only.push(number_of(numbers, count, name))?;
        return Ok(only);
    }
    numbers_among(alloc, numbers, count, items_at(table, Field::Tanks))
}

fn stage_of(
    alloc: Global,
    numbers: &IndexMap<String, u32>,
    count: u32,
    table: &Value,
) -> Result<Stage, AllocError>
    ensures { (tanks : List Tank) → IsNumbering numbers.now tanks → count ≡ length tanks
        → IfOk result (λ stage. stage ≡ stage_of tanks (view table.now)) }
{
    let tanks = stage_tanks(alloc, numbers, count, table)?;
    Ok(Stage {
        tanks: Tanks::from_vec(tanks),
        min: number_at(table, Field::Min),
        max: number_if(table, Field::Max),
        lift: number_at(table, Field::Lift),
        lower: number_at(table, Field::Lower),
    })
}

fn stages_of(
    alloc: Global,
    numbers: &IndexMap<String, u32>,
    count: u32,
    tables: &[Value],
) -> Result<Vec<Stage>, AllocError>
    ensures { (tanks : List Tank) → IsNumbering numbers.now tanks → count ≡ length tanks
        → IfOk result (λ stages. stages.items ≡ map (stage_of tanks) (map view tables.now)) }
{
    let mut stages = Vec::with_capacity(alloc, tables.len())?;
    for table in tables {
        stages.push(stage_of(alloc, numbers, count, table)?)?;
    }
    Ok(stages)
}

/// The parts of the line that a root table describes. A name that no tank has gets the number past the last tank.
pub fn parts_of(alloc: Global, root: &Value) -> Result<LineParts, AllocError>
    requires { length (tank_tables (view root.now)) ≤ max_tanks }
    ensures { IfOk result (λ parts. data_of parts ≡ line_of (view root.now)) }
{
    let tables = items_at(root, Field::Tank);
    let tanks = tanks_of(alloc, tables)?;
    let numbers = numbers_of(alloc, tables)?;
    let stages = stages_of(
        alloc,
        &numbers,
        tables.len() as u32,
        items_at(root, Field::Stage),
    )?;
    Ok(LineParts {
        track: number_at(root, Field::Track),
        gap: number_at(root, Field::Gap),
        hoists: number_at(root, Field::Hoists),
        degree: number_at(root, Field::Degree),
        max_period: number_at(root, Field::MaxPeriod),
        load: number_at(root, Field::Load),
        unload: number_at(root, Field::Unload),
        tanks,
        stages,
    })
}
