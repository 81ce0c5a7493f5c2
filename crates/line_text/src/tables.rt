// The rules of one table: keys that are absent, unknown, of another kind or out of range.
ghost use Rattle.std.specs.Prelude.{
  ◌≡◌,
  ◌↔◌,
  IfOk,
  IsTrue,
  map,
  Some,
  None,
  not,
  true,
  option_copied,
  option_map,
  length,
  find,
  false,
  string_bytes,
};
ghost use Rattle.std.specs.List.{list_all};
ghost use Rattle.std.specs.BTreeMap.{keys, IsOrdered};
ghost use Rattle.std.specs.String.{string_cmp};
ghost use Rattle.toml.specs.View.{view};
ghost use Rattle.std.specs.Option.{option_map_or};
ghost use Rattle.hoist_base.specs.Firsts.{first_some};
ghost use Rattle.line_text.specs.Values.{elements};
ghost use Rattle.line_text.specs.Tables.{
  key_at,
  missing_why,
  unknown_why,
  kind_why,
  range_why,
  table_why,
  is_kind,
  is_table,
  is_text,
  is_listed,
  is_within,
  is_in_range,
  extent,
  unknown_keys,
  first_text,
};

use crate::fields::{Kind, Rule};
use crate::values::{elements, value_at};
use crate::why::{Key, Place, Why};
use hoist_base::Name;
use std::alloc::{AllocError, Global};
use toml::{Table, Value};

fn key_at(alloc: Global, table: Place, name: &str) -> Result<Key, AllocError>
    ensures { IfOk result (λ key. key ≡ key_at table name.now) }
{
    let bytes = Vec::from_slice(alloc, name.as_bytes())?;
    Ok(Key {
        table,
        name: Name::from_vec(bytes),
    })
}

fn missing_why(
    alloc: Global,
    place: Place,
    table: &Value,
    rule: &Rule,
) -> Result<Option<Why>, AllocError>
    ensures { IfOk result (λ why. why ≡ missing_why place (view table.now) rule.now) }
{
    if !rule.required || value_at(table, rule.field).is_some() {
        return Ok(None);
    }
    let key = key_at(alloc, place, rule.field.name())?;
    Ok(Some(Why::Missing { key }))
}

fn is_kind(kind: Kind, value: &Value) -> bool
    ensures { result ≡ is_kind kind (view value.now) }
{
    match kind {
        Kind::Integer { .. } => value.is_integer(),
        Kind::Text => value.is_str(),
        Kind::Tables { .. } => is_array_of_tables(value),
        Kind::Texts { .. } => is_array_of_texts(value),
    }
}

fn is_array_of_tables(value: &Value) -> bool
    ensures { result ≡ option_map_or (list_all is_table) (elements (view value.now)) false }
{
    match elements(value) {
        Some(items) => all_tables(items),
        None => false,
    }
}

fn all_tables(items: &[Value]) -> bool
    ensures { result ≡ list_all is_table (map view items.now) }
{
    for item in items {
        if !item.is_table() {
            return false;
        }
    }
    true
}

fn is_array_of_texts(value: &Value) -> bool
    ensures { result ≡ option_map_or (list_all is_text) (elements (view value.now)) false }
{
    match elements(value) {
        Some(items) => all_texts(items),
        None => false,
    }
}

fn all_texts(items: &[Value]) -> bool
    ensures { result ≡ list_all is_text (map view items.now) }
{
    for item in items {
        if !item.is_str() {
            return false;
        }
    }
    true
}

fn kind_why(
    alloc: Global,
    place: Place,
    table: &Value,
    rule: &Rule,
) -> Result<Option<Why>, AllocError>
    ensures { IfOk result (λ why. why ≡ kind_why place (view table.now) rule.now) }
{
    let Some(value) = value_at(table, rule.field) else {
        return Ok(None);
    };
    if is_kind(rule.kind, value) {
        return Ok(None);
    }
    let key = key_at(alloc, place, rule.field.name())?;
    Ok(Some(Why::WrongKind { key }))
}

/// What has to be in range: an integer, or the length of an array.
fn extent(value: &Value) -> Option<i64>
    ensures { result ≡ extent (view value.now) }
{
    if let Some(number) = value.as_integer() {
        return Some(number);
    }
    match elements(value) {
        Some(items) => Some(items.len() as i64),
        None => None,
    }
}

fn is_within(low: u32, high: u32, value: i64) -> bool
    ensures { result ≡ is_within low high value }
{
    i64::from(low) <= value && value <= i64::from(high)
}

fn is_in_range(kind: Kind, value: i64) -> bool
    ensures { result ≡ is_in_range kind value }
{
    match kind {
        Kind::Integer { low, high } => is_within(low, high, value),
        Kind::Text => true,
        Kind::Tables { low, high } => is_within(low, high, value),
        Kind::Texts { low, high } => is_within(low, high, value),
    }
}

fn range_why(
    alloc: Global,
    place: Place,
    table: &Value,
    rule: &Rule,
) -> Result<Option<Why>, AllocError>
    ensures { IfOk result (λ why. why ≡ range_why place (view table.now) rule.now) }
{
    let Some(found) = value_at(table, rule.field) else {
        return Ok(None);
    };
    let Some(value) = extent(found) else {
        return Ok(None);
    };
    if is_in_range(rule.kind, value) {
        return Ok(None);
    }
    let key = key_at(alloc, place, rule.field.name())?;
    Ok(Some(Why::Range { key, value }))
}

fn first_missing(
    alloc: Global,
    place: Place,
    table: &Value,
    rules: &[Rule],
) -> Result<Option<Why>, AllocError>
    ensures { IfOk result (λ why. why ≡ first_some (missing_why place (view table.now)) rules.now) }
{
    for rule in rules {
        if let Some(why) = missing_why(alloc, place, table, rule)? {
            return Ok(Some(why));
        }
    }
    Ok(None)
}

fn first_wrong_kind(
    alloc: Global,
    place: Place,
    table: &Value,
    rules: &[Rule],
) -> Result<Option<Why>, AllocError>
    ensures { IfOk result (λ why. why ≡ first_some (kind_why place (view table.now)) rules.now) }
{
    for rule in rules {
        if let Some(why) = kind_why(alloc, place, table, rule)? {
            return Ok(Some(why));
        }
    }
    Ok(None)
}

fn first_out_of_range(
    alloc: Global,
    place: Place,
    table: &Value,
    rules: &[Rule],
) -> Result<Option<Why>, AllocError>
    ensures { IfOk result (λ why. why ≡ first_some (range_why place (view table.now)) rules.now) }
{
    for rule in rules {
        if let Some(why) = range_why(alloc, place, table, rule)? {
            return Ok(Some(why));
        }
    }
    Ok(None)
}

fn is_listed(rules: &[Rule], key: &str) -> bool
    ensures { result ≡ is_listed rules.now key.now }
{
    rules.iter().any(|rule| key == rule.field.name())
}

/// The first key that isn't listed.
fn first_unlisted<'a>(rules: &[Rule], members: &'a Table) -> Option<&'a String>
    ensures found { option_copied result ≡ find (λ key. not (is_listed rules.now (string_bytes key)))
        (keys members.now) }
    ensures ordered { IsOrdered string_cmp members.now }
{
    members.keys().find(|key| !is_listed(rules, key.as_str()))
}

/// The first key in the order of their bytes that isn't listed: a table goes over its keys in that order.
fn unknown_key<'a>(rules: &[Rule], table: &'a Value) -> Option<&'a str>
    ensures { option_copied result ≡ first_text (unknown_keys rules.now (view table.now)) }
{
    let Some(members) = table.as_table() else {
        return None;
    };
    match first_unlisted(rules, members) {
        Some(key) => Some(key.as_str()),
        None => None,
    }
}

fn unknown_why(
    alloc: Global,
    place: Place,
    table: &Value,
    rules: &[Rule],
) -> Result<Option<Why>, AllocError>
    ensures { IfOk result (λ why. why ≡ unknown_why place (view table.now) rules.now) }
{
    let Some(name) = unknown_key(rules, table) else {
        return Ok(None);
    };
    let key = key_at(alloc, place, name)?;
    Ok(Some(Why::Unknown { key }))
}

/// The first fault of a table by itself: a required key is absent, a key is unknown, a value is of another kind, a
/// value is out of range; each is looked for among all keys before the next.
pub fn table_why(
    alloc: Global,
    place: Place,
    rules: &[Rule],
    table: &Value,
) -> Result<Option<Why>, AllocError>
    ensures { IfOk result (λ why. why ≡ table_why place rules.now (view table.now)) }
{
    if let Some(why) = first_missing(alloc, place, table, rules)? {
        return Ok(Some(why));
    }
    if let Some(why) = unknown_why(alloc, place, table, rules)? {
        return Ok(Some(why));
    }
    if let Some(why) = first_wrong_kind(alloc, place, table, rules)? {
        return Ok(Some(why));
    }
    let why = first_out_of_range(alloc, place, table, rules)?;
    Ok(why)
}
