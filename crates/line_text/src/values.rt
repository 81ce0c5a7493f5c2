// What stands at the keys of a table.
ghost use Rattle.std.specs.Prelude.{◌≡◌, option_map, option_copied, map};
ghost use Rattle.toml.specs.View.{view};
ghost use Rattle.line_text.specs.Values.{
  value_at,
  integer_at,
  number_if,
  number_at,
  text_if,
  text_at,
  items_at,
  natural,
  elements,
};

use crate::fields::Field;
use toml::Value;

/// The value at a key.
pub fn value_at(table: &Value, field: Field) -> Option<&Value>
    ensures { option_map (λ v. view v.now) result ≡ value_at (view table.now) field }
{
    table.get(field.name())
}

/// The integer at a key.
pub fn integer_at(table: &Value, field: Field) -> Option<i64>
    ensures { result ≡ integer_at (view table.now) field }
{
    match value_at(table, field) {
        Some(value) => value.as_integer(),
        None => None,
    }
}

fn natural(number: i64) -> u32
    ensures { result ≡ natural number }
{
    if number < 0 || number > 0xffff_ffff {
        0
    } else {
        number as u32
    }
}

/// The number at a key that may be absent.
pub fn number_if(table: &Value, field: Field) -> Option<u32>
    ensures { result ≡ number_if (view table.now) field }
{
    match integer_at(table, field) {
        Some(number) => Some(natural(number)),
        None => None,
    }
}

/// The number at a key, 0 where it is absent.
pub fn number_at(table: &Value, field: Field) -> u32
    ensures { result ≡ number_at (view table.now) field }
{
    match integer_at(table, field) {
        Some(number) => natural(number),
        None => 0,
    }
}

/// The string at a key.
pub fn text_if(table: &Value, field: Field) -> Option<&str>
    ensures { option_copied result ≡ text_if (view table.now) field }
{
    match value_at(table, field) {
        Some(value) => value.as_str(),
        None => None,
    }
}

/// The string at a key, empty where it is absent.
pub fn text_at(table: &Value, field: Field) -> &str
    ensures { result.now ≡ text_at (view table.now) field }
{
    match text_if(table, field) {
        Some(text) => text,
        None => "",
    }
}

/// The items of a value that is an array.
#[tactic(auto, using(crate::proofs::Items::list_of_items))]
pub fn elements(value: &Value) -> Option<&[Value]>
    ensures { option_map (λ items. map view items.now) result ≡ elements (view value.now) }
{
    match value.as_array() {
        Some(items) => Some(items.as_slice()),
        None => None,
    }
}

/// The items of the array at a key; none where there is no array.
pub fn items_at(table: &Value, field: Field) -> &[Value]
    ensures { map view result.now ≡ items_at (view table.now) field }
{
    let Some(value) = value_at(table, field) else {
        return &[];
    };
    match elements(value) {
        Some(items) => items,
        None => &[],
    }
}
