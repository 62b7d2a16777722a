// What a table holds at a key.
ghost use Rattle.std.specs.Prelude.{◌≡◌, option_map, string_bytes, not, map};
ghost use Rattle.std.specs.List.{find};
ghost use Rattle.std.specs.BTreeMap.{keys};
ghost use Rattle.toml.specs.Data.{as_integer};
ghost use Rattle.toml.specs.View.{view, items_view, table_view};
ghost use Rattle.plan_reader.specs.Fields.{at_key, typed, value_at, number_at, number_or, items_at, are_numbers, are_tables, is_key_of, first_other};

use crate::fault::FieldWhy;
use crate::keys::{FieldFault, Key, key_text};
use toml::{Table, Value};

/// The value at a key.
pub fn value_at(table: &Table, key: Key) -> Option<&Value>
    ensures { option_map (λ v. view v.now) result ≡ value_at key (table_view table.now) }
{
    table.get(key_text(key))
}

/// The whole number at a key.
pub fn number_at(table: &Table, key: Key) -> Result<i64, FieldFault>
    ensures { result ≡ number_at key (table_view table.now) }
{
    match value_at(table, key) {
        Some(value) => whole_number(value, key),
        None => Err(FieldFault {
            key,
            why: FieldWhy::Missing,
        }),
    }
}

/// The whole number at a key that may be missing.
pub fn number_or(table: &Table, key: Key, default: i64) -> Result<i64, FieldFault>
    ensures { result ≡ number_or key default (table_view table.now) }
{
    match value_at(table, key) {
        Some(value) => whole_number(value, key),
        None => Ok(default),
    }
}

fn whole_number(value: &Value, key: Key) -> Result<i64, FieldFault>
    ensures { result ≡ at_key key (typed (as_integer (view value.now))) }
{
    match value.as_integer() {
        Some(number) => Ok(number),
        None => Err(FieldFault {
            key,
            why: FieldWhy::WrongType,
        }),
    }
}

/// The values of an array at a key, none where there is no array.
pub fn items_at(table: &Table, key: Key) -> &[Value]
    ensures { items_view result.now ≡ items_at key (table_view table.now) }
{
    match value_at(table, key) {
        Some(value) => match value.as_array() {
            Some(values) => values.as_slice(),
            None => &[],
        },
        None => &[],
    }
}

/// All are whole numbers.
pub fn are_numbers(values: &[Value]) -> bool
    ensures { result ≡ are_numbers (items_view values.now) }
{
    for value in values {
        if !value.is_integer() {
            return false;
        }
    }
    true
}

/// All are tables.
pub fn are_tables(values: &[Value]) -> bool
    ensures { result ≡ are_tables (items_view values.now) }
{
    for value in values {
        if !value.is_table() {
            return false;
        }
    }
    true
}

/// The first key of a table that is none of these.
pub fn first_other<'a>(table: &'a Table, keys: &[Key]) -> Option<&'a String>
    ensures { option_map (λ name. string_bytes name.now) result ≡ first_other keys.now (table_view table.now) }
{
    find_other(table, keys)
}

fn find_other<'a>(table: &'a Table, known: &[Key]) -> Option<&'a String>
    ensures { option_map (λ name. name.now) result ≡ find (λ name. not (is_key_of known.now (string_bytes name))) (keys table.now) }
{
    table.keys().find(|name| !is_key_of(name.as_str(), known))
}

fn is_key_of(name: &str, keys: &[Key]) -> bool
    ensures { result ≡ is_key_of keys.now name.now }
{
    keys.iter().any(|key| key_text(*key) == name)
}
