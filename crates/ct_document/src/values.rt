//! The values of keys.
ghost use Rattle.std.specs.Prelude.{◌≡◌, map};
ghost use Rattle.toml.specs.Data.{Data, as_integer};
ghost use Rattle.toml.specs.View.{view, array_view, table_view};
ghost use Rattle.ct_document.specs.Document as document;
ghost use Rattle.ct_document.specs.Reads.{Reads};

use crate::refusal::PolicyRefusal;
use ct_rows::Row;
use elf_load::Elf;
use std::alloc::Global;
use toml::value::Array;
use toml::{Table, Value};

/// A type of values that the keys of a policy have.
pub trait FromValue: Copy + Drop {
    ghost use Rattle.std.specs.Prelude.{Option};
    ghost use Rattle.elf_load.specs.declared.elf.Elf.{Elf};

    ghost meaning: { Elf → Data → Option Self };

    fn from_value(elf: &Elf, value: &Value) -> Option<Self>
        ensures { result ≡ meaning elf.now (view value.now) };
}

impl FromValue for i64 {
    ghost meaning = { λ elf value. as_integer value };

    fn from_value(_elf: &Elf, value: &Value) -> Option<i64> {
        value.as_integer()
    }
}

/// The value of a key that has to stand.
pub fn required<T: FromValue>(elf: &Elf, table: &Value, key: &str) -> Option<T>
    ensures { result ≡ document.required (T.meaning elf.now) key.now (view table.now) }
{
    match table.get(key) {
        Some(value) => T::from_value(elf, value),
        None => None,
    }
}

/// The value of a key that may be absent, and then has this one.
pub fn optional<T: FromValue>(elf: &Elf, table: &Value, key: &str, absent: T) -> Option<T>
    ensures { result ≡ document.optional (T.meaning elf.now) absent key.now (view table.now) }
{
    match table.get(key) {
        Some(value) => T::from_value(elf, value),
        None => Some(absent),
    }
}

/// Whether a key is one of these.
fn is_among(keys: &[&str], key: &str) -> bool
    ensures { result ≡ document.is_among (map (λ known. known.now) keys.now) key.now }
{
    keys.iter().any(|known| *known == key)
}

fn are_among(keys: &[&str], table: &Table) -> bool
    ensures { result ≡ document.are_among (map (λ known. known.now) keys.now) (table_view table.now) }
{
    'members: for (key, _value) in table.iter() {
        if !is_among(keys, key.as_str()) {
            return false;
        }
    }
    true
}

/// Whether the value is a table that has no other keys.
pub fn has_only(keys: &[&str], value: &Value) -> bool
    ensures { result ≡ document.has_only (map (λ known. known.now) keys.now) (view value.now) }
{
    match value.as_table() {
        Some(table) => are_among(keys, table),
        None => false,
    }
}

fn read_items<T: FromValue>(
    alloc: Global,
    elf: &Elf,
    array: &Array,
) -> Result<Row<T>, PolicyRefusal>
    ensures { Reads (document.each_item (T.meaning elf.now) (array_view array.now)) result }
{
    let mut items = Vec::new(alloc);
    for value in array {
        let Some(item) = T::from_value(elf, value) else {
            return Err(PolicyRefusal::Field);
        };
        items.push(item)?;
    }
    Ok(Row::from_vec(items))
}

fn read_list<T: FromValue>(alloc: Global, elf: &Elf, value: &Value) -> Result<Row<T>, PolicyRefusal>
    ensures { Reads (document.list_of (T.meaning elf.now) (view value.now)) result }
{
    match value.as_array() {
        Some(array) => read_items(alloc, elf, array),
        None => Err(PolicyRefusal::Field),
    }
}

/// The items of a key that may be absent, and then has these.
pub fn optional_list<T: FromValue>(
    alloc: Global,
    elf: &Elf,
    table: &Value,
    key: &str,
    absent: Vec<T>,
) -> Result<Row<T>, PolicyRefusal>
    ensures { Reads (document.optional (document.list_of (T.meaning elf.now)) absent.items key.now (view table.now)) result }
{
    match table.get(key) {
        Some(value) => read_list(alloc, elf, value),
        None => Ok(Row::from_vec(absent)),
    }
}
