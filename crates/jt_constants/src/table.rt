//! Builds the table of constants of a pool of values.

ghost use Rattle.std.specs.Prelude.{◌≡◌, ◌≤◌, ◌^◌, map, IfOk, IfErr, OnOk};
ghost use Rattle.std.specs.BTreeMap.{get};
ghost use Rattle.jt_value.specs.View.{view};
ghost use Rattle.jt_image.specs.View.{constant_view, constants_view};
ghost use Rattle.jt_constants.specs.Merged.{constant_of, each_once, new_indices};
ghost use Rattle.jt_constants.specs.Refusals.{RefusesTable};
ghost use Rattle.jt_constants.specs.internal.Keys.{key_view, key_cmp, KnowsMore};

use crate::error::TableError;
use jt_image::Constant;
use jt_value::Value;
use std::alloc::{AllocError, Global};
use std::collections::BTreeMap;

/// The constants of a pool, each once.
#[derive(Drop)]
pub struct ConstantTable {
    /// The constants, in the order of their first indices in the pool.
    pub constants: Vec<Constant>,
    /// The index in `constants` of each value of the pool.
    pub indices: Vec<u32>,
}

/// The identity of a constant.
#[derive(Clone, Copy, PartialEq, Eq, PartialOrd, Ord)]
enum Key<'a> {
    Undefined,
    None,
    Bool(bool),
    Int(i64),
    Text(&'a str),
    Markup(&'a str),
}

/// Returns the index of a key, if it has one.
fn known_index<'a>(known: &BTreeMap<Key<'a>, u32>, key: Key<'a>) -> Option<u32>
    ensures { result ≡ get key_cmp known.now key.entry }
{
    known.get(&key).copied()
}

/// Adds a key with its index.
fn add<'a>(known: &mut BTreeMap<Key<'a>, u32>, key: Key<'a>, index: u32) -> Result<(), AllocError>
    ensures { OnOk result (KnowsMore known.old key.entry index known.new) }
{
    known.insert(key, index)?;
    Ok(())
}

/// Returns the index after `count` constants.
fn index_after(count: usize) -> Result<u32, TableError>
    ensures ok { IfOk result (λ index. index ≡ count) }
    ensures err { IfErr result (λ e. (e ≡ TableError.TooManyConstants) × (2 ^ 32 ≤ count)) }
{
    u32::try_from(count).map_err(|_| TableError::TooManyConstants)
}

/// Builds the table of the constants of a pool.
///
/// # Errors
///
/// - `TooManyConstants` if the pool has more than 2^32 different constants.
/// - `NoMemory` if a growth is refused.
pub fn constant_table(alloc: Global, pool: &[Value]) -> Result<ConstantTable, TableError>
    ensures once { IfOk result (λ t. constants_view t.constants.items
        ≡ each_once (map constant_of (map view pool.now))) }
    ensures indices { IfOk result (λ t. t.indices.items
        ≡ new_indices (map constant_of (map view pool.now))) }
    ensures refused { IfErr result
        (λ e. RefusesTable e (map constant_of (map view pool.now))) }
{
    let mut constants = Vec::with_capacity(alloc, pool.len())?;
    let mut indices = Vec::with_capacity(alloc, pool.len())?;
    let mut known: BTreeMap<Key<'_>, u32> = BTreeMap::new(alloc);
    for value in pool {
        let key = key_of(value);
        let index = match known_index(&known, key) {
            Some(index) => index,
            None => {
                let index = index_after(constants.len())?;
                add(&mut known, key, index)?;
                constants.push(constant_of(alloc, key)?)?;
                index
            }
        };
        indices.push(index)?;
    }
    Ok(ConstantTable { constants, indices })
}

/// Returns the key of a value of a pool. A pool has no lists and no maps.
fn key_of(value: &Value) -> Key<'_>
    ensures { key_view result ≡ constant_of (view value.now) }
{
    match value {
        Value::Undefined => Key::Undefined,
        Value::None => Key::None,
        Value::Bool(truth) => Key::Bool(*truth),
        Value::Int(number) => Key::Int(*number),
        Value::Text(text) => Key::Text(text.as_str()),
        Value::Markup(text) => Key::Markup(text.as_str()),
        Value::List(_) | Value::Map(_) => Key::Undefined,
    }
}

/// Builds the constant of a key.
fn constant_of(alloc: Global, key: Key<'_>) -> Result<Constant, AllocError>
    ensures { IfOk result (λ c. constant_view c ≡ key_view key.entry) }
{
    match key {
        Key::Undefined => Ok(Constant::Undefined),
        Key::None => Ok(Constant::None),
        Key::Bool(truth) => Ok(Constant::Bool(truth)),
        Key::Int(number) => Ok(Constant::Int(number)),
        Key::Text(text) => Ok(Constant::Text(String::from_str(alloc, text)?)),
        Key::Markup(text) => Ok(Constant::Markup(String::from_str(alloc, text)?)),
    }
}
