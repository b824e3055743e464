//! Tests maps with many keys: equality in different orders, and lookup by key.

use jt_value::{Text, Value};
use std::alloc::Global;
use std::test::Fail;

/// Returns an entry whose key is the number in decimal.
fn entry_of(alloc: Global, number: u32, value: i64) -> Result<(Text, Value), Fail> {
    let key = Text::from_string(format!(in alloc; "{number}")?)?;
    Ok((key, Value::Int(value)))
}

/// Returns twenty entries whose keys are the numbers from 10 to 29, each with its number as the
/// value. The keys advance by `step`, modulo 20.
fn entries_of(alloc: Global, step: u8) -> Result<Vec<(Text, Value)>, Fail> {
    let mut entries = Vec::new(alloc);
    for turn in 0..20u8 {
        let number = 10 + turn as u32 * step as u32 % 20;
        entries.push(entry_of(alloc, number, number as i64)?)?;
    }
    Ok(entries)
}

/// Returns whether the two values are equal, compared in both directions.
fn are_equal(left: &Value, right: &Value) -> bool {
    left.equals(right) && right.equals(left)
}

#[test]
fn maps_in_other_orders_are_equal(rt: HostRuntime) -> Result<(), Fail> {
    let alloc = rt.alloc();
    let ascending = Value::from_entries(alloc, entries_of(alloc, 1)?)?;
    let descending = Value::from_entries(alloc, entries_of(alloc, 19)?)?;
    let mixed = Value::from_entries(alloc, entries_of(alloc, 7)?)?;
    assert!(rt; are_equal(&ascending, &descending));
    assert!(rt; are_equal(&ascending, &mixed));
    assert!(rt; are_equal(&descending, &mixed));
    let mut others = entries_of(alloc, 7)?;
    drop(others.pop());
    others.push(entry_of(alloc, 9, 9)?)?;
    let others = Value::from_entries(alloc, others)?;
    assert!(rt; !ascending.equals(&others) && !others.equals(&ascending));
    assert!(rt; !descending.equals(&others) && !others.equals(&descending));
    Ok(())
}

#[test]
fn the_first_value_of_a_key_counts(rt: HostRuntime) -> Result<(), Fail> {
    let alloc = rt.alloc();
    let wanted = Value::from_entries(alloc, entries_of(alloc, 7)?)?;
    let mut behind = entries_of(alloc, 19)?;
    behind.push(entry_of(alloc, 12, 0)?)?;
    let behind = Value::from_entries(alloc, behind)?;
    assert!(rt; are_equal(&wanted, &behind));
    let mut in_front = entries_of(alloc, 19)?;
    in_front.insert(0, entry_of(alloc, 12, 0)?)?;
    let in_front = Value::from_entries(alloc, in_front)?;
    assert!(rt; !wanted.equals(&in_front) && !in_front.equals(&wanted));
    assert!(rt; !behind.equals(&in_front) && !in_front.equals(&behind));
    Ok(())
}

/// Returns whether a map has 10 at the key `10`, has the key `29`, and lacks two other keys.
fn has_ten(value: &Value) -> bool {
    match value {
        Value::Map(map) => {
            matches!(map.get("10"), Some(Value::Int(10)))
                && map.contains_key("29")
                && map.get("9").is_none()
                && !map.contains_key("")
        },
        _ => false,
    }
}

#[test]
fn values_are_found_by_key(rt: HostRuntime) -> Result<(), Fail> {
    let alloc = rt.alloc();
    assert!(rt; has_ten(&Value::from_entries(alloc, entries_of(alloc, 1)?)?));
    assert!(rt; has_ten(&Value::from_entries(alloc, entries_of(alloc, 7)?)?));
    let mut few = Vec::new(alloc);
    few.push(entry_of(alloc, 29, 29)?)?;
    few.push(entry_of(alloc, 10, 10)?)?;
    few.push(entry_of(alloc, 10, 11)?)?;
    assert!(rt; has_ten(&Value::from_entries(alloc, few)?));
    Ok(())
}
