//! Tests printed texts, contexts, operators on kept operands, and errors as texts.

use indexmap::IndexMap;
use jt_ops::{Limits, OpId, binary, binary_owned, range};
use jt_value::{Context, Fault, ListItems, NoMemory, Text, Value, ValueError};
use std::alloc::Global;
use std::test::Fail;

#[test]
fn values_print(rt: HostRuntime) -> Result<(), Fail> {
    let alloc = rt.alloc();
    let rows = [
        (Value::Undefined, ""),
        (Value::None, "None"),
        (Value::Bool(true), "True"),
        (Value::Int(-50), "-50"),
        (Value::markup(alloc, "<b>")?, "<b>"),
    ];
    for (value, wanted) in rows.iter() {
        assert_eq!(rt; value.printed(alloc)?.as_str(), *wanted);
    }
    let list = Value::list(alloc, Vec::new(alloc))?;
    assert!(rt;
        matches!(
            list.printed(alloc),
            Err(ValueError::Fault(Fault::Unprintable))
        )
    );
    Ok(())
}

/// Adds a number to a context and returns whether that succeeded.
fn is_added(alloc: Global, context: &mut Context, name: &str, number: i64) -> bool {
    match Text::from_str(alloc, name) {
        Ok(name) => context.insert(name, Value::Int(number)).is_ok(),
        Err(_) => false,
    }
}

#[test]
fn a_name_keeps_its_last_value(rt: HostRuntime) {
    let alloc = rt.alloc();
    let mut context = Context::new(alloc);
    let first = is_added(alloc, &mut context, "a", 1);
    let second = is_added(alloc, &mut context, "b", 2);
    let third = is_added(alloc, &mut context, "a", 3);
    assert!(rt; first && second && third && context.get("c").is_none());
    assert!(rt;
        matches!(
            (context.get("a"), context.get("b")),
            (Some(Value::Int(3)), Some(Value::Int(2)))
        )
    );
}

/// Returns the keys of entries in their order, each followed by a space.
fn keys_of(alloc: Global, entries: &[(Text, Value)]) -> Result<String, Fail> {
    let mut keys = String::new(alloc);
    for entry in entries {
        keys.push_str(entry.0.as_str())?;
        keys.push(' ')?;
    }
    Ok(keys)
}

#[test]
fn names_keep_the_order_in_which_they_were_put(rt: HostRuntime) -> Result<(), Fail> {
    let alloc = rt.alloc();
    let mut context = Context::new(alloc);
    for name in ["i", "b", "a", "h", "c", "g", "d", "f", "e", "j", "b", "e"] {
        let added = is_added(alloc, &mut context, name, 1);
        assert!(rt; added);
    }
    let keys = keys_of(alloc, context.entries())?;
    assert_eq!(rt; keys.as_str(), "i b a h c g d f e j ");
    assert!(rt; context.get("e").is_some() && context.get("k").is_none());
    Ok(())
}

/// Returns an `IndexMap` from the names `b`, `a` and `c` to numbers. The last value put is that of
/// `a`.
fn index_map(alloc: Global) -> Result<IndexMap<String, Value>, Fail> {
    let mut values = IndexMap::new(alloc);
    for (name, number) in [("b", 1), ("a", 2), ("c", 3), ("a", 4)] {
        let _earlier = values.insert(String::from_str(alloc, name)?, Value::Int(number))?;
    }
    Ok(values)
}

#[test]
fn an_index_map_becomes_a_map_and_a_context(rt: HostRuntime) -> Result<(), Fail> {
    let alloc = rt.alloc();
    let map = Value::map(alloc, index_map(alloc)?)?;
    let keys = keys_of(alloc, map.as_map().unwrap_or(&[]))?;
    assert_eq!(rt; keys.as_str(), "b a c ");
    assert!(rt; matches!(map.as_map(), Some([_, (_, Value::Int(4)), _])));
    let context = Context::from_map(alloc, index_map(alloc)?)?;
    let names = keys_of(alloc, context.entries())?;
    assert_eq!(rt; names.as_str(), "b a c ");
    assert!(rt; matches!(context.get("a"), Some(Value::Int(4))));
    Ok(())
}

#[test]
fn operands_are_kept(rt: HostRuntime) -> Result<(), Fail> {
    let alloc = rt.alloc();
    let limits = Limits {
        size: 3,
        nesting: 1,
    };
    let left = Value::text(alloc, "a")?;
    let sum = binary(alloc, OpId::Add, &left, &left, limits)?;
    assert_eq!(rt; (sum.as_text(), left.as_text()), (Some("aa"), Some("a")));
    assert!(rt; binary(alloc, OpId::Add, &sum, &left, limits).is_err());
    Ok(())
}

/// Returns the list of one number.
fn list_of(alloc: Global, number: i64) -> Result<Value, Fail> {
    let mut items = Vec::new(alloc);
    items.push(Value::Int(number))?;
    Ok(Value::list(alloc, items)?)
}

#[test]
fn an_owned_list_takes_another(rt: HostRuntime) -> Result<(), Fail> {
    let alloc = rt.alloc();
    let limits = Limits {
        size: 3,
        nesting: 1,
    };
    let (left, right) = (list_of(alloc, 1)?, list_of(alloc, 2)?);
    let kept = right.try_clone(alloc)?;
    let sum = binary_owned(alloc, OpId::Add, left, right, limits)?;
    assert!(rt;
        matches!(
            sum.as_list(),
            Some(ListItems::Values([Value::Int(1), Value::Int(2)]))
        )
    );
    let shared = binary_owned(
        alloc,
        OpId::Add,
        kept.try_clone(alloc)?,
        list_of(alloc, 3)?,
        limits,
    )?;
    assert!(rt;
        matches!(
            shared.as_list(),
            Some(ListItems::Values([Value::Int(2), Value::Int(3)]))
        )
    );
    assert!(rt; matches!(kept.as_list(), Some(ListItems::Values([Value::Int(2)]))));
    Ok(())
}

#[test]
fn a_range_stores_no_number(rt: HostRuntime) -> Result<(), Fail> {
    let alloc = rt.alloc();
    let limits = Limits {
        size: 100_001,
        nesting: 1,
    };
    let numbers = range(alloc, &[Value::Int(100_000)], limits)?;
    assert!(rt; matches!(numbers.as_list(), Some(ListItems::Numbers(_))));
    assert_eq!(rt; (numbers.size(), numbers.nesting()), (100_001, 1));
    let last = binary(alloc, OpId::Item, &numbers, &Value::Int(-1), limits)?;
    assert!(rt; matches!(last, Value::Int(99_999)));
    Ok(())
}

#[test]
fn a_range_takes_another_item(rt: HostRuntime) -> Result<(), Fail> {
    let alloc = rt.alloc();
    let limits = Limits {
        size: 4,
        nesting: 1,
    };
    let numbers = range(alloc, &[Value::Int(2)], limits)?;
    let sum = binary_owned(alloc, OpId::Add, numbers, list_of(alloc, 7)?, limits)?;
    let mut items = Vec::new(alloc);
    for number in [0, 1, 7] {
        items.push(Value::Int(number))?;
    }
    assert!(rt; sum.equals(&Value::list(alloc, items)?));
    Ok(())
}

#[test]
fn errors_print(rt: HostRuntime) -> Result<(), Fail> {
    let alloc = rt.alloc();
    let told = format!(in alloc;
        "{NoMemory}, {}, {}",
        ValueError::NoMemory,
        ValueError::Fault(Fault::Range)
    )?;
    assert_eq!(rt; told.as_str(), "no memory, no memory, F8 Range");
    Ok(())
}
