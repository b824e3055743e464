//! Tests texts of few and of many bytes, and texts as keys.

use indexmap::IndexMap;
use jt_value::{Text, Value};
use std::test::Fail;

#[test]
fn texts_have_their_characters(rt: HostRuntime) -> Result<(), Fail> {
    let alloc = rt.alloc();
    let long = "more than 24 bytes have a block of their own";
    for wanted in ["", "few", "exactly 24 bytes are few", long] {
        let text = Text::from_str(alloc, wanted)?;
        let taken = Text::from_string(String::from_str(alloc, wanted)?)?;
        let copy = text.clone()?;
        assert_eq!(rt; (text.as_str(), taken.as_str()), (wanted, wanted));
        assert_eq!(rt;
            (copy.len(), copy.is_empty()),
            (wanted.len(), wanted.is_empty())
        );
        assert!(rt; text == taken && text <= copy);
    }
    Ok(())
}

#[test]
fn texts_are_keys(rt: HostRuntime) -> Result<(), Fail> {
    let alloc = rt.alloc();
    let mut values = IndexMap::new(alloc);
    for (name, number) in [("b", 1), ("a", 2), ("b", 3)] {
        let _earlier = values.insert(Text::from_str(alloc, name)?, Value::Int(number))?;
    }
    let map = Value::from_entries(alloc, values.into_iter().collect(alloc)?)?;
    assert!(rt; matches!(map.as_map(), Some([(_, Value::Int(3)), (_, Value::Int(2))])));
    Ok(())
}
