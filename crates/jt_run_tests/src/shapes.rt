//! Tests the join of shapes.

use jt_image::Kind;
use jt_verify::{Shape, join};
use std::alloc::Global;

/// Returns the shape of one entry.
fn shape_of(alloc: Global, kind: Kind) -> Option<Shape> {
    let mut shape = Shape::new();
    match shape.push(alloc, kind) {
        Ok(()) => Some(shape),
        Err(_) => None,
    }
}

/// Checks how the shapes of no entry, of a value and of a loop join.
#[test]
fn equal_shapes_alone_are_joined(rt: HostRuntime) {
    let none = Shape::new();
    let (Some(value), Some(frame)) = (
        shape_of(rt.alloc(), Kind::Value),
        shape_of(rt.alloc(), Kind::Frame),
    ) else {
        return assert!(rt; false);
    };
    assert!(rt; join(&none, &none).is_ok() && join(&value, &value).is_ok());
    assert!(rt; join(&value, &none).is_err() && join(&none, &frame).is_err());
    assert!(rt; join(&value, &frame).is_err() && value.len() == 1);
}
