//! Implements comparison operators, and comparisons of a text with a value.
ghost use Rattle.std.specs.Prelude.{◌≡◌};
ghost use Rattle.jt_value.specs.Equality.{equal};
ghost use Rattle.jt_value.specs.Order.{order};
ghost use Rattle.jt_value.specs.Tree as tree;
ghost use Rattle.jt_value.specs.View.{view};
ghost use Rattle.jt_op_semantics.specs.Comparing.{compared, is_less, is_less_or_equal, is_greater};
ghost use Rattle.jt_op_semantics.specs.Comparing.{is_greater_or_equal};

use jt_value::{Fault, Value};
use std::cmp::Ordering;

/// Applies operator `<`.
pub(crate) fn less(left: &Value, right: &Value) -> Result<bool, Fault>
    ensures { result ≡ compared is_less (view left.now) (view right.now) }
{
    Ok(left.compare(right)? == Ordering::Less)
}

/// Applies operator `<=`.
pub(crate) fn less_or_equal(left: &Value, right: &Value) -> Result<bool, Fault>
    ensures { result ≡ compared is_less_or_equal (view left.now) (view right.now) }
{
    Ok(left.compare(right)? != Ordering::Greater)
}

/// Applies operator `>`.
pub(crate) fn greater(left: &Value, right: &Value) -> Result<bool, Fault>
    ensures { result ≡ compared is_greater (view left.now) (view right.now) }
{
    Ok(left.compare(right)? == Ordering::Greater)
}

/// Applies operator `>=`.
pub(crate) fn greater_or_equal(left: &Value, right: &Value) -> Result<bool, Fault>
    ensures { result ≡ compared is_greater_or_equal (view left.now) (view right.now) }
{
    Ok(left.compare(right)? != Ordering::Less)
}

/// Returns the order of a plain text and a value.
pub(crate) fn compare_text(text: &str, value: &Value) -> Result<Ordering, Fault>
    ensures { result ≡ order (tree.text text.now) (view value.now) }
{
    match value {
        Value::Text(other) => Ok(text.cmp(other.as_str())),
        Value::Markup(other) => Ok(text.cmp(other.as_str())),
        Value::Undefined => Err(Fault::Undefined),
        _ => Err(Fault::BadType),
    }
}

/// Returns whether a plain text equals a value.
pub(crate) fn equals_text(text: &str, value: &Value) -> bool
    ensures { result ≡ equal (tree.text text.now) (view value.now) }
{
    match value.as_text() {
        Some(other) => text == other,
        None => false,
    }
}
