//! Orders numbers and texts.
ghost use Rattle.std.specs.Prelude.{◌≡◌, ℕ, List, Ok};
ghost use Rattle.std.specs.Cmp.Lexicographic.{slice_cmp};
ghost use Rattle.std.specs.Ordering.{nat_cmp};
ghost use Rattle.jt_value.specs.Order.{order, Spells};
ghost use Rattle.jt_value.specs.View.{view};

use crate::fault::Fault;
use crate::value::Value;
use std::cmp::Ordering;

impl Value {
    /// Returns the order of two numbers, or of two texts by code points. Texts may be plain or
    /// markup.
    ///
    /// # Errors
    ///
    /// For other operands `Undefined` if one of them is undefined, else `BadType`.
    pub fn compare(&self, other: &Value) -> Result<Ordering, Fault>
        ensures value { result ≡ order (view self.now) (view other.now) }
        ensures code_points { (points others : List ℕ)
            → Spells points (view self.now)
            → Spells others (view other.now)
            → result ≡ Ok (slice_cmp nat_cmp points others) }
    {
        ordering_of(self, other)
    }
}

fn ordering_of(left: &Value, right: &Value) -> Result<Ordering, Fault>
    ensures { result ≡ order (view left.now) (view right.now) }
{
    match (left, right) {
        (Value::Int(left), Value::Int(right)) => Ok(left.cmp(right)),
        (Value::Text(left), Value::Text(right)) => Ok(left.as_str().cmp(right.as_str())),
        (Value::Text(left), Value::Markup(right)) => Ok(left.as_str().cmp(right.as_str())),
        (Value::Markup(left), Value::Text(right)) => Ok(left.as_str().cmp(right.as_str())),
        (Value::Markup(left), Value::Markup(right)) => Ok(left.as_str().cmp(right.as_str())),
        (Value::Undefined, _) | (_, Value::Undefined) => Err(Fault::Undefined),
        _ => Err(Fault::BadType),
    }
}
