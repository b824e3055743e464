//! Returns the faults of operands that no case of an operation accepts.
ghost use Rattle.std.specs.Prelude.{◌≡◌, ℕ, List};
ghost use Rattle.jt_value.specs.Tree as tree;
ghost use Rattle.jt_value.specs.Order as order;
ghost use Rattle.jt_value.specs.View.{view};
ghost use Rattle.jt_op_semantics.specs.Operands as operands;

use jt_value::{Fault, Value};

/// Returns the fault of two operands that no case accepts.
pub(crate) fn operand_fault(left: &Value, right: &Value) -> Fault
    ensures { result ≡ order.operand_fault (view left.now) (view right.now) }
{
    match (left, right) {
        (Value::Undefined, _) => Fault::Undefined,
        (_, Value::Undefined) => Fault::Undefined,
        _ => Fault::BadType,
    }
}

/// Returns the fault of one operand that no case accepts.
pub(crate) fn operand_fault_of_one(operand: &Value) -> Fault
    ensures { result ≡ operands.operand_fault_of_one (view operand.now) }
{
    match operand {
        Value::Undefined => Fault::Undefined,
        _ => Fault::BadType,
    }
}

/// Returns the fault of a plain text and a value that no case accepts.
pub(crate) fn operand_fault_of_text(other: &Value) -> Fault
    ensures { (s : List ℕ) → result ≡ order.operand_fault (tree.text s) (view other.now) }
{
    match other {
        Value::Undefined => Fault::Undefined,
        _ => Fault::BadType,
    }
}

/// Returns the fault of three operands that no case accepts.
pub(crate) fn operand_fault_of_three(first: &Value, second: &Value, third: &Value) -> Fault
    ensures { result
        ≡ operands.operand_fault_of_three (view first.now) (view second.now) (view third.now) }
{
    match (first, second, third) {
        (Value::Undefined, _, _) => Fault::Undefined,
        (_, Value::Undefined, _) => Fault::Undefined,
        (_, _, Value::Undefined) => Fault::Undefined,
        _ => Fault::BadType,
    }
}
