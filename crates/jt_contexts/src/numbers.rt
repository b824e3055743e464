//! Converts the numbers of JSON.
ghost use Rattle.std.specs.Prelude.{◌≡◌, IfOk, IfErr, Some};
ghost use Rattle.serde_json.specs.View.{number_view};
ghost use Rattle.jt_contexts.specs.Json.{number_of, NumberFlaw};
ghost use Rattle.jt_value.specs.View.{view};

use crate::error::ContextError;
use jt_value::Value;
use serde_json::Number;

/// Converts a JSON number.
pub(crate) fn number_value(number: &Number) -> Result<Value, ContextError>
    ensures ok { IfOk result (λ v. number_of (number_view number.now) ≡ Some (view v)) }
    ensures err { IfErr result (NumberFlaw (number_view number.now)) }
{
    match number.as_i64() {
        Some(whole) => Ok(Value::Int(whole)),
        None if number.is_u64() => Err(ContextError::OutOfRange),
        None => Err(ContextError::NotWhole),
    }
}
