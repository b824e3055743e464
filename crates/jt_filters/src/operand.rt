//! Defines the operand of a filter: a value, or a number or a text that has not been made a value.
ghost use Rattle.std.specs.Prelude.{◌≡◌, ◌-◌, ◌^◌, min, option_map, IfOk, IfErr, Some, None};
ghost use Rattle.jt_value.specs.ListItems.{listed};
ghost use Rattle.jt_value.specs.Payload.{text_of, items_of_list, entries_of_map};
ghost use Rattle.jt_value.specs.Tree.{truth, printed, size, nesting};
ghost use Rattle.jt_op_semantics.specs.Operands as operands;
ghost use Rattle.jt_op_semantics.specs.Testing as testing;
ghost use Rattle.jt_filter_semantics.specs.Kinds.{is_plain};
ghost use Rattle.jt_filters.specs.internal.Operands.{tree_of, number_of, plain_of, Copies};

use crate::maker::Maker;
use itoa::Buffer;
use jt_value::{Fault, ListItems, NoMemory, Value, ValueMap};

/// A borrowed value, or undefined, a number or a plain text in place of a value. The text is, for
/// example, a character or a key.
#[derive(Clone, Copy)]
pub(crate) enum Operand<'a> {
    Undefined,
    Number(i64),
    Text(&'a str),
    Value(&'a Value),
}

impl<'a> Operand<'a> {
    /// Returns the characters of a text, plain or markup, or `None` for any other operand.
    pub(crate) fn as_text(self) -> Option<&'a str>
        ensures { option_map (λ s. s.now) result ≡ text_of (tree_of self.entry) }
    {
        match self {
            Operand::Text(text) => Some(text),
            Operand::Value(value) => value.as_text(),
            _ => None,
        }
    }

    /// Returns the items of a list, or `None` for any other operand.
    pub(crate) fn as_list(self) -> Option<ListItems<'a>>
        ensures { option_map listed result ≡ items_of_list (tree_of self.entry) }
    {
        match self {
            Operand::Value(value) => value.as_list(),
            _ => None,
        }
    }

    /// Returns the map, or `None` for any other operand.
    pub(crate) fn as_map(self) -> Option<&'a ValueMap>
        ensures { option_map (λ m. m.now) result ≡ entries_of_map (tree_of self.entry) }
    {
        match self {
            Operand::Value(Value::Map(map)) => Some(&**map),
            _ => None,
        }
    }

    /// Returns whether the operand is undefined.
    pub(crate) fn is_undefined(self) -> bool
        ensures { result ≡ testing.is_undefined (tree_of self.entry) }
    {
        match self {
            Operand::Undefined => true,
            Operand::Value(value) => matches!(value, Value::Undefined),
            _ => false,
        }
    }

    /// Returns whether the operand is markup.
    pub(crate) fn is_markup(self) -> bool
        ensures { result ≡ testing.is_markup (tree_of self.entry) }
    {
        match self {
            Operand::Value(value) => matches!(value, Value::Markup(_)),
            _ => false,
        }
    }

    /// Returns the number, or `None` for any other operand.
    pub(crate) fn as_number(self) -> Option<i64>
        ensures { result ≡ number_of (tree_of self.entry) }
    {
        match self {
            Operand::Number(number) => Some(number),
            Operand::Value(Value::Int(number)) => Some(*number),
            _ => None,
        }
    }

    /// Returns the characters of a plain text, or `None` for any other operand.
    pub(crate) fn as_plain(self) -> Option<&'a str>
        ensures { option_map (λ s. s.now) result ≡ plain_of (tree_of self.entry) }
    {
        match self {
            Operand::Text(text) => Some(text),
            Operand::Value(Value::Text(text)) => Some(text.as_str()),
            _ => None,
        }
    }

    /// Returns whether the operand is a plain text.
    pub(crate) fn is_plain(self) -> bool
        ensures { result ≡ is_plain (tree_of self.entry) }
    {
        match self {
            Operand::Text(_) => true,
            Operand::Value(value) => matches!(value, Value::Text(_)),
            _ => false,
        }
    }

    /// Returns whether the operand counts as true.
    pub(crate) fn truth(self) -> bool
        ensures { result ≡ truth (tree_of self.entry) }
    {
        match self {
            Operand::Undefined => false,
            Operand::Number(number) => number != 0,
            Operand::Text(text) => !text.is_empty(),
            Operand::Value(value) => value.truth(),
        }
    }

    /// Returns the printed text as a slice. For a number it is a slice of `buffer`.
    #[inline(always)]
    pub(crate) fn shown(self, buffer: &'a mut Buffer) -> Result<&'a str, Fault>
        ensures ok { IfOk result (λ s. printed (tree_of self.entry) ≡ Some s.now) }
        ensures fault { IfErr result
            (λ f. (f ≡ Fault.Unprintable) × (printed (tree_of self.entry) ≡ None)) }
    {
        match self {
            Operand::Undefined => Ok(""),
            Operand::Number(number) => Ok(buffer.format(number)),
            Operand::Text(text) => Ok(text),
            Operand::Value(value) => value.shown(buffer),
        }
    }

    /// Returns the fault of an operand that no case of an operation accepts.
    pub(crate) fn operand_fault(self) -> Fault
        ensures { result ≡ operands.operand_fault_of_one (tree_of self.entry) }
    {
        if self.is_undefined() {
            Fault::Undefined
        } else {
            Fault::BadType
        }
    }

    /// Returns the size, at most 2^64 - 1.
    pub(crate) fn size(self) -> u64
        ensures { result ≡ min (size (tree_of self.entry)) (2 ^ 64 - 1) }
    {
        match self {
            Operand::Undefined | Operand::Number(_) => 1,
            Operand::Text(text) => (text.len() as u64).saturating_add(1),
            Operand::Value(value) => value.size(),
        }
    }

    /// Returns the nesting, at most 2^32 - 1.
    pub(crate) fn nesting(self) -> u32
        ensures { result ≡ min (nesting (tree_of self.entry)) (2 ^ 32 - 1) }
    {
        match self {
            Operand::Value(value) => value.nesting(),
            _ => 0,
        }
    }

    /// Returns the value: a copy, or a new one.
    pub(crate) fn value(self, maker: Maker<'_>) -> Result<Value, NoMemory>
        ensures { Copies (tree_of self.entry) result }
    {
        match self {
            Operand::Undefined => Ok(Value::Undefined),
            Operand::Number(number) => Ok(Value::Int(number)),
            Operand::Text(text) => maker.text(text),
            Operand::Value(value) => value.try_clone(maker.alloc),
        }
    }
}
