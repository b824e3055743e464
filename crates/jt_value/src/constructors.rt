//! Constructs texts, lists and maps, and returns their contents.
ghost use Rattle.std.specs.Prelude.{◌≡◌, IfOk, option_map, string_bytes};
ghost use Rattle.jt_value.specs.ListItems.{listed, numbers_of};
ghost use Rattle.jt_value.specs.Payload.{text_of, items_of_list, entries_of_map};
ghost use Rattle.jt_value.specs.Tree as tree;
ghost use Rattle.jt_value.specs.View.{view, items_view, entries_view, text_keyed};

use crate::entries::with_text_keys;
use crate::fault::NoMemory;
use crate::list_items::ListItems;
use crate::number_range::NumberRange;
use crate::payload::{ValueList, ValueMap};
use crate::text::Text;
use crate::value::Value;
use indexmap::IndexMap;
use std::alloc::Global;
use std::hash::BuildHasher;
use std::rc::Rc;

impl Value {
    /// Returns a plain text.
    ///
    /// # Errors
    ///
    /// `NoMemory` if a growth is refused.
    pub fn text(alloc: Global, text: &str) -> Result<Value, NoMemory>
        ensures { IfOk result (λ v. view v ≡ tree.text text.now) }
    {
        Ok(Value::Text(Text::from_str(alloc, text)?))
    }

    /// Returns a markup text: one that is safe to print without escaping.
    ///
    /// # Errors
    ///
    /// `NoMemory` if a growth is refused.
    pub fn markup(alloc: Global, text: &str) -> Result<Value, NoMemory>
        ensures { IfOk result (λ v. view v ≡ tree.markup text.now) }
    {
        Ok(Value::Markup(Text::from_str(alloc, text)?))
    }

    /// Returns a plain text that takes the string without copying it.
    ///
    /// # Errors
    ///
    /// `NoMemory` if a growth is refused. The string is then dropped.
    pub fn from_text(text: String) -> Result<Value, NoMemory>
        ensures { IfOk result (λ v. view v ≡ tree.text (string_bytes text)) }
    {
        Ok(Value::Text(Text::from_string(text)?))
    }

    /// Returns a markup text that takes the string without copying it.
    ///
    /// # Errors
    ///
    /// `NoMemory` if a growth is refused. The string is then dropped.
    pub fn from_markup(text: String) -> Result<Value, NoMemory>
        ensures { IfOk result (λ v. view v ≡ tree.markup (string_bytes text)) }
    {
        Ok(Value::Markup(Text::from_string(text)?))
    }

    /// Returns a plain text that shares its characters with the other owners of the text.
    #[inline]
    pub fn shared_text(chars: Text) -> Value
        ensures { view result ≡ tree.text chars }
    {
        Value::Text(chars)
    }

    /// Returns a list that shares its items with the other owners of the items.
    #[inline]
    pub fn shared_list(items: Rc<ValueList>) -> Value
        ensures { view result ≡ tree.list items.value }
    {
        Value::List(items)
    }

    /// Returns a list that takes the items without copying them.
    ///
    /// # Errors
    ///
    /// `NoMemory` if a growth is refused. The items are then dropped.
    pub fn list(alloc: Global, items: Vec<Value>) -> Result<Value, NoMemory>
        ensures { IfOk result (λ v. view v ≡ tree.list (items_view items.items)) }
    {
        Ok(Value::List(Rc::new(alloc, ValueList::new(items))?))
    }

    /// Returns a list of the numbers of a range. None of them is stored.
    ///
    /// # Errors
    ///
    /// `NoMemory` if a growth is refused.
    pub fn range(alloc: Global, numbers: NumberRange) -> Result<Value, NoMemory>
        ensures { IfOk result (λ v. view v ≡ tree.list (numbers_of numbers)) }
    {
        Ok(Value::List(Rc::new(alloc, ValueList::of_numbers(alloc, numbers))?))
    }

    /// Returns a map that takes the entries without copying them, in their order. Repeated keys are
    /// not detected: a lookup finds the first value of a key.
    ///
    /// # Errors
    ///
    /// `NoMemory` if a growth is refused. The entries are then dropped.
    pub fn from_entries(alloc: Global, entries: Vec<(Text, Value)>) -> Result<Value, NoMemory>
        ensures { IfOk result (λ v. view v ≡ tree.map (entries_view entries.items)) }
    {
        Ok(Value::Map(Rc::new(alloc, ValueMap::new(alloc, entries)?)?))
    }

    /// Returns a map of the entries of an `IndexMap`, in their order. No value is copied.
    ///
    /// # Errors
    ///
    /// `NoMemory` if a growth is refused. The entries are then dropped.
    pub fn map<S: BuildHasher + Drop>(
        alloc: Global,
        entries: IndexMap<String, Value, S>,
    ) -> Result<Value, NoMemory>
        ensures { IfOk result (λ v. view v ≡ tree.map (entries_view (text_keyed entries.entries))) }
    {
        Value::from_entries(
            alloc,
            with_text_keys(alloc, entries.into_iter().collect(alloc)?)?,
        )
    }

    /// Returns the characters of a text, plain or markup, or `None` for any other value.
    pub fn as_text(&self) -> Option<&str>
        ensures { option_map (λ s. s.now) result ≡ text_of (view self.now) }
    {
        match self {
            Value::Text(text) => Some(text.as_str()),
            Value::Markup(text) => Some(text.as_str()),
            _ => None,
        }
    }

    /// Returns the items of a list, or `None` for any other value.
    pub fn as_list(&self) -> Option<ListItems<'_>>
        ensures { option_map listed result ≡ items_of_list (view self.now) }
    {
        match self {
            Value::List(list) => Some(list.items()),
            _ => None,
        }
    }

    /// Returns the entries of a map, or `None` for any other value.
    pub fn as_map(&self) -> Option<&[(Text, Value)]>
        ensures { option_map (λ s. entries_view s.now) result ≡ entries_of_map (view self.now) }
    {
        match self {
            Value::Map(map) => Some(map.entries()),
            _ => None,
        }
    }
}
