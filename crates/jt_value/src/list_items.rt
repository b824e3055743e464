//! Defines the borrowed items of a list.
ghost use Rattle.std.specs.Prelude.{◌≡◌, eqb};
ghost use Rattle.jt_value.specs.ListItems.{listed, items_count};

use crate::number_range::NumberRange;
use crate::value::Value;

/// The items of a list: values, or the numbers of a range, which are not stored.
#[derive(Clone, Copy)]
pub enum ListItems<'a> {
    /// Values.
    Values(&'a [Value]),
    /// Numbers.
    Numbers(NumberRange),
}

impl<'a> ListItems<'a> {
    /// Returns the number of items.
    pub fn len(self) -> usize
        ensures { result ≡ items_count (listed self.entry) }
    {
        match self {
            ListItems::Values(values) => values.len(),
            ListItems::Numbers(numbers) => numbers.len(),
        }
    }

    /// Returns whether there are no items.
    pub fn is_empty(self) -> bool
        ensures { result ≡ eqb (items_count (listed self.entry)) 0 }
    {
        self.len() == 0
    }
}
