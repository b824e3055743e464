//! Stores the items of lists and the entries of maps, with their size and nesting.
ghost use Rattle.std.specs.Prelude.{◌≡◌, ◌+◌, ◌-◌, ◌^◌, min, false, IfOk, IfSome, OnOk, OnErr};
ghost use Rattle.std.specs.Prelude.{nat_lt, option_map, option_copied};
ghost use Rattle.std.specs.Option.{option_map_or};
ghost use Rattle.jt_value.specs.Entries.{entry_of, has_key, index_of};
ghost use Rattle.jt_value.specs.internal.InOrder.{to_come, IsInOrder, HasKeyCount};
ghost use Rattle.jt_value.specs.Tree.{items_size, items_nesting, entries_size, entries_nesting};
ghost use Rattle.jt_value.specs.ListItems.{listed, numbers_of};
ghost use Rattle.jt_value.specs.Payload.{more_items, joined_items};
ghost use Rattle.jt_value.specs.Stored.{IsOneOf};
ghost use Rattle.jt_value.specs.internal.Stored.{IsStored};
ghost use Rattle.jt_value.specs.View.{view, items_view, entries_view};

use crate::in_order::InOrder;
use crate::key_search::KeySearch;
use crate::list_items::ListItems;
use crate::number_range::NumberRange;
use crate::text::Text;
use crate::value::Value;
use std::alloc::{AllocError, Global};
use std::marker::Model;

/// The items of a list, with its size and nesting. They are stored, unless they are the numbers of
/// a range.
#[cycle(value)]
#[derive(Drop)]
pub struct ValueList {
    // Empty if `numbers` has numbers.
    values: Vec<Value>,
    numbers: NumberRange,
    size: u64,
    nesting: u32,
}

/// The entries of a map, with the search for its keys, its size and its nesting.
#[cycle(value)]
#[derive(Drop)]
pub struct ValueMap {
    entries: Vec<(Text, Value)>,
    search: KeySearch,
    size: u64,
    nesting: u32,
}

impl Model for ValueList {
    ghost use Rattle.std.proofs.Common.{arith};
    ghost use Rattle.jt_value.specs.Tree.{Items, items_size};
    ghost use Rattle.jt_value.specs.TreeCode.{coded_items};

    ghost Value = { Items };

    ghost coded = { coded_items };

    ghost use Rattle.jt_value.specs.Measured.{list_view, IsMeasuredList};

    ghost view = { list_view };

    ghost invariant = { IsMeasuredList };

    ghost size = { items_size };

    ghost use Rattle.jt_value.specs.Falls.{most-list};

    ghost size_decreases = { λ a h. omega (arith, most-list a.values.items a.numbers) };
}

impl Model for ValueMap {
    ghost use Rattle.jt_value.specs.Tree.{Entries, entries_size};
    ghost use Rattle.jt_value.specs.TreeCode.{coded_entries};

    ghost Value = { Entries };

    ghost coded = { coded_entries };

    ghost use Rattle.jt_value.specs.Measured.{map_view, IsMeasuredMap};

    ghost view = { map_view };

    ghost invariant = { IsMeasuredMap };

    ghost size = { entries_size };

    ghost use Rattle.jt_value.specs.Falls.{most-entries};

    ghost size_decreases = { λ a h. most-entries a.entries.items };
}

impl ValueList {
    /// Returns the list of the values.
    pub(crate) fn new(values: Vec<Value>) -> ValueList
        ensures { result ≡ items_view values.items }
    {
        let mut size = 1u64;
        let mut nesting = 0u32;
        for item in &values {
            size = size.saturating_add(item.size());
            nesting = nesting.max(item.nesting());
        }
        ValueList {
            values,
            numbers: NumberRange::empty(),
            size,
            nesting: nesting.saturating_add(1),
        }
    }

    /// Returns the list of the numbers of a range.
    pub(crate) fn of_numbers(alloc: Global, numbers: NumberRange) -> ValueList
        ensures { result ≡ numbers_of numbers }
    {
        ValueList {
            values: Vec::new(alloc),
            numbers,
            size: (numbers.len() as u64).saturating_add(1),
            nesting: 1,
        }
    }

    /// Appends an item.
    ///
    /// # Errors
    ///
    /// `AllocError` if a growth is refused. The list is then unchanged.
    pub fn push(&mut self, item: Value) -> Result<(), AllocError>
        ensures ok { OnOk result (self.new ≡ more_items self.old (view item)) }
        ensures err { OnErr result (self.new ≡ self.old) }
    {
        let size = self.size.saturating_add(item.size());
        let nesting = self.nesting.max(item.nesting().saturating_add(1));
        store(&mut self.values, &mut self.numbers)?;
        self.values.push(item)?;
        self.size = size;
        self.nesting = nesting;
        Ok(())
    }

    /// Appends copies of items.
    ///
    /// # Errors
    ///
    /// `AllocError` if a growth is refused. Some of the copies may then have been appended.
    pub fn append(&mut self, more: ListItems<'_>) -> Result<(), AllocError>
        ensures { OnOk result (self.new ≡ joined_items self.old (listed more.entry)) }
    {
        match more {
            ListItems::Values(values) => self.append_values(values),
            ListItems::Numbers(numbers) => self.append_numbers(numbers),
        }
    }

    fn append_values(&mut self, more: &[Value]) -> Result<(), AllocError>
        ensures { OnOk result (self.new ≡ joined_items self.old (items_view more.now)) }
    {
        self.reserve(more.len())?;
        for item in more {
            self.push(item.clone()?)?;
        }
        Ok(())
    }

    fn append_numbers(&mut self, more: NumberRange) -> Result<(), AllocError>
        ensures { OnOk result (self.new ≡ joined_items self.old (numbers_of more)) }
    {
        self.reserve(more.len())?;
        let mut rest = more;
        while let Some((number, behind)) = rest.split_first() {
            self.push(Value::Int(number))?;
            rest = behind;
        }
        Ok(())
    }

    // Reserves room for more items.
    fn reserve(&mut self, more: usize) -> Result<(), AllocError>
        ensures { self.new ≡ self.old }
    {
        store(&mut self.values, &mut self.numbers)?;
        self.values.reserve(more)?;
        Ok(())
    }

    /// Returns the items.
    pub fn items(&self) -> ListItems<'_>
        ensures { listed result ≡ self.now }
    {
        if self.numbers.is_empty() {
            ListItems::Values(self.values.as_slice())
        } else {
            ListItems::Numbers(self.numbers)
        }
    }

    /// Returns the items as values and consumes the list. Those that are stored are moved.
    ///
    /// # Errors
    ///
    /// `AllocError` if a growth is refused.
    pub fn into_items(self) -> Result<Vec<Value>, AllocError>
        ensures { IfOk result (λ vs. items_view vs.items ≡ self) }
    {
        let ValueList {
            mut values,
            mut numbers,
            ..
        } = self;
        store(&mut values, &mut numbers)?;
        Ok(values)
    }

    /// Returns the list's size, at most 2^64 - 1.
    pub fn size(&self) -> u64
        ensures { result ≡ min (1 + items_size self.now) (2 ^ 64 - 1) }
    {
        self.size
    }

    /// Returns the list's nesting, at most 2^32 - 1.
    pub fn nesting(&self) -> u32
        ensures { result ≡ min (1 + items_nesting self.now) (2 ^ 32 - 1) }
    {
        self.nesting
    }
}

// Stores the numbers of a range as values, which were not stored before.
fn store(values: &mut Vec<Value>, numbers: &mut NumberRange) -> Result<(), AllocError>
    requires { IsOneOf values.old.items numbers.old }
    ensures ok { OnOk result (IsStored values.old.items numbers.old values.new.items numbers.new) }
    ensures err { OnErr result
        ((values.new.items ≡ values.old.items) × (numbers.new ≡ numbers.old)) }
{
    if !numbers.is_empty() {
        let alloc = *values.allocator();
        *values = numbers.values(alloc)?;
        *numbers = NumberRange::empty();
    }
    Ok(())
}

impl Clone for ValueList {
    ghost is_clone = { λ list copy. copy ≡ list };

    fn clone(&self) -> Result<ValueList, AllocError> {
        Ok(ValueList {
            values: self.values.clone()?,
            numbers: self.numbers,
            size: self.size,
            nesting: self.nesting,
        })
    }
}

impl ValueMap {
    /// Returns the map of the entries.
    pub(crate) fn new(alloc: Global, entries: Vec<(Text, Value)>) -> Result<ValueMap, AllocError>
        ensures { IfOk result (λ map. map ≡ entries_view entries.items) }
    {
        let search = KeySearch::new(alloc, &entries)?;
        let mut size = 1u64;
        let mut nesting = 0u32;
        for (key, value) in &entries {
            size = size
                .saturating_add(1)
                .saturating_add(key.len() as u64)
                .saturating_add(value.size());
            nesting = nesting.max(value.nesting());
        }
        Ok(ValueMap {
            entries,
            search,
            size,
            nesting: nesting.saturating_add(1),
        })
    }

    /// Returns the entries.
    pub fn entries(&self) -> &[(Text, Value)]
        ensures { entries_view result.now ≡ self.now }
    {
        self.entries.as_slice()
    }

    /// Returns the first value of a key, or `None` if the key does not occur.
    pub fn get(&self, key: &str) -> Option<&Value>
        ensures { option_map view (option_copied result) ≡ entry_of key.now self.now }
    {
        self.search.get(&self.entries, key)
    }

    /// Returns whether the map has the key.
    pub fn contains_key(&self, key: &str) -> bool
        ensures { result ≡ has_key key.now self.now }
    {
        self.index_of(key).is_some()
    }

    /// Returns whether a key occurs before an index.
    pub(crate) fn has_before(&self, key: &str, index: usize) -> bool
        ensures { result
            ≡ option_map_or (λ first. nat_lt first index) (index_of key.now self.now) false }
    {
        match self.index_of(key) {
            Some(first) => first < index,
            None => false,
        }
    }

    /// Returns an iterator over the first entry of each key in byte order, or `None` if the key
    /// order is unknown.
    pub(crate) fn in_order(&self) -> Option<InOrder<'_>>
        ensures entries { IfSome result (λ order. entries_view order.entries.now ≡ self.now) }
        ensures in_order { IfSome result (λ order. IsInOrder (to_come order) self.now) }
    {
        InOrder::new(&self.entries, &self.search)
    }

    /// Returns the number of different keys, or `None` if the map has few entries.
    pub(crate) fn key_count(&self) -> Option<usize>
        ensures { IfSome result (λ count. HasKeyCount count self.now) }
    {
        self.search.key_count(&self.entries)
    }

    /// Returns the index of a key's first entry, or `None` if the key does not occur.
    fn index_of(&self, key: &str) -> Option<usize>
        ensures { result ≡ index_of key.now self.now }
    {
        self.search.index_of(&self.entries, key)
    }

    /// Returns the map's size, at most 2^64 - 1.
    pub fn size(&self) -> u64
        ensures { result ≡ min (1 + entries_size self.now) (2 ^ 64 - 1) }
    {
        self.size
    }

    /// Returns the map's nesting, at most 2^32 - 1.
    pub fn nesting(&self) -> u32
        ensures { result ≡ min (1 + entries_nesting self.now) (2 ^ 32 - 1) }
    {
        self.nesting
    }
}
