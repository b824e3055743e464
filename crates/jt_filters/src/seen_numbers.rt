//! Remembers which numbers of a list were seen. The numbers are sorted once. Each item has the
//! index of its number, so a number is found without a search.
ghost use Rattle.std.specs.Prelude.{◌≡◌, ℤ, false, ◌||◌, IfOk, IfSome, IfNone, OnOk};
ghost use Rattle.std.specs.Ordering.{int_eq};
ghost use Rattle.jt_filters.specs.internal.NumberEntries.{AreDistinct, AreRising, AreUnseen, IsAt};
ghost use Rattle.jt_filters.specs.internal.NumberEntries.{occurs, was_seen};

use crate::attributes::item_of;
use crate::digit_sort::sorted;
use crate::item_list::ItemList;
use crate::operand::Operand;
use crate::unique::number_like;
use jt_value::NoMemory;
use std::alloc::Global;

/// A number of the list, and whether it was seen.
#[derive(Clone, Copy)]
struct Entry {
    number: i64,
    is_seen: bool,
}

/// A number with the index of an item that equals it.
#[derive(Clone, Copy)]
pub(crate) struct Occurrence {
    pub(crate) number: i64,
    pub(crate) item: usize,
}

/// The numbers that the items of a list equal, and whether each was seen.
#[derive(Drop)]
pub(crate) struct SeenNumbers {
    entries: Vec<Entry>,
    /// The index of each item's entry. Nothing is proved of it: an index is tested before it is
    /// used.
    indices: Vec<usize>,
    ghost distinct: { AreDistinct entries.items },
}

impl SeenNumbers {
    /// Returns the numbers that the items equal. None of them was seen.
    pub(crate) fn new(alloc: Global, items: ItemList<'_>) -> Result<SeenNumbers, NoMemory>
        ensures { IfOk result (λ s. AreUnseen s.entries.items) }
    {
        let occurrences = sorted(alloc, occurrences_in(alloc, items, None)?)?;
        let entries = entries_of(alloc, &occurrences)?;
        let indices = indices_of(alloc, &occurrences, items.len())?;
        Ok(SeenNumbers { entries, indices })
    }
}

/// Returns whether a number was seen. Afterwards it was. `item` is the index of an item that equals
/// the number.
pub(crate) fn was_number_seen(
    numbers: &mut SeenNumbers,
    number: i64,
    item: usize,
) -> Result<bool, NoMemory>
    ensures had { IfOk result (λ b. b ≡ was_seen numbers.old.entries.items number) }
    ensures has { OnOk result ((z : ℤ)
        → was_seen numbers.new.entries.items z
        ≡ (int_eq number z || was_seen numbers.old.entries.items z)) }
{
    let hint = numbers.indices.get(item).copied();
    match index_of(&numbers.entries, number, hint) {
        Some(index) => Ok(see(&mut numbers.entries, number, index)),
        None => {
            add(&mut numbers.entries, number)?;
            Ok(false)
        },
    }
}

/// Returns whether the number of an entry was seen. Afterwards it was.
fn see(entries: &mut Vec<Entry>, number: i64, index: usize) -> bool
    requires distinct { AreDistinct entries.old.items }
    requires there { IsAt number index entries.old.items }
    ensures distinct { AreDistinct entries.new.items }
    ensures had { result ≡ was_seen entries.old.items number }
    ensures has { (z : ℤ)
        → was_seen entries.new.items z ≡ (int_eq number z || was_seen entries.old.items z) }
{
    let is_seen = entries[index].is_seen;
    entries[index] = Entry {
        number,
        is_seen: true,
    };
    is_seen
}

/// Adds the entry of a number that was seen.
fn add(entries: &mut Vec<Entry>, number: i64) -> Result<(), NoMemory>
    requires distinct { AreDistinct entries.old.items }
    requires new { occurs number entries.old.items ≡ false }
    ensures distinct { AreDistinct entries.new.items }
    ensures had { was_seen entries.old.items number ≡ false }
    ensures has { OnOk result ((z : ℤ)
        → was_seen entries.new.items z ≡ (int_eq number z || was_seen entries.old.items z)) }
{
    entries.push(Entry {
        number,
        is_seen: true,
    })?;
    Ok(())
}

/// Returns the index of the entry of a number. `hint` is the index if the sort was right. Otherwise
/// each entry is compared.
fn index_of(entries: &[Entry], number: i64, hint: Option<usize>) -> Option<usize>
    ensures there { IfSome result (λ i. IsAt number i entries.now) }
    ensures missing { IfNone result (occurs number entries.now ≡ false) }
{
    if let Some(index) = hint {
        if index < entries.len() && entries[index].number == number {
            return Some(index);
        }
    }
    search(entries, number)
}

/// Returns the index of the entry of a number.
fn search(entries: &[Entry], number: i64) -> Option<usize>
    ensures there { IfSome result (λ i. IsAt number i entries.now) }
    ensures missing { IfNone result (occurs number entries.now ≡ false) }
{
    for (index, entry) in entries.iter().enumerate() {
        if entry.number == number {
            return Some(index);
        }
    }
    None
}

/// Returns the items that equal a number, each with that number. With a key it takes the number
/// that the item's attribute equals.
pub(crate) fn occurrences_in(
    alloc: Global,
    all: ItemList<'_>,
    key: Option<&str>,
) -> Result<Vec<Occurrence>, NoMemory> {
    let mut occurrences = Vec::new(alloc);
    let mut items = all;
    let mut index = 0usize;
    while let Some((item, behind)) = items.split_first() {
        if let Some(number) = number_at(item, key) {
            occurrences.push(Occurrence {
                number,
                item: index,
            })?;
        }
        index = index.wrapping_add(1);
        items = behind;
    }
    Ok(occurrences)
}

/// Returns the number that an item equals, or with a key the one that its attribute equals.
fn number_at(item: Operand<'_>, key: Option<&str>) -> Option<i64> {
    match key {
        Some(key) => match item_of(item, key) {
            Ok(attribute) => number_like(attribute),
            Err(_) => None,
        },
        None => number_like(item),
    }
}

/// Returns an entry for each number that is greater than all before it, so for each one if they are
/// sorted.
fn entries_of(alloc: Global, occurrences: &[Occurrence]) -> Result<Vec<Entry>, NoMemory>
    ensures { IfOk result (λ v. AreDistinct v.items × AreUnseen v.items) }
{
    let mut entries = Vec::with_capacity(alloc, occurrences.len())?;
    let Some((first, rest)) = occurrences.split_first() else {
        return Ok(entries);
    };
    let mut last = first.number;
    entries.push(unseen(last))?;
    for occurrence in rest {
        last = push_rising(&mut entries, last, occurrence.number)?;
    }
    Ok(entries)
}

/// Appends the entry of a number that is greater than all before it. Returns the greatest number.
#[tactic(auto, using(crate::proofs::SeenEntries::rising_pushed))]
fn push_rising(entries: &mut Vec<Entry>, last: i64, number: i64) -> Result<i64, NoMemory>
    requires { AreRising entries.old.items last }
    ensures { IfOk result (λ n. AreRising entries.new.items n) }
{
    if last < number {
        entries.push(unseen(number))?;
        return Ok(number);
    }
    Ok(last)
}

/// Returns the entry of a number that was not seen.
fn unseen(number: i64) -> Entry
    ensures number { result.number ≡ number }
    ensures unseen { result.is_seen ≡ false }
{
    Entry {
        number,
        is_seen: false,
    }
}

/// Returns the index of the entry of each item, if the occurrences are sorted. An item that equals
/// no number has the index 0.
fn indices_of(
    alloc: Global,
    occurrences: &[Occurrence],
    count: usize,
) -> Result<Vec<usize>, NoMemory> {
    if occurrences.is_empty() {
        return Ok(Vec::new(alloc));
    }
    let mut indices = vec![in alloc; 0; count]?;
    let mut index = 0usize;
    let mut last = None;
    for occurrence in occurrences {
        if last.is_some_and(|number| number < occurrence.number) {
            index = index.wrapping_add(1);
        }
        last = Some(occurrence.number);
        if let Some(slot) = indices.get_mut(occurrence.item) {
            *slot = index;
        }
    }
    Ok(indices)
}
