//! Makes values from several others for the reference machine.

use crate::end::End;
use crate::machine::ReferenceMachine;
use jt_budget::Spent;
use jt_filters::{FilterId, Limits, OpError, OpId, TestId, apply, binary, range, test, unary};
use jt_value::{Fault, Text, Value};
use std::alloc::Global;

// Returns the result of an operator on its operands, the left one first.
fn operated(
    alloc: Global,
    operator: OpId,
    operands: &[Value],
    limits: Limits,
) -> Result<Value, End> {
    if !operator.takes(operands.len()) {
        return Err(End::Wrong);
    }
    let made = match operands {
        [operand] => unary(alloc, operator, operand, limits),
        [left, right] => binary(alloc, operator, left, right, limits),
        [_, _, _] => range(alloc, operands, limits),
        _ => Err(OpError::NoMemory),
    };
    Ok(made?)
}

// Returns the number of operands of an operator.
fn operands_of(operator: OpId) -> usize {
    if operator.takes(3) {
        return 3;
    }
    if operator.takes(2) { 2 } else { 1 }
}

// Returns the map of alternating keys and values.
fn map_of(alloc: Global, values: &[Value]) -> Result<Value, End> {
    check_keys(values)?;
    let mut entries = Vec::new(alloc);
    for pair in values.chunks(2) {
        if let [key, value] = pair {
            let name = key.as_text().unwrap_or("");
            put_entry(alloc, &mut entries, name, value.try_clone(alloc)?)?;
        }
    }
    Ok(Value::from_entries(alloc, entries)?)
}

// Appends an entry. A key that exists keeps its index and takes the new value.
fn put_entry(
    alloc: Global,
    entries: &mut Vec<(Text, Value)>,
    name: &str,
    value: Value,
) -> Result<(), End> {
    for entry in entries.iter_mut() {
        if entry.0.as_str() == name {
            entry.1 = value;
            return Ok(());
        }
    }
    entries.push((Text::from_str(alloc, name)?, value))?;
    Ok(())
}

// Checks that all keys are texts. The fault of an undefined key comes first.
fn check_keys(values: &[Value]) -> Result<(), End> {
    let mut fault = None;
    for (i, value) in values.iter().enumerate() {
        if i % 2 == 1 || value.as_text().is_some() {
            continue;
        }
        if let Value::Undefined = value {
            return Err(End::Fault(Fault::Undefined));
        }
        fault = Some(Fault::BadType);
    }
    match fault {
        Some(fault) => Err(End::Fault(fault)),
        None => Ok(()),
    }
}

impl ReferenceMachine<'_> {
    fn limits(&self) -> Limits {
        Limits {
            size: self.left.size,
            nesting: self.left.nesting,
        }
    }

    // Returns the cost of reading the values at these indices.
    fn cost(&self, places: &[usize]) -> Result<u64, End> {
        let mut sizes = 0u64;
        for place in places {
            sizes = sizes.saturating_add(self.value(*place)?.size());
        }
        Ok(1 + sizes / 64)
    }

    // Returns copies of the values at these indices.
    fn values_at(&self, places: &[usize]) -> Result<Vec<Value>, End> {
        let mut values = Vec::new(self.alloc);
        for place in places {
            values.push(self.value(*place)?.try_clone(self.alloc)?)?;
        }
        Ok(values)
    }

    // Pops `count` values, charges for their sizes, and returns copies of them, the deepest first.
    fn take(&mut self, count: usize) -> Result<Vec<Value>, End> {
        let places = self.pop_many(count)?;
        let cost = self.cost(&places)?;
        self.pay(cost)?;
        self.values_at(&places)
    }

    pub(crate) fn operate(&mut self, id: u8) -> Result<(), End> {
        let operator = OpId::by_id(id).ok_or(End::Wrong)?;
        let operands = self.take(operands_of(operator))?;
        let made = operated(self.alloc, operator, &operands, self.limits())?;
        self.push(made)
    }

    pub(crate) fn filter(&mut self, id: u8, count: usize, escaping: bool) -> Result<(), End> {
        let filter = FilterId::by_id(id).ok_or(End::Wrong)?;
        let values = self.take(count)?;
        if !filter.takes(values.len()) {
            return Err(End::Wrong);
        }
        let made = apply(self.alloc, filter, &values, escaping, self.limits())?;
        self.push(made)
    }

    pub(crate) fn test(&mut self, id: u8, count: usize) -> Result<(), End> {
        let by = TestId::by_id(id).ok_or(End::Wrong)?;
        let values = self.take(count)?;
        if !by.takes(values.len()) {
            return Err(End::Wrong);
        }
        let truth = test(by, &values)?;
        self.push(Value::Bool(truth))
    }

    pub(crate) fn make_list(&mut self, count: usize) -> Result<(), End> {
        let values = self.take(count)?;
        let list = Value::list(self.alloc, values)?;
        self.push(list)
    }

    pub(crate) fn make_map(&mut self, entries: usize) -> Result<(), End> {
        let values = self.take(entries.saturating_mul(2))?;
        let map = map_of(self.alloc, &values)?;
        self.push(map)
    }

    // Pushes the items of a value, the last one on top. The sizes of all items are checked first.
    pub(crate) fn unpack(&mut self, count: usize) -> Result<(), End> {
        let place = self.pop()?;
        let cost = 1 + self.value(place)?.size() / 64;
        self.pay(cost)?;
        let items = self.items_at(place)?;
        if items.len() != count {
            return Err(End::Fault(Fault::Unpack));
        }
        for item in &items {
            if self.value(*item)?.size() > u64::from(self.left.size) {
                return Err(End::Spent(Spent::Size));
            }
        }
        self.push_all(&items)
    }

    fn push_all(&mut self, places: &[usize]) -> Result<(), End> {
        for place in places {
            self.push_at(*place)?;
        }
        Ok(())
    }
}
