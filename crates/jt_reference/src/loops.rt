//! Executes the reference machine's loops.

use crate::end::End;
use crate::machine::{ReferenceMachine, StackEntry, UNDEFINED};
use jt_image::LoopField;
use jt_value::{Fault, ListItems, Text, Value};
use std::alloc::Global;
use std::mem::replace;

/// A loop: the indices of its items, the number of taken items, and the indices of the kept items.
#[derive(Drop)]
pub(crate) struct Loop {
    items: Vec<usize>,
    position: usize,
    kept: Vec<usize>,
}

/// The value of a loop field: the index of a value, a number or a truth value.
#[derive(Clone, Copy)]
enum LoopFieldValue {
    Place(usize),
    Number(i128),
    Truth(bool),
}

// Appends the items of a value to `into`.
fn put_items(alloc: Global, value: &Value, into: &mut Vec<Value>) -> Result<(), End> {
    if let Some(text) = value.as_text() {
        return put_characters(alloc, text, into);
    }
    if let Some(entries) = value.as_map() {
        return put_keys(alloc, entries, into);
    }
    match (value.as_list(), value) {
        (Some(ListItems::Values(values)), _) => put_copies(alloc, values, into),
        (Some(ListItems::Numbers(numbers)), _) => put_copies(alloc, &numbers.values(alloc)?, into),
        (None, Value::Undefined) => Ok(()),
        _ => Err(End::Fault(Fault::NotIterable)),
    }
}

fn put_characters(alloc: Global, text: &str, into: &mut Vec<Value>) -> Result<(), End> {
    for c in text.chars() {
        let mut one = String::new(alloc);
        one.push(c)?;
        into.push(Value::from_text(one)?)?;
    }
    Ok(())
}

fn put_keys(alloc: Global, entries: &[(Text, Value)], into: &mut Vec<Value>) -> Result<(), End> {
    for entry in entries {
        into.push(Value::text(alloc, entry.0.as_str())?)?;
    }
    Ok(())
}

fn put_copies(alloc: Global, list: &[Value], into: &mut Vec<Value>) -> Result<(), End> {
    for item in list {
        into.push(item.try_clone(alloc)?)?;
    }
    Ok(())
}

impl Loop {
    // Returns the index of the item with this number, counted from 1.
    fn item(&self, number: usize) -> usize {
        match number.checked_sub(1) {
            Some(index) => *self.items.get(index).unwrap_or(&UNDEFINED),
            None => UNDEFINED,
        }
    }

    // Returns a field of the current loop turn.
    fn loop_field_value(&self, field: LoopField) -> LoopFieldValue {
        let p = self.position as i128;
        let n = self.items.len() as i128;
        match field {
            LoopField::Item => LoopFieldValue::Place(self.item(self.position)),
            LoopField::Index => LoopFieldValue::Number(p),
            LoopField::Index0 => LoopFieldValue::Number(p - 1),
            LoopField::RevIndex => LoopFieldValue::Number(n - p + 1),
            LoopField::RevIndex0 => LoopFieldValue::Number(n - p),
            LoopField::First => LoopFieldValue::Truth(p == 1),
            LoopField::Last => LoopFieldValue::Truth(p == n),
            LoopField::Length => LoopFieldValue::Number(n),
            LoopField::Previous => LoopFieldValue::Place(self.item(
                self.position.saturating_sub(1),
            )),
            LoopField::Next => LoopFieldValue::Place(self.item(self.position.saturating_add(1))),
        }
    }

    // Keeps the current item, if one was taken.
    fn keep(&mut self) -> Result<(), End> {
        if self.position > 0 {
            let current = self.item(self.position);
            self.kept.push(current)?;
        }
        Ok(())
    }
}

impl ReferenceMachine<'_> {
    /// Stores the items of a value as new values, and returns their indices.
    pub(crate) fn items_at(&mut self, place: usize) -> Result<Vec<usize>, End> {
        let alloc = self.alloc;
        let before = self.values.len();
        let value = self.value(place)?.try_clone(alloc)?;
        put_items(alloc, &value, &mut self.values)?;
        let mut places = Vec::new(alloc);
        for place in before..self.values.len() {
            places.push(place)?;
        }
        Ok(places)
    }

    pub(crate) fn start_loop(&mut self) -> Result<(), End> {
        let place = self.pop()?;
        let cost = 1 + self.value(place)?.size() / 64;
        self.pay(cost)?;
        let items = self.items_at(place)?;
        let started = Loop {
            items,
            position: 0,
            kept: Vec::new(self.alloc),
        };
        let place = self.loops.len();
        self.loops.push(started)?;
        self.push_entry(StackEntry::Loop(place))
    }

    pub(crate) fn next_turn(&mut self, target: u32) -> Result<(), End> {
        let running = self.loop_at(0)?;
        if running.position >= running.items.len() {
            return self.jump(target);
        }
        running.position = running.position.saturating_add(1);
        self.pay(1)
    }

    pub(crate) fn loop_field(&mut self, field: u8, above: usize) -> Result<(), End> {
        let field = LoopField::by_id(field).ok_or(End::Wrong)?;
        self.pay(1)?;
        match self.loop_at(above)?.loop_field_value(field) {
            LoopFieldValue::Place(place) => self.push_at(place),
            LoopFieldValue::Truth(truth) => self.push(Value::Bool(truth)),
            LoopFieldValue::Number(n) => match i64::try_from(n) {
                Ok(number) => self.push(Value::Int(number)),
                Err(_) => Err(End::Fault(Fault::Overflow)),
            },
        }
    }

    pub(crate) fn keep(&mut self, above: usize) -> Result<(), End> {
        let place = self.pop()?;
        self.pay(1)?;
        if self.value(place)?.truth() {
            self.loop_at(above)?.keep()?;
        }
        Ok(())
    }

    pub(crate) fn rewind(&mut self) -> Result<(), End> {
        self.pay(1)?;
        let nothing = Vec::new(self.alloc);
        let running = self.loop_at(0)?;
        running.items = replace(&mut running.kept, nothing);
        running.position = 0;
        Ok(())
    }

    pub(crate) fn end_loop(&mut self) -> Result<(), End> {
        let is_new = self.loop_at(0)?.position == 0;
        self.pop_entry()?;
        self.pay(1)?;
        self.push(Value::Bool(is_new))
    }
}
