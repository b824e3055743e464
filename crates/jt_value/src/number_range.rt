//! Defines ranges of numbers, which are computed when they are read.
ghost use Rattle.std.specs.Prelude.{◌≡◌, ◌+ℤ◌, FitsSigned};
ghost use Rattle.std.specs.Int.{w64};
ghost use Rattle.jt_value.specs.Numbers.{HaveRoom};

use crate::range_length::count;
use crate::value::Value;
use std::alloc::{AllocError, Global};

/// The numbers from a first one by a step. They are computed and not stored.
#[derive(Clone, Copy)]
pub struct NumberRange {
    first: i64,
    step: i64,
    count: usize,
    ghost room: { HaveRoom count first step },
}

impl NumberRange {
    ghost use Rattle.std.specs.Prelude.{◌≡◌, ◌≢◌, ◌↔◌, ℕ, not, eqb, pos, IfOk, IfSome, IfNone};
    ghost use Rattle.std.specs.Prelude.{IsNone, option_map};
    ghost use Rattle.jt_value.specs.ListItems.{numbers_of, items_count, item_at};
    ghost use Rattle.jt_value.specs.Numbers.{stepped, range_count};
    ghost use Rattle.jt_value.specs.Tree.{number, item, no_items};
    ghost use Rattle.jt_value.specs.View.{items_view};

    /// Returns the numbers from `start` by `step` before `stop`, or `None` if the step is 0.
    pub fn new(start: i64, stop: i64, step: i64) -> Option<NumberRange>
        ensures some { IfSome result
            (λ numbers. numbers_of numbers ≡ stepped (range_count start stop step) start step) }
        ensures none { IsNone result ↔ (step ≡ pos 0) }
    {
        if step == 0 {
            return None;
        }
        Some(NumberRange::of_steps(start, stop, step))
    }

    // Returns the numbers from `start` by `step` that lie before `stop`.
    fn of_steps(start: i64, stop: i64, step: i64) -> NumberRange
        requires { pos 0 ≢ step }
        ensures { numbers_of result ≡ stepped (range_count start stop step) start step }
    {
        let count = count(start, stop, step) as usize;
        NumberRange {
            first: start,
            step,
            count,
        }
    }

    /// Returns the range without numbers.
    pub fn empty() -> NumberRange
        ensures { numbers_of result ≡ no_items }
    {
        NumberRange {
            first: 0,
            step: 0,
            count: 0,
        }
    }

    /// Returns how many numbers the range has.
    pub fn len(self) -> usize
        ensures { result ≡ items_count (numbers_of self) }
    {
        self.count
    }

    /// Returns whether the range has no number.
    pub fn is_empty(self) -> bool
        ensures { result ≡ eqb (items_count (numbers_of self)) 0 }
    {
        self.len() == 0
    }

    /// Returns the first number and the range of the numbers after it.
    pub fn split_first(self) -> Option<(i64, NumberRange)>
        ensures some { IfSome result (λ p. numbers_of self ≡ item (number p.0) (numbers_of p.1)) }
        ensures none { IfNone result (numbers_of self ≡ no_items) }
    {
        if self.count == 0 {
            return None;
        }
        let rest = NumberRange {
            first: sum_in_range(self.first, self.step),
            step: self.step,
            count: self.count - 1,
        };
        Some((self.first, rest))
    }

    /// Returns the number at an index from 0.
    pub fn get(self, index: usize) -> Option<i64>
        ensures { option_map number result ≡ item_at (numbers_of self) index }
    {
        let mut rest = self;
        let mut before = index;
        while let Some((number, behind)) = rest.split_first() {
            if before == 0 {
                return Some(number);
            }
            before -= 1;
            rest = behind;
        }
        None
    }

    /// Returns the numbers as values.
    ///
    /// # Errors
    ///
    /// `AllocError` if a growth is refused.
    pub fn values(self, alloc: Global) -> Result<Vec<Value>, AllocError>
        ensures { IfOk result (λ vs. items_view vs.items ≡ numbers_of self) }
    {
        let mut values = Vec::with_capacity(alloc, self.count)?;
        let mut rest = self;
        while let Some((number, behind)) = rest.split_first() {
            values.push(Value::Int(number))?;
            rest = behind;
        }
        Ok(values)
    }
}

// Returns `x + y`, or `x` if the sum overflows. A sum overflows only after the last number of a
// range.
fn sum_in_range(x: i64, y: i64) -> i64
    ensures { FitsSigned w64 (x +ℤ y) → result ≡ x +ℤ y }
{
    x.checked_add(y).unwrap_or(x)
}
