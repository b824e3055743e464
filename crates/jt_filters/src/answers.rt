//! Looks up many numbers in a list. The numbers of both are sorted, so one pass finds all answers,
//! and reads memory in order.
ghost use Rattle.std.specs.Prelude.{◌≡◌, ℕ, ℤ, ◌+◌, ◌<◌, true, false, ◌||◌, length, IfOk, OnOk};
ghost use Rattle.std.specs.Prelude.{slice_index_or};
ghost use Rattle.std.specs.Int.Signed.{◌<ℤ◌};
ghost use Rattle.std.specs.List.{list_any};
ghost use Rattle.std.specs.List.Sorted.{IsSorted};
ghost use Rattle.std.specs.Ordering.{int_cmp, int_eq};
ghost use Rattle.jt_value.specs.Equality.{equal};
ghost use Rattle.jt_value.specs.Tree.{Items, number};
ghost use Rattle.jt_value.specs.View.{view, items_view};
ghost use Rattle.jt_filters.specs.internal.Answers.{AreNumbers, IsRight, AreRight};

use crate::digit_sort::sorted;
use crate::operand::Operand;
use crate::seen_numbers::Occurrence;
use crate::unique::number_like;
use jt_value::{NoMemory, Value};
use std::alloc::Global;

/// A number, and whether an item of the list equals it.
#[derive(Clone, Copy)]
pub(crate) struct Answer {
    pub(crate) number: i64,
    pub(crate) is_member: bool,
}

/// Returns the answers for the numbers `sought` of `count` items, each at the index of its item.
#[tactic(auto, using(crate::proofs::NumberAnswers::filled))]
pub(crate) fn answers_of(
    alloc: Global,
    list: &[Value],
    sought: Vec<Occurrence>,
    count: usize,
) -> Result<Vec<Answer>, NoMemory>
    ensures { IfOk result (λ v. AreRight (items_view list.now) v.items) }
{
    if sought.is_empty() {
        return Ok(Vec::new(alloc));
    }
    let numbers = sorted_numbers(alloc, list)?;
    let sought = sorted(alloc, sought)?;
    let mut answers = vec![in alloc; answer_for(&numbers, 0, 0); count]?;
    let mut place = 0;
    for occurrence in &sought {
        place = place_of(&numbers, place, occurrence.number);
        put(
            &mut answers,
            occurrence.item,
            answer_for(&numbers, occurrence.number, place),
        );
    }
    Ok(answers)
}

/// Returns the numbers that the items of a list equal, in ascending order.
fn sorted_numbers(alloc: Global, list: &[Value]) -> Result<Vec<i64>, NoMemory>
    ensures numbers { IfOk result (λ v. AreNumbers (items_view list.now) v.items) }
    ensures sorted { IfOk result (λ v. IsSorted int_cmp v.items) }
{
    let mut numbers = numbers_in(alloc, list)?;
    numbers.sort_unstable();
    Ok(numbers)
}

/// Returns the numbers that the items of a list equal.
fn numbers_in(alloc: Global, list: &[Value]) -> Result<Vec<i64>, NoMemory>
    ensures { IfOk result (λ v. AreNumbers (items_view list.now) v.items) }
{
    let mut numbers = Vec::with_capacity(alloc, list.len())?;
    let mut left = list.len();
    while left > 0 {
        left -= 1;
        push_number(&mut numbers, &list[left])?;
    }
    Ok(numbers)
}

/// Appends the number that an item equals, if any.
#[tactic(auto, using(crate::proofs::NumberAnswers::pushed_numbers))]
fn push_number(numbers: &mut Vec<i64>, item: &Value) -> Result<(), NoMemory>
    ensures { OnOk result ((z : ℤ) → list_any (int_eq z) numbers.new.items
        ≡ (equal (number z) (view item.now) || list_any (int_eq z) numbers.old.items)) }
{
    if let Some(number) = number_like(Operand::Value(item)) {
        numbers.push(number)?;
    }
    Ok(())
}

/// Returns the place of the first number from a place on that is not below `number`.
fn place_of(numbers: &[i64], from: usize, number: i64) -> usize {
    let mut place = from;
    while place < numbers.len() && numbers[place] < number {
        place += 1;
    }
    place
}

/// Returns the answer for a number, whose place is known if the numbers are looked up in order.
fn answer_for(numbers: &[i64], number: i64, place: usize) -> Answer
    requires { IsSorted int_cmp numbers.now }
    ensures { (ts : Items) → AreNumbers ts numbers.now → IsRight ts result }
{
    Answer {
        number,
        is_member: is_among(numbers, number, place),
    }
}

/// Returns whether a number is one of the numbers. If its place is wrong, each one is compared.
fn is_among(numbers: &[i64], number: i64, place: usize) -> bool
    requires { IsSorted int_cmp numbers.now }
    ensures { result ≡ list_any (int_eq number) numbers.now }
{
    if is_at(numbers, number, place) {
        return true;
    }
    if is_between(numbers, number, place) {
        return false;
    }
    occurs(numbers, number)
}

/// Returns whether a number is at a place.
fn is_at(numbers: &[i64], number: i64, place: usize) -> bool
    ensures { result ≡ true → list_any (int_eq number) numbers.now ≡ true }
{
    if place < numbers.len() {
        number == numbers[place]
    } else {
        false
    }
}

/// Returns whether a number is above all those before a place, and below those from it on.
fn is_between(numbers: &[i64], number: i64, place: usize) -> bool
    requires { IsSorted int_cmp numbers.now }
    ensures { result ≡ true → list_any (int_eq number) numbers.now ≡ false }
{
    follows(numbers, number, place) && precedes(numbers, number, place)
}

/// Returns whether a number is above the one before a place, if there is one.
fn follows(numbers: &[i64], number: i64, place: usize) -> bool
    ensures { result ≡ true → (k : ℕ) (d : ℤ) → k + 1 ≡ place
        → (k < length numbers.now) × (slice_index_or numbers.now k d <ℤ number) }
{
    if place == 0 {
        return true;
    }
    if place > numbers.len() {
        return false;
    }
    numbers[place - 1] < number
}

/// Returns whether a number is below the one at a place, if there is one.
fn precedes(numbers: &[i64], number: i64, place: usize) -> bool
    ensures { result ≡ true → (d : ℤ) → place < length numbers.now
        → number <ℤ slice_index_or numbers.now place d }
{
    if place < numbers.len() {
        number < numbers[place]
    } else {
        true
    }
}

/// Returns whether a number is one of the numbers.
fn occurs(numbers: &[i64], number: i64) -> bool
    ensures { result ≡ list_any (int_eq number) numbers.now }
{
    for other in numbers {
        if number == *other {
            return true;
        }
    }
    false
}

/// Replaces the answer at an index, if there is one.
#[tactic(auto, using(crate::proofs::NumberAnswers::replaced))]
fn put(answers: &mut Vec<Answer>, index: usize, answer: Answer)
    ensures { (ts : Items)
        → AreRight ts answers.old.items
        → IsRight ts answer
        → AreRight ts answers.new.items }
{
    if index < answers.len() {
        answers[index] = answer;
    }
}
