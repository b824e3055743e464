//! A list in which many items are looked up, as by `select('in', list)`. Items that equal a number
//! have their answers already, and other items are found by their codes. So a search takes time in
//! proportion to log n.
ghost use Rattle.std.specs.Prelude.{◌≡◌, ℕ, true, List, Some, None, IfOk, OnOk, if◌then◌else◌};
ghost use Rattle.std.specs.Cmp.Lexicographic.{slice_cmp};
ghost use Rattle.std.specs.Ordering.{is_eq, nat_cmp};
ghost use Rattle.jt_value.specs.Tree.{Tree};
ghost use Rattle.jt_value.specs.View.{view, items_view};
ghost use Rattle.jt_op_semantics.specs.Membership.{has_item};
ghost use Rattle.jt_filters.specs.internal.Answers.{AreRight};
ghost use Rattle.jt_filters.specs.internal.Codes.{code};
ghost use Rattle.jt_filters.specs.internal.IndicesOf.{at_code, HasIndex, Covers};
ghost use Rattle.jt_filters.specs.internal.Operands.{tree_of};
ghost use Rattle.jt_filters.specs.internal.Seen as seen;

use crate::answers::{Answer, answers_of};
use crate::codes::exact_code_of;
use crate::operand::Operand;
use crate::seen_numbers::Occurrence;
use crate::unique::{are_equal, number_like};
use jt_value::{NoMemory, Value};
use std::alloc::Global;
use std::collections::BTreeMap;

/// The items of a list, and what finds others among them.
#[derive(Drop)]
pub(crate) struct Members<'a> {
    items: &'a [Value],
    /// The index of an item that has a code, for each code of an item that equals no number.
    codes: BTreeMap<Vec<u8>, usize>,
    /// The answer for the number that is looked up at each index. Nothing is proved of the indices:
    /// the number is compared.
    answers: Vec<Answer>,
    ghost known: { Covers codes (items_view items.now) },
    ghost answered: { AreRight (items_view items.now) answers.items },
}

impl<'a> Members<'a> {
    /// Returns the members of a list, in which the numbers `sought` of `count` items are looked up.
    pub(crate) fn new(
        alloc: Global,
        items: &'a [Value],
        sought: Vec<Occurrence>,
        count: usize,
    ) -> Result<Members<'a>, NoMemory>
        ensures { IfOk result (λ m. items_view m.items.now ≡ items_view items.now) }
    {
        let codes = codes_of(alloc, items)?;
        let answers = answers_of(alloc, items, sought, count)?;
        Ok(Members {
            items,
            codes,
            answers,
        })
    }

    /// Returns whether an operand equals one of the items. `index` is the index of the item that is
    /// looked up. If memory is refused, each item is compared, which allocates nothing.
    pub(crate) fn has(&self, alloc: Global, operand: Operand<'_>, index: usize) -> bool
        ensures { result ≡ has_item (tree_of operand.entry) (items_view self.now.items.now) }
    {
        match number_like(operand) {
            Some(number) => self.has_number(operand, number, index),
            None => self.has_code(alloc, operand),
        }
    }

    /// Returns whether an operand that equals a number equals one of the items. Without an answer
    /// for the number each item is compared.
    #[tactic(auto, using(crate::proofs::NumberAnswers::right_at))]
    fn has_number(&self, operand: Operand<'_>, number: i64, index: usize) -> bool
        requires { seen.number_like (tree_of operand) ≡ Some number }
        ensures { result ≡ has_item (tree_of operand.entry) (items_view self.now.items.now) }
    {
        if index < self.answers.len() && self.answers[index].number == number {
            self.answers[index].is_member
        } else {
            has_equal(operand, self.items)
        }
    }

    /// Returns whether an operand that equals no number equals one of the items.
    #[tactic(auto, using(crate::proofs::ListMembers::not_covered))]
    fn has_code(&self, alloc: Global, operand: Operand<'_>) -> bool
        requires { seen.number_like (tree_of operand) ≡ None }
        ensures { result ≡ has_item (tree_of operand.entry) (items_view self.now.items.now) }
    {
        match index_of(alloc, &self.codes, operand) {
            Ok(Some(index)) => has_at(operand, self.items, index) || has_equal(operand, self.items),
            Ok(None) => false,
            Err(_) => has_equal(operand, self.items),
        }
    }
}

/// Returns the index of an item for each code of an item that equals no number.
fn codes_of(alloc: Global, items: &[Value]) -> Result<BTreeMap<Vec<u8>, usize>, NoMemory>
    ensures { IfOk result (λ m. Covers m (items_view items.now)) }
{
    let mut codes = BTreeMap::new(alloc);
    let mut left = items.len();
    while left > 0 {
        left -= 1;
        put_item(alloc, &mut codes, &items[left], left)?;
    }
    Ok(codes)
}

/// Stores the index of an item for its code, unless the item equals a number.
#[tactic(auto, using(crate::proofs::ListMembers::numbered))]
fn put_item(
    alloc: Global,
    codes: &mut BTreeMap<Vec<u8>, usize>,
    item: &Value,
    at: usize,
) -> Result<(), NoMemory>
    ensures there { OnOk result (HasIndex codes.new (view item.now)) }
    ensures kept { OnOk result ((t : Tree) → HasIndex codes.old t → HasIndex codes.new t) }
{
    match number_like(Operand::Value(item)) {
        Some(_) => Ok(()),
        None => put_code(codes, exact_code_of(alloc, Operand::Value(item))?, at),
    }
}

/// Stores the index of a code.
fn put_code(codes: &mut BTreeMap<Vec<u8>, usize>, code: Vec<u8>, at: usize) -> Result<(), NoMemory>
    ensures { OnOk result ((c : List ℕ)
        → at_code codes.new c
        ≡ (if is_eq (slice_cmp nat_cmp c code.items) then Some at else at_code codes.old c)) }
{
    codes.insert(code, at)?;
    Ok(())
}

/// Returns the index of an item that has the code of an operand, if there is one.
fn index_of(
    alloc: Global,
    codes: &BTreeMap<Vec<u8>, usize>,
    operand: Operand<'_>,
) -> Result<Option<usize>, NoMemory>
    ensures { IfOk result (λ o. o ≡ at_code codes.now (code (tree_of operand.entry))) }
{
    let code = exact_code_of(alloc, operand)?;
    Ok(codes.get(code.as_slice()).copied())
}

/// Returns whether an operand equals the item at an index.
fn has_at(operand: Operand<'_>, items: &[Value], index: usize) -> bool
    ensures { result ≡ true → has_item (tree_of operand.entry) (items_view items.now) ≡ true }
{
    match items.get(index) {
        Some(item) => are_equal(operand, Operand::Value(item)),
        None => false,
    }
}

/// Returns whether an operand equals one of the items.
fn has_equal(operand: Operand<'_>, items: &[Value]) -> bool
    ensures { result ≡ has_item (tree_of operand.entry) (items_view items.now) }
{
    items
        .iter()
        .any(|item| are_equal(operand, Operand::Value(item)))
}
