//! Defines how runs end.

use jt_budget::Spent;
use jt_value::Fault;

/// A place in a template: the template's name, and the line of a tag.
#[derive(Debug, PartialEq, Eq, Drop)]
pub struct Place {
    pub template: String,
    pub line: u32,
}

/// The outcome of a run: a text, a fault with its place if it has one, or the number of the budget
/// that was spent.
#[derive(Debug, Drop)]
pub enum Outcome {
    Text(String),
    Fault(Fault, Option<Place>),
    Spent(Spent),
}

/// The outcome of a run that writes its text as it is emitted. It is the whole text, a fault with
/// its place if it has one, or the number of the budget that was spent.
#[derive(Debug, PartialEq, Eq, Drop)]
pub enum Ended {
    Whole,
    Fault(Fault, Option<Place>),
    Spent(Spent),
}

/// The progress of a run after a slice: it goes on, or it has ended.
#[derive(Clone, Copy, Debug, PartialEq, Eq)]
pub enum Progress {
    Going,
    Done,
}
