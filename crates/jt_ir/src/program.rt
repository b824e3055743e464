//! Defines resolved templates. Each name is a slot of the locals or of the globals. Each literal
//! and each data segment is an index into a pool of values. Each macro, block and chain is a
//! routine.

use jt_ids::{FilterId, LoopField, OpId, TestId};
use jt_value::Value;

/// The place of a tag: the index of its template in the program's list of templates, and its line.
#[derive(Clone, Copy, Debug, PartialEq, Eq)]
pub struct Place {
    pub template: usize,
    pub line: u32,
}

/// The slot that keeps the value of a name.
#[derive(Clone, Copy, Debug, PartialEq, Eq)]
pub enum Slot {
    /// A local of the routine.
    Local(usize),
    /// A global of the program.
    Global(usize),
}

/// An operation that makes one value of a sequence of values.
#[derive(Clone, Copy, Debug, PartialEq, Eq)]
pub enum NaryOp {
    /// The result of an operator.
    Operator(OpId),
    /// The outcome of a test, as a truth value.
    Test(TestId),
    /// The result of a filter; `escaping` is set if escaping is on.
    Filter { filter: FilterId, escaping: bool },
    /// The list of the values.
    List,
    /// The map of the values, which alternate keys and values.
    Map,
    /// The one value itself. An undefined value is a fault.
    Required,
}

/// An expression. Arguments are evaluated from left to right. An argument with a number is no value
/// of its sequence: it is stored in the local of that number.
#[derive(Drop)]
pub enum SlotExpr {
    /// The value at an index of the pool.
    Pooled(usize),
    /// The value of a slot.
    Variable(Slot),
    /// A field of the innermost loop.
    Field(LoopField),
    /// The expression of a name without meaning. It has no instructions.
    Absent,
    /// The result of an operation on a sequence of arguments.
    Made(NaryOp, Vec<(Option<usize>, SlotExpr)>),
    /// The first operand if it is false, else the second one.
    Conjunction(Box<SlotExpr>, Box<SlotExpr>),
    /// The first operand if it is true, else the second one.
    Disjunction(Box<SlotExpr>, Box<SlotExpr>),
    /// The value if the condition is true, else the value `other`.
    Choice {
        condition: Box<SlotExpr>,
        value: Box<SlotExpr>,
        other: Box<SlotExpr>,
    },
    /// The text of a routine called with arguments, as markup if escaping is on, else as a plain
    /// text.
    Invoke {
        routine: usize,
        escaping: bool,
        row: Vec<(Option<usize>, SlotExpr)>,
    },
}

/// A filter of a tag: the filter, whether escaping is on, and the arguments after its value.
#[derive(Drop)]
pub struct SlotFilter {
    pub filter: FilterId,
    pub escaping: bool,
    /// Whether an undefined input is a fault.
    pub required: bool,
    pub row: Vec<(Option<usize>, SlotExpr)>,
}

/// A printed expression: a value and the filters of its tag, which are applied in order. A tag may
/// have any number of filters, so they are a list, and no walk needs more stack for more of them.
#[derive(Drop)]
pub struct Filtered {
    pub value: SlotExpr,
    pub filters: Vec<SlotFilter>,
    /// Whether an undefined result is a fault.
    pub required: bool,
}

/// The target of an assignment.
#[derive(Debug, Drop)]
pub enum Targets {
    /// A slot.
    One(Slot),
    /// The slots that the items of the value go to. An item without a slot is dropped.
    Several(Vec<Option<Slot>>),
}

/// A branch of an `if`, with statements of type `S`.
#[derive(Drop)]
pub struct SlotBranch<S> {
    /// The place of its tag.
    pub place: Place,
    pub condition: SlotExpr,
    pub body: Vec<S>,
}

/// A statement.
#[derive(Drop)]
pub enum SlotStmt {
    /// A statement that appends the plain text at an index of the pool, as it is.
    PutPooled(usize),
    /// A statement that prints an expression, escaped if escaping is on.
    Print {
        place: Place,
        escaping: bool,
        value: Filtered,
    },
    /// A statement that assigns a value to targets.
    Assign {
        place: Place,
        targets: Targets,
        value: SlotExpr,
    },
    /// The branches of an `if`, and its `else` part.
    If(Vec<SlotBranch<SlotStmt>>, Vec<SlotStmt>),
    /// A loop: its targets, the value that it iterates over, its condition, its body and its `else`
    /// part.
    For {
        place: Place,
        targets: Targets,
        over: SlotExpr,
        condition: Option<SlotExpr>,
        body: Vec<SlotStmt>,
        other: Vec<SlotStmt>,
    },
    /// A statement that stores the text of statements in a slot, as markup if escaping is on, else
    /// as a plain text.
    Capture {
        escaping: bool,
        slot: Slot,
        body: Vec<SlotStmt>,
    },
    /// A statement that prints the text of a routine called with arguments.
    Run(usize, Vec<(Option<usize>, SlotExpr)>),
}

/// A routine, which becomes a unit of code. The parameters are among the locals.
#[derive(Drop)]
pub struct Routine {
    pub parameters: usize,
    pub locals: usize,
    pub body: Vec<SlotStmt>,
}

/// A resolved chain. Routine 0 is the routine of the entry.
#[derive(Drop)]
pub struct Program {
    /// The names of the templates that places refer to.
    pub templates: Vec<String>,
    /// The names of the first globals, in the order of their slots.
    pub names: Vec<String>,
    /// The number of globals.
    pub globals: usize,
    /// The values of constants. No value is a list or a map.
    pub pool: Vec<Value>,
    pub routines: Vec<Routine>,
}
