//! Defines the state of a run between two instructions.
ghost use Rattle.std.specs.Prelude.{◌≡◌, ◌+◌, ◌<◌, ◌^◌, length, slice_set};
ghost use Rattle.jt_value.specs.View.{view};
ghost use Rattle.jt_machine.specs.Entries.{values_view};
ghost use Rattle.jt_machine.specs.InstructionSteps as part;
ghost use Rattle.jt_machine.specs.View.{config_view, held_in};

use crate::stack::Stack;
use jt_budget::Budget;
use jt_value::Value;

/// The state of a run between two instructions. The last element of `outer` is the innermost buffer
/// around the open one.
#[derive(Drop)]
pub(crate) struct State {
    pub(crate) unit: usize,
    pub(crate) point: usize,
    pub(crate) stack: Stack,
    pub(crate) locals: Vec<Value>,
    pub(crate) globals: Vec<Value>,
    pub(crate) buffer: String,
    pub(crate) outer: Vec<String>,
    pub(crate) left: Budget,
}

/// A table of values: the globals of the whole run, or the locals of the running activation.
#[derive(Clone, Copy)]
pub(crate) enum Table {
    Globals,
    Locals,
}

impl State {
    /// Returns the number of open calls.
    #[inline(always)]
    pub(crate) fn open_calls(&self) -> u32
        requires { self.now.left.depth + length self.now.stack.callers < 2 ^ 32 }
        ensures { result ≡ length self.now.stack.callers }
    {
        self.stack.waiting() as u32
    }

    /// Returns the values of a table.
    #[inline(always)]
    pub(crate) fn values(&self, table: Table) -> &[Value]
        ensures { result.now ≡ held_in table self.now }
    {
        match table {
            Table::Globals => &self.globals,
            Table::Locals => &self.locals,
        }
    }

    /// Sets a value of a table.
    #[inline(always)]
    pub(crate) fn set(&mut self, table: Table, index: usize, value: Value)
        requires { index < length (held_in table self.old) }
        ensures { config_view self.new
            ≡ part.with_value table index (view value) (config_view self.old) }
    {
        match table {
            Table::Globals => set_value(&mut self.globals, index, value),
            Table::Locals => set_value(&mut self.locals, index, value),
        }
    }
}

/// Replaces the value at an index.
#[inline(always)]
pub(crate) fn set_value(values: &mut Vec<Value>, index: usize, value: Value)
    requires { index < length values.old.items }
    ensures { values_view values.new.items
        ≡ slice_set (values_view values.old.items) index (view value) }
{
    values[index] = value;
}
