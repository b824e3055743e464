//! Appends resolved statements to others.

ghost use Rattle.jt_ast.specs.Statements as trees;
ghost use Rattle.jt_ir.specs.Slots as slots;
ghost use Rattle.jt_ir.specs.declared.program.SlotStmt.TheVariants as s;
ghost use Rattle.std.specs.Prelude.{if◌then◌else◌, ◌++◌, ◌∷◌, ◌≡◌};
ghost use Rattle.jt_bind.specs.internal.{Tree, read_from, alone, IfOk, List, [], IsShown, PutsStmt};
ghost use Rattle.jt_bind.specs.internal.{templates_of, Emits, line_of, place_of, Term, PutsNone};
ghost use Rattle.jt_bind.specs.internal.{assigned, slot_after, slot_in, slot_view, table_of, texts};

use crate::Result;
use crate::held::Held;
use crate::lookup::reading;
use crate::pool::Pool;
use crate::resolver::Resolver;
use crate::rows::Row;
use crate::senv::StaticEnv;
use jt_ir::{Filtered, Slot, SlotBranch, SlotExpr, SlotStmt, Targets};
use jt_layout::checked_sum;
use jt_value::Value;

/// Resolved statements.
pub(crate) type SlotBody = Vec<SlotStmt>;

impl<'t, 'f, 's, 'a> Resolver<'t, 'f, 's, 'a> {
    /// Emits a text outside tags.
    #[inline(never)]
    pub(crate) fn put_data(&self, text: &str, done: &mut SlotBody, pool: &mut Pool) -> Result<()>
        ensures { IfOk result (λ _. PutsStmt self.now (trees.data_of text.now) done.old done.new
            pool.old pool.new) }
    {
        let index = pool.len();
        pool.push(Value::text(self.alloc, text)?)?;
        done.push(SlotStmt::PutPooled(index))?;
        Ok(())
    }

    /// Emits a print of a value, which is required if `required` holds.
    #[inline(never)]
    pub(crate) fn put_print(
        &self,
        line: u32,
        shown: SlotExpr,
        required: bool,
        done: &mut SlotBody,
    ) -> Result<()>
        ensures { IfOk result (λ u. (c : Term) (p q : List Tree)
            → IsShown c shown p q → Emits (templates_of self.now) (alone (slots.print
            (line_of self.now line) self.now.senv.escaping (slots.required_if required c)))
            done.old.items done.new.items p q) }
    {
        let filtered = Filtered {
            value: shown,
            filters: Vec::new(*done.allocator()),
            required,
        };
        put_filtered(&self.senv, line, filtered, done)
    }

    /// Returns a read of the name if `with_context` is true, or else the undefined value.
    fn handed(&self, with_context: bool, name: &str) -> SlotExpr
        ensures { PutsNone (read_from
            (slot_in name.now (if with_context then table_of self.now else []))) result }
    {
        if with_context {
            reading(self.slot(name))
        } else {
            reading(None)
        }
    }

    /// Emits assignments of the names' values to consecutive slots from `first` on. The values are
    /// undefined if `with_context` is false.
    #[inline(never)]
    pub(crate) fn put_values(
        &self,
        line: u32,
        with_context: bool,
        names: &[&str],
        first: Slot,
        done: &mut SlotBody,
    ) -> Result<()>
        ensures { IfOk result (λ u. (p : List Tree) → Emits (templates_of self.now)
            (assigned (line_of self.now line) (if with_context then table_of self.now else [])
            (slot_view first) (texts names.now)) done.old.items done.new.items p p) }
    {
        let mut slot = first;
        for name in names {
            let value = self.handed(with_context, *name);
            put_assign(&self.senv, line, Targets::One(slot), value, done)?;
            slot = next_slot(slot)?;
        }
        Ok(())
    }
}

/// Returns the slot after `slot`.
fn next_slot(slot: Slot) -> Result<Slot>
    ensures { IfOk result (λ s. slot_view s ≡ slot_after (slot_view slot)) }
{
    match slot {
        Slot::Local(local) => Ok(Slot::Local(checked_sum(local, 1)?)),
        Slot::Global(global) => Ok(Slot::Global(checked_sum(global, 1)?)),
    }
}

/// Emits a print of a value after the filters of a tag.
#[inline(never)]
pub(crate) fn put_filtered(
    senv: &StaticEnv<'_, '_>,
    line: u32,
    filtered: Filtered,
    done: &mut SlotBody,
) -> Result<()>
    ensures { IfOk result (λ u. done.new.items ≡ done.old.items
        ++ s.Print (place_of senv.now line) senv.now.escaping filtered ∷ []) }
{
    done.push(SlotStmt::Print {
        place: senv.place(line),
        escaping: senv.escaping,
        value: filtered,
    })?;
    Ok(())
}

/// Emits an assignment of a value to targets.
#[inline(never)]
pub(crate) fn put_assign(
    senv: &StaticEnv<'_, '_>,
    line: u32,
    targets: Targets,
    value: SlotExpr,
    done: &mut SlotBody,
) -> Result<()>
    ensures { IfOk result (λ u. done.new.items ≡ done.old.items
        ++ s.Assign (place_of senv.now line) targets value ∷ []) }
{
    done.push(SlotStmt::Assign {
        place: senv.place(line),
        targets,
        value,
    })?;
    Ok(())
}

/// Appends a resolved branch to others.
#[inline(never)]
pub(crate) fn put_branch(
    made: &mut Vec<SlotBranch<SlotStmt>>,
    branch: SlotBranch<SlotStmt>,
) -> Result<()>
    ensures { IfOk result (λ u. made.new.items ≡ made.old.items ++ branch ∷ []) }
{
    made.push(branch)?;
    Ok(())
}

/// Emits an `if` of resolved branches and an `else` part.
#[inline(never)]
pub(crate) fn put_choice(
    branches: Vec<SlotBranch<SlotStmt>>,
    other: SlotBody,
    done: &mut SlotBody,
) -> Result<()>
    ensures { IfOk result (λ u. done.new.items ≡ done.old.items ++ s.If branches other ∷ []) }
{
    done.push(SlotStmt::If(branches, other))?;
    Ok(())
}

/// The head of a resolved loop: targets, items and condition.
#[derive(Drop)]
pub(crate) struct LoopHead {
    pub targets: Targets,
    pub items: SlotExpr,
    pub condition: Option<SlotExpr>,
}

/// The head and the body of a resolved loop. The head is on the heap, so that the frames of nested
/// loops are small.
#[derive(Drop)]
pub(crate) struct Turns {
    pub head: Box<LoopHead>,
    pub body: SlotBody,
}

/// Emits a loop and its `else` part.
#[inline(never)]
pub(crate) fn put_loop(
    senv: &StaticEnv<'_, '_>,
    line: u32,
    turns: Held<Turns>,
    other: SlotBody,
    done: &mut SlotBody,
) -> Result<()>
    ensures { IfOk result (λ u. done.new.items ≡ done.old.items
        ++ s.For (place_of senv.now line) turns.part.head.value.targets turns.part.head.value.items
        turns.part.head.value.condition turns.part.body other ∷ []) }
{
    let Turns { head, body } = turns.into_part();
    let LoopHead {
        targets,
        items,
        condition,
    } = Box::into_inner(head);
    done.push(SlotStmt::For {
        place: senv.place(line),
        targets,
        over: items,
        condition,
        body,
        other,
    })?;
    Ok(())
}

/// Emits a capture, which stores the text of statements in a slot.
#[inline(never)]
pub(crate) fn put_capture(
    escaping: bool,
    slot: Slot,
    body: SlotBody,
    done: &mut SlotBody,
) -> Result<()>
    ensures { IfOk result (λ u. done.new.items ≡ done.old.items
        ++ s.Capture escaping slot body ∷ []) }
{
    done.push(SlotStmt::Capture {
        escaping,
        slot,
        body,
    })?;
    Ok(())
}

/// Emits a run of the routine `unit`, which prints, with the arguments `row`.
#[inline(never)]
pub(crate) fn put_run(unit: usize, row: Row, done: &mut SlotBody) -> Result<()>
    ensures { IfOk result (λ u. done.new.items ≡ done.old.items ++ s.Run unit row ∷ []) }
{
    done.push(SlotStmt::Run(unit, row))?;
    Ok(())
}
