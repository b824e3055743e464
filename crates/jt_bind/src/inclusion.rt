//! Resolves block tags and includes: the text of another body or chain stands at the tag.

ghost use Rattle.jt_semantics.specs.Resolve as resolve;
ghost use Rattle.jt_ast.specs.Statements as trees;
ghost use Rattle.std.specs.Prelude.{if◌then◌else◌, ◌≡◌};
ghost use Rattle.jt_bind.specs.internal.{Bool, IfOk, List, ℕ, is_ignored, passes_context, Chains};
ghost use Rattle.jt_bind.specs.internal.{stmt_of, templates_of, globals_in, senv_in, senv_of};
ghost use Rattle.jt_bind.specs.internal.{Emits, Tree};

use crate::Result;
use crate::emission::{SlotBody, put_run};
use crate::lookup::absent;
use crate::resolver::Resolver;
use crate::senv::StaticEnv;
use jt_ast::{IncludeContext, Missing};
use jt_ir::Slot;

/// Returns the environment in which a block's arguments are read. It is the environment of the tag
/// if `scoped` is true, or else one without scopes, so that names are globals.
fn seen_by<'s, 'a>(senv: &StaticEnv<'s, 'a>, scoped: bool) -> StaticEnv<'s, 'a>
    ensures { (s : Chains)
        → (senv_in s result).table ≡ (if scoped then (senv_in s senv.now).table else globals_in s) }
{
    if scoped { *senv } else { senv.outside() }
}

impl<'t, 'f, 's, 'a> Resolver<'t, 'f, 's, 'a> {
    /// Emits an include of a name without a source: nothing if it may be missing, or else a print
    /// of an absent value.
    fn put_missing(&self, line: u32, ignore_missing: bool, done: &mut SlotBody) -> Result<()>
        ensures { IfOk result (λ u. (p : List Tree)
            → Emits (templates_of self.now) (resolve.left_out (senv_of self.now) line
            ignore_missing) done.old.items done.new.items p p) }
    {
        if ignore_missing {
            return Ok(());
        }
        self.put_print(line, absent(), false, done)
    }

    /// Emits an include: the names that are passed, then the run of the included chain.
    #[inline(never)]
    pub(crate) fn put_include(
        &self,
        line: u32,
        name: &str,
        missing: Missing,
        names: IncludeContext,
        done: &mut SlotBody,
    ) -> Result<()>
        ensures { IfOk result (λ u. (p : List Tree)
            → Emits (templates_of self.now) (stmt_of self.now (trees.include line name.now
            (is_ignored missing) (passes_context names))) done.old.items done.new.items p p) }
    {
        if self.tables.is_missing(name) {
            return self.put_missing(line, missing.is_ignored(), done);
        }
        let Some(index) = self.tables.chain_index(name) else {
            return put_run(self.tables.units(), Vec::new(self.alloc), done);
        };
        let there = self.tables.at(index);
        let first = Slot::Global(there.first_slot);
        self.put_values(line, names.passes_context(), &there.names, first, done)?;
        put_run(there.unit, Vec::new(self.alloc), done)
    }

    /// Emits a block at its tag. A block without a body prints an absent value.
    #[inline(never)]
    pub(crate) fn put_block(&self, name: &str, scoped: bool, done: &mut SlotBody) -> Result<()>
        ensures { IfOk result (λ u. (line : ℕ) (required : Bool) (body : trees.Body) (p : List Tree)
            → Emits (templates_of self.now) (stmt_of self.now (trees.block line name.now scoped
            required body)) done.old.items done.new.items p p) }
    {
        let Some(unit) = self.tables.first_body(name)? else {
            return self.put_print(1, absent(), false, done);
        };
        let seen = Resolver {
            senv: seen_by(&self.senv, scoped),
            ..*self
        };
        let row = seen.block_arguments(name)?;
        put_run(unit, row, done)
    }
}
