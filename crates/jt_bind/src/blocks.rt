//! Resolves calls of the bodies of blocks.

ghost use Rattle.std.specs.Prelude.{◌≡◌};
ghost use Rattle.jt_bind.specs.internal.{reads, IfOk, texts, block_of, super_of, table_of, IsRow};
ghost use Rattle.jt_bind.specs.internal.{PutsNone, first_unit_in, parameters_in};

use crate::Result;
use crate::lookup::absent;
use crate::resolver::Resolver;
use crate::rows::{Row, first_locals};
use crate::tables::Tables;
use jt_ir::SlotExpr;
use jt_layout::checked_sum;

impl<'f, 'a> Tables<'f, 'a> {
    /// Returns the unit of the first body of a block, if the block has one.
    #[tactic(auto, using(crate::proofs::first_within, crate::proofs::list_lemmas))]
    pub(crate) fn first_body(&self, name: &str) -> Result<Option<usize>>
        ensures { IfOk result (λ u. u ≡ first_unit_in self.now name.now) }
    {
        let here = self.here();
        let Some(index) = here.known.first_bodies.index_of(name) else {
            return Ok(None);
        };
        Ok(Some(checked_sum(here.body_unit, index)?))
    }

    /// Returns the parameters of the bodies of a block.
    pub(crate) fn block_parameters(&self, name: &str) -> &[&'a str]
        ensures { texts result.now ≡ parameters_in self.now name.now }
    {
        let here = self.here();
        match here.scoped.index_of(name) {
            Some(_) => &here.known.scope_names,
            None => &here.known.scope_names[..0],
        }
    }
}

impl<'t, 'f, 's, 'a> Resolver<'t, 'f, 's, 'a> {
    /// Returns the arguments for the bodies of a block: reads of their parameters.
    pub(crate) fn block_arguments(&self, name: &str) -> Result<Row>
        ensures { IfOk result (IsRow
            (reads (table_of self.now) (parameters_in self.now.tables.now name.now))) }
    {
        self.reads(self.tables.block_parameters(name))
    }

    /// Resolves the call of a block, which does not see the names of the enclosing scopes. A block
    /// without a body is absent.
    #[inline(never)]
    pub(crate) fn block_called(&self, name: &str) -> Result<SlotExpr>
        ensures { IfOk result (PutsNone (block_of self.now name.now)) }
    {
        let Some(unit) = self.tables.first_body(name)? else {
            return Ok(absent());
        };
        let outside = Resolver {
            senv: self.senv.outside(),
            ..*self
        };
        let row = outside.block_arguments(name)?;
        Ok(SlotExpr::Invoke {
            routine: unit,
            escaping: self.senv.escaping,
            row,
        })
    }

    /// Resolves `super()`: the call of the next body of the current block, which gets the
    /// parameters of the current one. The call is absent outside a block and if there is no next
    /// body.
    #[inline(never)]
    pub(crate) fn super_called(&self) -> Result<SlotExpr>
        ensures { IfOk result (PutsNone (super_of self.now)) }
    {
        let here = self.tables.here();
        let Some(index) = self.senv.body else {
            return Ok(absent());
        };
        let Some(body) = here.known.blocks.get(index) else {
            return Ok(absent());
        };
        let Some(next) = here.next_bodies[index] else {
            return Ok(absent());
        };
        let unit = checked_sum(here.body_unit, next)?;
        let parameters = self.tables.block_parameters(body.name);
        let row = first_locals(self.alloc, parameters)?;
        Ok(SlotExpr::Invoke {
            routine: unit,
            escaping: self.senv.escaping,
            row,
        })
    }
}
