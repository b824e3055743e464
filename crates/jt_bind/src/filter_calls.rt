//! Resolves the filters of a filter tag.

ghost use Rattle.std.specs.Prelude.{◌∷◌, ◌≡◌};
ghost use Rattle.jt_bind.specs.internal.{variable, [], filters_of, IfOk, List, length};
ghost use Rattle.jt_bind.specs.internal.{filter_call_view, filter_calls_view, IsPlaced, values};
ghost use Rattle.jt_bind.specs.internal.{Term, filtered_view, filters_view, slot_view, Tree};
ghost use Rattle.jt_bind.specs.internal.{cenv_in};
ghost use Rattle.jt_ir.specs.Slots.{required_if};

use crate::Result;
use crate::lookup::absent;
use crate::pool::Pool;
use crate::resolver::{Arguments, Resolver};
use jt_ast::FilterCall;
use jt_eval::filter_of;
use jt_ir::{Filtered, Slot, SlotExpr, SlotFilter};

impl<'t, 'f, 's, 'a> Resolver<'t, 'f, 's, 'a> {
    /// Returns the value of a slot with the filters of a tag, which are applied in order. Strict
    /// templates require the result.
    #[tactic(auto, using(crate::proofs::filters_next, crate::proofs::view_Variable, crate::proofs::list_lemmas))]
    #[inline(never)]
    pub(crate) fn resolve_filter_calls(
        &self,
        filter_calls: &[FilterCall],
        value: Slot,
        pool: &mut Pool,
    ) -> Result<Filtered>
        ensures { IfOk result (λ v. IsPlaced (required_if (cenv_in self.now.tables.now).strict
            (filters_of self.now (filter_calls_view filter_calls.now)
            (variable (slot_view value)))) (filtered_view v) (values pool.old)
            (values pool.new)) }
    {
        let start = pool.len();
        let mut resolved = Filtered {
            value: SlotExpr::Variable(value),
            filters: Vec::new(self.alloc),
            required: self.is_strict(),
        };
        for filter_call in filter_calls {
            self.resolve_filter_call(filter_call, start, &mut resolved, pool)?;
        }
        Ok(resolved)
    }

    /// Appends a filter. For an unknown filter, cuts the pool back to `start`, and the value
    /// becomes absent and loses its filters.
    fn resolve_filter_call(
        &self,
        filter_call: &FilterCall,
        start: usize,
        done: &mut Filtered,
        pool: &mut Pool,
    ) -> Result<()>
        ensures same { IfOk result (λ u. done.new.required ≡ done.old.required) }
        ensures added { IfOk result (λ u. (c : Term) (p : List Tree) → length p ≡ start
            → IsPlaced c (filters_view done.old) p (values pool.old) → IsPlaced
            (filters_of self.now (filter_call_view filter_call.now ∷ []) c)
            (filters_view done.new) p (values pool.new)) }
    {
        let row = filter_call.arguments.as_slice();
        let pairs = filter_call.keywords.as_slice();
        let Some(filter) = filter_of(filter_call.name.as_str(), row, pairs) else {
            pool.truncate(start);
            done.value = absent();
            done.filters.clear();
            return Ok(());
        };
        let mut given = Vec::new(self.alloc);
        self.resolve_filter_row(filter, Arguments { row, pairs }, &mut given, pool)?;
        done.filters.push(SlotFilter {
            filter,
            escaping: self.senv.escaping,
            required: self.requires_input(filter),
            row: given,
        })?;
        Ok(())
    }
}
