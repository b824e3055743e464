//! Fills the parameters that no positional argument fills.

ghost use Rattle.jt_semantics.specs.Resolve as resolve;
ghost use Rattle.jt_eval.specs.TheFilters as the;
ghost use Rattle.std.specs.Prelude.{◌≡◌};
ghost use Rattle.jt_bind.specs.internal.{none, IfOk, List, drop, length, pairs_view};
ghost use Rattle.jt_bind.specs.internal.{parameter_view, parameters_view, among, RowAdds, by_name};
ghost use Rattle.jt_bind.specs.internal.{filled_of, kept_of, IsAdded, RowLeads, keywords};
ghost use Rattle.jt_bind.specs.internal.{default_value, some_given, own, slot_in, Tree};

use crate::Result;
use crate::callee::Signature;
use crate::lookup::value_or;
use crate::operator_forms::default_of;
use crate::pool::{Pool, add_value};
use crate::resolver::{Arguments, Resolver};
use crate::rows::Row;
use jt_ast::{Expr, Parameter};
use jt_eval::filter_parameters;
use jt_ids::FilterId;
use jt_ir::SlotExpr;
use jt_layout::checked_sum;

impl<'t, 'f, 's, 'a> Resolver<'t, 'f, 's, 'a> {
    /// Appends the values of the parameters of a macro that no positional argument fills. Each
    /// value is the keyword argument of the parameter's name, or the parameter's default. The
    /// keyword arguments are in the locals from the first free one on.
    #[inline(never)]
    pub(crate) fn fill(
        &self,
        signature: Signature<'_>,
        arguments: Arguments<'_>,
        done: &mut Row,
    ) -> Result<()>
        ensures { IfOk result (λ u. (p : List Tree) → RowLeads (filled_of self.now signature.entry
            arguments.entry) none done.old.items done.new.items p p) }
    {
        let given = arguments.row.len();
        let mut default = checked_sum(signature.first_default, given)?;
        for parameter in behind(signature.parameters, given) {
            let slot = self.kept(arguments.pairs, parameter.name.as_str())?;
            done.push((None, value_or(slot, default)))?;
            default = checked_sum(default, 1)?;
        }
        Ok(())
    }

    /// Appends the values of the parameters of `filter` that no positional argument fills, up to
    /// the last parameter that a keyword argument names.
    #[inline(never)]
    pub(crate) fn fill_filter(
        &self,
        filter: FilterId,
        arguments: Arguments<'_>,
        done: &mut Row,
        pool: &mut Pool,
    ) -> Result<()>
        ensures { IfOk result (λ u. RowAdds (resolve.filled_some (the.filter_parameters filter)
            (length arguments.entry.row.now) (keywords (by_name arguments.entry))
            (kept_of self.now (by_name arguments.entry))) none done.old done.new pool.old
            pool.new) }
    {
        let parameters = filter_parameters(self.alloc, filter)?;
        let rest = behind(&parameters, arguments.row.len());
        for (index, parameter) in rest.iter().enumerate() {
            let left = behind(rest, index);
            if !is_some_given(left, arguments.pairs) {
                return Ok(());
            }
            let value = self.given_or_default(parameter, arguments.pairs, pool)?;
            done.push((None, value))?;
        }
        Ok(())
    }

    /// Returns the keyword argument of a parameter's name, or its default.
    fn given_or_default(
        &self,
        parameter: &Parameter,
        pairs: &[(String, Expr)],
        pool: &mut Pool,
    ) -> Result<SlotExpr>
        ensures { IfOk result (λ e. IsAdded (resolve.value_or (slot_in
            (parameter_view parameter.now).name (kept_of self.now (pairs_view pairs.now)))
            (own (default_value (parameter_view parameter.now).default))) e pool.old pool.new) }
    {
        match self.kept(pairs, parameter.name.as_str())? {
            Some(slot) => Ok(SlotExpr::Variable(slot)),
            None => add_value(pool, default_of(self.alloc, parameter)?),
        }
    }
}

/// Returns the parameters after the first `given` ones.
fn behind(parameters: &[Parameter], given: usize) -> &[Parameter]
    ensures { result.now ≡ drop given parameters.now }
{
    if given < parameters.len() {
        &parameters[given..]
    } else {
        &parameters[parameters.len()..]
    }
}

/// Returns whether a keyword argument names one of the parameters.
fn is_some_given(parameters: &[Parameter], pairs: &[(String, Expr)]) -> bool
    ensures { result
        ≡ some_given (parameters_view parameters.now) (keywords (pairs_view pairs.now)) }
{
    for parameter in parameters {
        if is_given(parameter.name.as_str(), pairs) {
            return true;
        }
    }
    false
}

/// Returns whether a keyword argument has the name.
fn is_given(name: &str, pairs: &[(String, Expr)]) -> bool
    ensures { result ≡ among name.now (keywords (pairs_view pairs.now)) }
{
    for (key, _) in pairs {
        if key.as_str() == name {
            return true;
        }
    }
    false
}
