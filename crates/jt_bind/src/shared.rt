//! Builds the values at the beginning of the pool.

ghost use Rattle.jt_semantics.specs.Layout as layout;
ghost use Rattle.std.specs.Prelude.{◌++◌, ◌≡◌};
ghost use Rattle.jt_bind.specs.internal.{IfOk, List, map, parameter_view, cenv_in, order_in};
ghost use Rattle.jt_bind.specs.internal.{values, Template, macro_view, default_value};

use crate::Result;
use crate::operator_forms::default_of;
use crate::pool::Pool;
use crate::tables::Tables;
use jt_ast::Parameter;
use jt_chains::Macro;
use jt_value::Value;
use std::alloc::Global;

/// Appends the defaults of parameters to the pool.
fn add_defaults(alloc: Global, parameters: &[Parameter], pool: &mut Pool) -> Result<()>
    ensures { IfOk result (λ _. values pool.new
        ≡ values pool.old ++ map (λ p. default_value (parameter_view p).default) parameters.now) }
{
    for parameter in parameters {
        pool.push(default_of(alloc, parameter)?)?;
    }
    Ok(())
}

/// Appends the defaults of macros to the pool.
fn add_macros(alloc: Global, macros: &[Macro<'_>], pool: &mut Pool) -> Result<()>
    ensures { IfOk result (λ _. (ts : List Template) → values pool.new
        ≡ values pool.old ++ layout.defaults_of (map (macro_view ts) macros.now)) }
{
    for entry in macros {
        add_defaults(alloc, entry.parameters, pool)?;
    }
    Ok(())
}

/// Returns a pool that holds the undefined value and the defaults of all macros.
#[tactic(auto, using(crate::proofs::part_put, crate::proofs::namespaces_left))]
pub(crate) fn shared_values(alloc: Global, tables: &Tables<'_, '_>) -> Result<Pool>
    ensures { IfOk result
        (λ vs. values vs ≡ layout.shared (cenv_in tables.now) (order_in tables.now)) }
{
    let mut pool = Vec::new(alloc);
    pool.push(Value::Undefined)?;
    for namespace in tables.namespaces() {
        add_macros(alloc, &namespace.known.macros, &mut pool)?;
    }
    Ok(pool)
}
