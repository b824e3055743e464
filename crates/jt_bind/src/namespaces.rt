//! Resolves the routines of all chains and libraries.

ghost use Rattle.jt_semantics.specs.Programs as programs;
ghost use Rattle.jt_bind.specs.internal.{IfOk, [], RoutinesLead, cenv_in, order_in, templates_in};
ghost use Rattle.jt_bind.specs.internal.{values};

use crate::Result;
use crate::pool::Pool;
use crate::routines::resolve_namespace;
use crate::tables::Tables;
use jt_ir::Routine;
use std::alloc::Global;

/// Resolves the chains and libraries in order and returns their routines.
pub(crate) fn resolve_namespaces(
    alloc: Global,
    mut tables: Tables<'_, '_>,
    pool: &mut Pool,
) -> Result<Vec<Routine>>
    ensures { IfOk result (λ rs. RoutinesLead (templates_in tables.entry)
        (programs.routines (cenv_in tables.entry) (order_in tables.entry)) [] [] rs.items
        (values pool.old) (values pool.new)) }
{
    let mut routines = Vec::new(alloc);
    for namespace in 0..tables.namespaces().len() {
        tables.select(namespace);
        resolve_namespace(alloc, &tables, &mut routines, pool)?;
    }
    Ok(routines)
}
