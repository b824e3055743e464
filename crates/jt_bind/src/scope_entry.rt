//! Enters scopes, which keep names in locals of their own.

ghost use Rattle.jt_bind.specs.internal.{IfOk, texts, Enters, Table, bound_table, seen_through};
ghost use Rattle.std.specs.Prelude.{◌≡◌};

use crate::Result;
use crate::name_scope::NameScope;
use crate::senv::StaticEnv;
use jt_layout::checked_sum;
use std::alloc::Global;
use std::rc::Rc;

/// The scopes around a term inside an entered scope, and the first free local there.
#[derive(Drop)]
pub(crate) struct EnteredScope<'a> {
    pub name_scopes: Vec<Rc<NameScope<'a>>>,
    pub free: usize,
}

/// Returns the scopes of the environment with one more, the innermost. The added scope keeps
/// `names` in locals from the first free one on.
#[tactic(auto, using(crate::proofs::entered_more, std::proofs::lemmas::List::take_all))]
fn framed_by<'a>(
    alloc: Global,
    senv: &StaticEnv<'_, 'a>,
    names: Vec<&'a str>,
) -> Result<Vec<Rc<NameScope<'a>>>>
    ensures { IfOk result (λ fs. (t : Table) → seen_through fs.items t
        ≡ bound_table (texts names.entry.items) senv.now.free
        (seen_through senv.now.name_scopes.now t)) }
{
    let mut name_scopes = Vec::new(alloc);
    for name_scope in senv.name_scopes {
        name_scopes.push(name_scope.clone()?)?;
    }
    let inner = NameScope::new(alloc, names, senv.free)?;
    name_scopes.push(Rc::new(alloc, inner)?)?;
    Ok(name_scopes)
}

/// Enters a scope with the names `names`.
#[tactic(auto, using(crate::proofs::senv_bound, crate::proofs::list_lemmas))]
#[inline(never)]
pub(crate) fn entered<'a>(
    alloc: Global,
    senv: &StaticEnv<'_, 'a>,
    names: Vec<&'a str>,
) -> Result<EnteredScope<'a>>
    ensures { IfOk result (λ i. Enters senv.now (texts names.entry.items) i) }
{
    let free = checked_sum(senv.free, names.len())?;
    let name_scopes = framed_by(alloc, senv, names)?;
    Ok(EnteredScope { name_scopes, free })
}
