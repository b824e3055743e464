//! Orders names: sets and lists of different names, in ascending order.

ghost use Rattle.std.specs.Prelude.{◌≡◌, IfOk};
ghost use Rattle.jt_ast.specs.Texts.{ascending, inserted, texts};
ghost use Rattle.jt_names.specs.Names.{Puts};

use std::alloc::{AllocError, Global};
use std::collections::BTreeSet;

/// Adds a name.
#[tactic(auto, using(crate::proofs::SortedNames::key_inserted))]
pub(crate) fn add_name<'a>(names: &mut BTreeSet<&'a str>, name: &'a str) -> Result<(), AllocError>
    ensures { IfOk result (λ u. texts names.new.keys ≡ inserted name.now (texts names.old.keys)) }
{
    names.insert(name)?;
    Ok(())
}

/// Adds the names of a list.
pub fn add_names<'a>(names: &mut BTreeSet<&'a str>, others: &[&'a str]) -> Result<(), AllocError>
    ensures { IfOk result (λ _. Puts names.old names.new (texts others.now)) }
{
    for name in others {
        add_name(names, *name)?;
    }
    Ok(())
}

/// Returns the names of a set, in ascending order.
pub fn list_of<'a>(alloc: Global, names: BTreeSet<&'a str>) -> Result<Vec<&'a str>, AllocError>
    ensures { IfOk result (λ ns. ns.items ≡ names.entry.keys) }
{
    names.into_iter().collect(alloc)
}

/// Returns the different names in `found`, in ascending order.
pub fn in_order<'a>(alloc: Global, found: &[&'a str]) -> Result<Vec<&'a str>, AllocError>
    ensures { IfOk result (λ names. texts names.items ≡ ascending (texts found.now)) }
{
    let mut names = BTreeSet::new(alloc);
    add_names(&mut names, found)?;
    list_of(alloc, names)
}
