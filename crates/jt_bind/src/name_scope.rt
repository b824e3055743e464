//! Defines a scope, which keeps its names in consecutive locals.

ghost use Rattle.std.specs.Prelude.{◌≡◌, IfOk, None};
ghost use Rattle.jt_ast.specs.Expressions.{Text};
ghost use Rattle.jt_ast.specs.Texts.{texts};
ghost use Rattle.jt_bind.specs.internal.Names.{last_among};
ghost use Rattle.jt_names.specs.Names.{value_in};

use crate::Result;
use jt_layout::checked_sum;
use jt_names::NameIndex;
use std::alloc::Global;

/// Names in consecutive locals, from `first` on. The last occurrence of a repeated name counts.
#[derive(Drop)]
pub(crate) struct NameScope<'a> {
    pub names: Vec<&'a str>,
    pub first: usize,
    pub index: NameIndex<'a>,
    pub ghost indexed: { (x : Text)
        → value_in index.indices x ≡ last_among x (texts names.items) first None },
}

impl<'a> NameScope<'a> {
    /// Creates the scope of the names, in locals from `first` on.
    pub(crate) fn new(alloc: Global, names: Vec<&'a str>, first: usize) -> Result<Self>
        ensures named { IfOk result (λ f. texts f.names.items ≡ texts names.entry.items) }
        ensures first { IfOk result (λ f. f.first ≡ first) }
    {
        let mut index = NameIndex::new(alloc);
        let mut local = first;
        for name in names.iter() {
            index.put(*name, local)?;
            local = checked_sum(local, 1)?;
        }
        Ok(NameScope {
            names,
            first,
            index,
        })
    }
}
