//! Defines the static environment in which a term is resolved.

use crate::name_scope::NameScope;
use crate::scope_entry::EnteredScope;
use jt_ir::Place;
use std::rc::Rc;

/// The static environment of a term:
///
/// - the index of its template;
/// - whether printed text is escaped;
/// - the index of the enclosing body of a block, if there is one;
/// - the enclosing scopes, the innermost last;
/// - the first free local.
#[derive(Clone, Copy)]
pub(crate) struct StaticEnv<'s, 'a> {
    pub template: usize,
    pub escaping: bool,
    pub body: Option<usize>,
    pub name_scopes: &'s [Rc<NameScope<'a>>],
    pub free: usize,
}

impl<'s, 'a> StaticEnv<'s, 'a> {
    ghost use Rattle.std.specs.Prelude.{◌≡◌};
    ghost use Rattle.jt_bind.specs.internal.{List, Text, bound_all, Chains, Enters, globals_in};
    ghost use Rattle.jt_bind.specs.internal.{senv_in, place_of};

    /// Returns the environment without scopes, so that names are globals.
    pub(crate) fn outside(self) -> StaticEnv<'s, 'a>
        ensures { (scope : Chains) → senv_in scope result ≡ record (senv_in scope self.entry)
            { table = globals_in scope } }
    {
        StaticEnv {
            name_scopes: &self.name_scopes[..0],
            ..self
        }
    }

    /// Returns the environment inside an entered scope, so that the names of the scope are in
    /// locals.
    pub(crate) fn inside(self, inner: &'s EnteredScope<'a>) -> StaticEnv<'s, 'a>
        ensures { (names : List Text) (scope : Chains) → Enters self.entry names inner.now → senv_in
            scope result ≡ bound_all names (senv_in scope self.entry) }
    {
        StaticEnv {
            name_scopes: &inner.name_scopes,
            free: inner.free,
            ..self
        }
    }

    /// Returns the place of a tag in the template.
    pub(crate) fn place(&self, line: u32) -> Place
        ensures { result ≡ place_of self.now line }
    {
        Place {
            template: self.template,
            line,
        }
    }
}
