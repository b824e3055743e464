//! Defines a use: what a template does at one of its places.

ghost use Rattle.std.specs.Prelude.{◌≡◌, IfOk};
ghost use Rattle.jt_uses.specs.Uses.{at, inside_scope, inside_loop, inside_block, inside_macro};
ghost use Rattle.jt_uses.specs.Uses.{inside_callee, place_at};
ghost use Rattle.jt_uses.specs.UseView.{use_view};
ghost use Rattle.jt_uses.specs.internal.Adds.{Adds};

use jt_ast::{Expr, IncludeContext, Missing, Parameter, Stmt};
use std::alloc::AllocError;
use std::mem::size_of;

/// The context of a use: whether it is inside a loop of the same block or macro body, inside a
/// block, inside a callee that is no name, and inside a scope within its template.
#[derive(Clone, Copy)]
pub struct Enclosing {
    pub in_loop: bool,
    pub in_block: bool,
    pub in_callee: bool,
    pub in_scope: bool,
}

impl Enclosing {
    /// Returns the context of the body of a scope, and of the names that a scope begins with.
    pub(crate) fn in_a_scope(self) -> Self
        ensures { result ≡ inside_scope self }
    {
        Enclosing {
            in_scope: true,
            ..self
        }
    }

    /// Returns the context of the body of a loop.
    pub(crate) fn in_a_loop(self) -> Self
        ensures { result ≡ inside_loop self }
    {
        Enclosing {
            in_loop: true,
            in_scope: true,
            ..self
        }
    }

    /// Returns the context of the body of a macro.
    pub(crate) fn in_a_macro(self) -> Self
        ensures { result ≡ inside_macro self }
    {
        Enclosing {
            in_loop: false,
            in_block: false,
            in_scope: true,
            ..self
        }
    }

    /// Returns the context of the body of a block.
    pub(crate) fn in_a_block(self) -> Self
        ensures { result ≡ inside_block self }
    {
        Enclosing {
            in_loop: false,
            in_block: true,
            in_scope: true,
            ..self
        }
    }
}

/// The line of a tag, and the context of the uses in it.
#[derive(Clone, Copy)]
pub struct Place {
    pub line: u32,
    pub around: Enclosing,
}

impl Place {
    /// Returns the place of the uses in a callee that is no name.
    pub(crate) fn in_a_callee(self) -> Self
        ensures { result ≡ place_at self.line (inside_callee self.around) }
    {
        let around = Enclosing {
            in_callee: true,
            ..self.around
        };
        Place { around, ..self }
    }
}

/// A use: what a template does at a place.
#[derive(Clone, Copy)]
pub enum Use<'a> {
    /// A read of a name as a value.
    Reads(&'a str),
    /// A binding of a name by `set`, `for` or `with`, or as a parameter.
    Binds(&'a str),
    /// A read of a field of `loop`.
    ReadsLoopField(&'a str),
    /// A call of an expression.
    Calls {
        callee: &'a Expr,
        arguments: &'a [Expr],
        keywords: &'a [(String, Expr)],
    },
    /// A filter, with the arguments after its input.
    Filters {
        name: &'a str,
        arguments: &'a [Expr],
        keywords: &'a [(String, Expr)],
    },
    /// A test, with the arguments after the tested value.
    Tests {
        name: &'a str,
        arguments: &'a [Expr],
        keywords: &'a [(String, Expr)],
    },
    /// A declaration of a macro.
    DeclaresMacro {
        name: &'a str,
        parameters: &'a [Parameter],
        body: &'a [Stmt],
    },
    /// A block.
    DeclaresBlock {
        name: &'a str,
        scoped: bool,
        required: bool,
        body: &'a [Stmt],
    },
    /// An include of a template.
    Includes {
        name: &'a str,
        missing: Missing,
        names: IncludeContext,
    },
    /// An import of a library.
    Imports(&'a str),
    /// A binding of a name to a library.
    BindsLibrary {
        library: &'a str,
        name: &'a str,
    },
    /// A binding of a name to the macro `called` of a library.
    BindsMacro {
        library: &'a str,
        called: &'a str,
        name: &'a str,
    },
    /// An `extends` tag with the name of the parent.
    Extends(&'a str),
}

/// A use and its place.
#[derive(Clone, Copy)]
pub struct UseSite<'a> {
    pub place: Place,
    pub made: Use<'a>,
}

// A use takes at most 64 bytes.
const _: () = prove!(size_of::<UseSite<'static>>() <= 64);

/// The uses that were found, in the order of the source.
#[derive(Drop)]
pub(crate) struct UseList<'a> {
    pub(crate) sites: Vec<UseSite<'a>>,
}

impl<'a> UseList<'a> {
    /// Appends a use.
    pub(crate) fn add(&mut self, place: Place, made: Use<'a>) -> Result<(), AllocError>
        ensures { IfOk result (λ _. Adds self.old self.new (at place (use_view made.entry))) }
    {
        self.sites.push(UseSite { place, made })?;
        Ok(())
    }
}
