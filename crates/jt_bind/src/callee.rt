//! Resolves the callee of a call.

ghost use Rattle.jt_ast.specs.ExpressionView.{expr_view};
ghost use Rattle.jt_ast.specs.Expressions as trees;
ghost use Rattle.jt_chains.specs.Chain as chain;
ghost use Rattle.std.specs.Prelude.{◌<◌, ◌≡◌};
ghost use Rattle.jt_bind.specs.internal.{IfOk, List, None, Some, codes, false, length, option_map};
ghost use Rattle.jt_bind.specs.internal.{bytes_eq, IsCallee, IsLaidThere, library_of, IsCalled};
ghost use Rattle.jt_bind.specs.internal.{IsMacroOf, cenv_in, given_as, given_in, order_in};
ghost use Rattle.jt_bind.specs.internal.{namespace_at, CompileEnv};

use crate::Result;
use crate::tables::Tables;
use jt_ast::{Expr, Parameter};
use jt_chains::{Definition, is_private};
use jt_layout::checked_sum;

/// The signature of a macro: its parameters, its unit, and the pool index of its first default.
#[derive(Clone, Copy)]
pub(crate) struct Signature<'s> {
    pub parameters: &'s [Parameter],
    pub unit: usize,
    pub first_default: usize,
}

/// The callee of a call.
#[derive(Clone, Copy)]
pub(crate) enum Callee<'s> {
    Macro(Signature<'s>),
    Range,
    Super,
    /// A block, by its name.
    Block(&'s str),
    Cycle,
    /// An expression that cannot be called. No chain that keeps the rules has one.
    Unknown,
}

impl<'f, 'a> Tables<'f, 'a> {
    /// Returns the callee that the expression before the arguments of a call names.
    #[tactic(auto, using(crate::proofs::expression_views))]
    #[inline(never)]
    pub(crate) fn callee_of<'s>(&'s self, called: &'s Expr) -> Result<Callee<'s>>
        ensures { IfOk result (λ k. IsCalled self.now (expr_view called.now) k) }
    {
        match called {
            Expr::Name(name) => self.callee_named(name.as_str()),
            Expr::Attribute(of, name) => self.callee_by(of, name.as_str()),
            _ => Ok(Callee::Unknown),
        }
    }

    /// Returns the callee of a bare name. A macro or a library of the name hides `range` and
    /// `super`.
    fn callee_named<'s>(&'s self, name: &str) -> Result<Callee<'s>>
        ensures { IfOk result (λ k. IsCalled self.now (trees.name name.now) k) }
    {
        match self.given_named(name) {
            Some(given) => self.callee_given(given),
            None => Ok(built_in(name)),
        }
    }

    /// Returns the definition of a name, if it stands for a macro or a library.
    fn given_named<'s>(&'s self, name: &str) -> Option<Definition<'s>>
        ensures { option_map (given_as self.now) result
            ≡ chain.given_to name.now (given_in self.now) }
    {
        self.here().known.given.get(name).copied()
    }

    /// Returns the callee of a name with this definition. A library itself cannot be called.
    fn callee_given<'s>(&'s self, given: Definition<'_>) -> Result<Callee<'s>>
        ensures { IfOk result (λ k. (x : trees.Text) → chain.given_to x (given_in self.now) ≡ Some
            (given_as self.now given.entry) → IsCalled self.now (trees.name x) k) }
    {
        self.stands();
        match given {
            Definition::Own(found) => self.macro_at(self.namespace(), found.name),
            Definition::Imported(library, found) => self.library_macro(library, found.name),
            Definition::Library(_) => Ok(Callee::Unknown),
        }
    }

    /// Returns the macro `name` of the chain or library at index `namespace`.
    fn macro_at<'s>(&'s self, namespace: usize, name: &str) -> Result<Callee<'s>>
        requires { namespace < length (order_in self.now) }
        ensures { IfOk result
            (λ k. IsMacroOf self.now (namespace_at (order_in self.now) namespace) name.now k) }
    {
        let there = self.at(namespace);
        let Some(index) = there.called.index_of(name) else {
            return Ok(Callee::Unknown);
        };
        let found = &there.known.macros[index];
        Ok(Callee::Macro(Signature {
            parameters: found.parameters,
            unit: checked_sum(there.macro_unit, index)?,
            first_default: there.defaults[index],
        }))
    }

    /// Returns the macro `name` of a library, if the library is laid out.
    #[tactic(auto, using(crate::proofs::nowhere))]
    fn library_macro<'s>(&'s self, library: &str, name: &str) -> Result<Callee<'s>>
        ensures { IfOk result (λ k. IsLaidThere (cenv_in self.now) (order_in self.now)
            (chain.a_library library.now) name.now → IsMacroOf self.now
            (chain.a_library library.now) name.now k) }
    {
        match self.library_index(library) {
            Some(index) => self.macro_at(index, name),
            None => Ok(Callee::Unknown),
        }
    }

    /// Returns the callee of an attribute.
    fn callee_by<'s>(&'s self, of: &Expr, name: &'s str) -> Result<Callee<'s>>
        ensures { IfOk result
            (λ k. IsCalled self.now (trees.attribute (expr_view of.now) name.now) k) }
    {
        match of {
            Expr::Name(of) => self.member_of(of.as_str(), name),
            _ => Ok(Callee::Unknown),
        }
    }

    /// Returns a block of `self`, `cycle` of a loop, or a macro of a library.
    fn member_of<'s>(&'s self, of: &str, name: &'s str) -> Result<Callee<'s>>
        ensures { IfOk result
            (λ k. IsCalled self.now (trees.attribute (trees.name of.now) name.now) k) }
    {
        match of {
            "self" => Ok(Callee::Block(name)),
            "loop" if name == "cycle" => Ok(Callee::Cycle),
            "loop" => Ok(Callee::Unknown),
            _ => self.imported_macro(of, name),
        }
    }

    /// Returns a macro of a library, by the name that the library has here. Private macros do not
    /// exist for an importer.
    fn imported_macro<'s>(&'s self, of: &str, name: &str) -> Result<Callee<'s>>
        requires not_self { bytes_eq of.now (codes "self") ≡ false }
        requires not_loop { bytes_eq of.now (codes "loop") ≡ false }
        ensures { IfOk result
            (λ k. IsCalled self.now (trees.attribute (trees.name of.now) name.now) k) }
    {
        self.stands();
        let Some(library) = self.library_named(of) else {
            return Ok(Callee::Unknown);
        };
        if is_private(name) {
            return Ok(Callee::Unknown);
        }
        self.library_macro(library, name)
    }

    /// Returns the library that a name stands for.
    fn library_named<'s>(&'s self, name: &str) -> Option<&'s str>
        ensures { option_map (λ n. n.now) result
            ≡ library_of (chain.given_to name.now (given_in self.now)) }
    {
        match self.given_named(name)? {
            Definition::Library(library) => Some(library),
            Definition::Own(_) | Definition::Imported(_, _) => None,
        }
    }
}

/// Returns the callee of a bare name that stands for no macro and no library.
fn built_in<'s>(name: &str) -> Callee<'s>
    ensures { (cenv : CompileEnv) (order : List chain.Namespace) (sources : chain.Sources)
        → IsCallee cenv order result (chain.named_alone sources None name.now) }
{
    match name {
        "range" => Callee::Range,
        "super" => Callee::Super,
        _ => Callee::Unknown,
    }
}
