//! Finds imports of macros that a library does not offer.

ghost use Rattle.std.specs.Prelude.{◌≡◌, ◌<◌};
ghost use Rattle.jt_ast.specs.StatementView.{body_view, given_view, stmt_view};
ghost use Rattle.jt_ast.specs.Statements.{end, stmt};
ghost use Rattle.jt_chains.specs.Along.{templates_at};
ghost use Rattle.jt_chains.specs.Rules as rules;
ghost use Rattle.jt_chains.specs.View.{its_sources, its_templates};
ghost use Rattle.jt_inherit.specs.internal.RuleTests as spec;
ghost use Rattle.jt_inherit.specs.internal.Breaking.{IsImported, Misses, imports_it, lacks};
ghost use Rattle.jt_inherit.specs.internal.Tags.{tag_count};
ghost use Rattle.jt_uses.specs.Uses.{body_uses, macros_bound, stmt_uses};
ghost use Rattle.jt_uses.specs.declared.site.Enclosing.{Enclosing};
ghost use Rattle.jt_uses.specs.declared.site.Place.{Place};

use jt_ast::Stmt;
use jt_chains::{Chain, file_named};

/// A macro that a library does not offer.
#[derive(Clone, Copy)]
pub(crate) struct MissingMacro<'a> {
    pub(crate) library: &'a str,
    pub(crate) name: &'a str,
}

/// Returns whether the library was read and does not offer the macro to importers.
fn lacks_macro(chain: &Chain, library: &str, name: &str) -> bool
    ensures { result ≡ lacks (its_sources chain.now) library.now name.now }
{
    match chain.templates.get(file_named(chain, library)) {
        Some(file) => file.is_library() && !file.gives(name),
        None => false,
    }
}

/// Returns the first of the macros that the library does not offer.
fn missing_from<'a>(
    chain: &Chain,
    library: &'a str,
    macros: &'a [(String, String)],
) -> Option<MissingMacro<'a>>
    ensures { Misses (its_sources chain.now)
        (rules.lacks_one (its_sources chain.now) library.now (given_view macros.now))
        (λ m. (p : Place) → IsImported (macros_bound library.now (given_view macros.now) p) m)
        result }
{
    for (name, _) in macros {
        if lacks_macro(chain, library, name) {
            return Some(MissingMacro {
                library,
                name: name.as_str(),
            });
        }
    }
    None
}

/// Returns the first macro that a statement imports and the library does not offer.
fn missing_by<'a>(chain: &Chain, statement: &'a Stmt) -> Option<MissingMacro<'a>>
    ensures { Misses (its_sources chain.now)
        (rules.lacks_macros (its_sources chain.now) (stmt (stmt_view statement.now) end))
        (λ m. (w : Enclosing) → IsImported (stmt_uses (stmt_view statement.now) w) m) result }
{
    match statement {
        Stmt::From {
            library,
            macros,
            ..
        } => missing_from(chain, library, macros),
        _ => None,
    }
}

/// Returns the first macro that a template imports and the library does not offer.
fn missing_in<'a>(chain: &Chain, body: &'a [Stmt]) -> Option<MissingMacro<'a>>
    ensures { Misses (its_sources chain.now)
        (rules.lacks_macros (its_sources chain.now) (body_view body.now))
        (λ m. (w : Enclosing) → IsImported (body_uses (body_view body.now) w) m) result }
{
    for statement in body {
        if let Some(found) = missing_by(chain, statement) {
            return Some(found);
        }
    }
    None
}

/// Returns the first macro that the templates at `indices` import and the library does not offer.
#[tactic(auto, using(crate::proofs::PathsGrow::templates_turn, crate::proofs::PathsGrow::templates_past))]
pub(crate) fn missing_at<'a>(chain: &'a Chain, indices: &[usize]) -> Option<MissingMacro<'a>>
    ensures { Misses (its_sources chain.now) (spec.any_lacks_macros (its_sources chain.now)
        (templates_at (its_templates chain.now) indices.now))
        (λ m. 0 < tag_count (imports_it m) (templates_at (its_templates chain.now) indices.now))
        result }
{
    for index in indices {
        if let Some(file) = chain.templates.get(*index) {
            if let Some(found) = missing_in(chain, file.template.body()) {
                return Some(found);
            }
        }
    }
    None
}
