//! Lists the uses in statements.

ghost use Rattle.std.specs.Prelude.{◌≡◌, option_map, IfOk};
ghost use Rattle.jt_ast.specs.ExpressionView.{expr_view, pairs_view};
ghost use Rattle.jt_ast.specs.StatementView.{stmt_view, body_view, branches_view, names_view};
ghost use Rattle.jt_ast.specs.StatementView.{given_view, filter_calls_view, parameters_view};
ghost use Rattle.jt_uses.specs.Uses.{place_at, bound, keys_bound, parameters_bound, outside};
ghost use Rattle.jt_uses.specs.Uses.{macros_bound, condition_uses, filter_call_uses};
ghost use Rattle.jt_uses.specs.Uses.{stmt_uses, body_uses, branch_uses};
ghost use Rattle.jt_uses.specs.UseView.{sites_view};
ghost use Rattle.jt_uses.specs.internal.Adds.{Adds};

use crate::site::{Enclosing, Place, Use, UseList, UseSite};
use jt_ast::{Branch, Expr, FilterCall, Parameter, Stmt};
use std::alloc::{AllocError, Global};

impl<'a> UseList<'a> {
    /// Appends the bindings of targets.
    fn add_targets(&mut self, place: Place, targets: &'a [String]) -> Result<(), AllocError>
        ensures { IfOk result (λ _. Adds self.old self.new (bound (names_view targets.now) place)) }
    {
        for target in targets {
            self.add(place, Use::Binds(target.as_str()))?;
        }
        Ok(())
    }

    /// Appends the bindings of the keys of pairs.
    fn add_keys(&mut self, place: Place, pairs: &'a [(String, Expr)]) -> Result<(), AllocError>
        ensures { IfOk result (λ _. Adds self.old self.new
            (keys_bound (pairs_view pairs.now) place)) }
    {
        for (name, _) in pairs {
            self.add(place, Use::Binds(name.as_str()))?;
        }
        Ok(())
    }

    /// Appends the bindings of parameters.
    fn add_parameters(
        &mut self,
        place: Place,
        parameters: &'a [Parameter],
    ) -> Result<(), AllocError>
        ensures { IfOk result (λ _. Adds self.old self.new
            (parameters_bound (parameters_view parameters.now) place)) }
    {
        for parameter in parameters {
            self.add(place, Use::Binds(parameter.name.as_str()))?;
        }
        Ok(())
    }

    /// Appends the bindings of names to macros of a library.
    fn add_macros(
        &mut self,
        place: Place,
        library: &'a str,
        macros: &'a [(String, String)],
    ) -> Result<(), AllocError>
        ensures { IfOk result (λ _. Adds self.old self.new
            (macros_bound library.now (given_view macros.now) place)) }
    {
        for (called, name) in macros {
            let made = Use::BindsMacro {
                library,
                called: called.as_str(),
                name: name.as_str(),
            };
            self.add(place, made)?;
        }
        Ok(())
    }

    /// Appends the uses in a loop's condition. No loop encloses the condition.
    fn add_condition(&mut self, place: Place, condition: &'a Option<Expr>) -> Result<(), AllocError>
        ensures { IfOk result (λ _. Adds self.old self.new
            (condition_uses (option_map expr_view condition.now) place)) }
    {
        let around = Enclosing {
            in_loop: false,
            ..place.around
        };
        match condition {
            Some(condition) => self.add_expression(Place { around, ..place }, condition),
            None => Ok(()),
        }
    }

    /// Appends the filters of a filter tag and the uses in their arguments.
    fn add_filter_calls(
        &mut self,
        place: Place,
        filter_calls: &'a [FilterCall],
    ) -> Result<(), AllocError>
        ensures { IfOk result (λ _. Adds self.old self.new
            (filter_call_uses (filter_calls_view filter_calls.now) place)) }
    {
        for filter_call in filter_calls {
            let made = Use::Filters {
                name: filter_call.name.as_str(),
                arguments: &filter_call.arguments,
                keywords: &filter_call.keywords,
            };
            self.add(place, made)?;
            self.add_arguments(place, &filter_call.arguments, &filter_call.keywords)?;
        }
        Ok(())
    }

    /// Appends the uses in the branches of an `if`.
    #[cycle(add)]
    fn add_branches(
        &mut self,
        around: Enclosing,
        branches: &'a [Branch<Stmt>],
    ) -> Result<(), AllocError>
        ensures { IfOk result (λ _. Adds self.old self.new
            (branch_uses (branches_view branches.now) around)) }
    {
        for Branch {
            line,
            condition,
            body,
        } in branches {
            self.add_expression(place_of(*line, around), condition)?;
            self.add_statements(around, body)?;
        }
        Ok(())
    }

    /// Appends the uses in a statement.
    #[tactic(auto, using(jt_ast::proofs::StatementViews::view_Set, jt_ast::proofs::StatementViews::view_If))]
    #[cycle(add)]
    fn add_statement(&mut self, around: Enclosing, statement: &'a Stmt) -> Result<(), AllocError>
        ensures { IfOk result (λ _. Adds self.old self.new
            (stmt_uses (stmt_view statement.now) around)) }
    {
        match statement {
            Stmt::Data(_) => {}
            Stmt::Print(line, expr) => self.add_expression(place_of(*line, around), expr)?,
            Stmt::If(branches, other) => {
                self.add_branches(around, branches)?;
                self.add_statements(around, other)?;
            }
            Stmt::For {
                line,
                targets,
                over,
                condition,
                body,
                other,
            } => {
                let place = place_of(*line, around);
                self.add_expression(place, over)?;
                self.add_targets(place_of(*line, around.in_a_scope()), targets)?;
                self.add_condition(place, condition)?;
                self.add_statements(around.in_a_loop(), body)?;
                self.add_statements(around, other)?;
            }
            Stmt::Set {
                line,
                targets,
                value,
            } => {
                self.add_expression(place_of(*line, around), value)?;
                self.add_targets(place_of(*line, around), targets)?;
            }
            Stmt::SetBlock { line, name, body } => {
                self.add(place_of(*line, around), Use::Binds(name.as_str()))?;
                self.add_statements(around.in_a_scope(), body)?;
            }
            Stmt::With { line, values, body } => {
                self.add_pairs(place_of(*line, around), values)?;
                self.add_keys(place_of(*line, around.in_a_scope()), values)?;
                self.add_statements(around.in_a_scope(), body)?;
            }
            Stmt::FilterBlock {
                line,
                filters,
                body,
            } => {
                self.add_filter_calls(place_of(*line, around), filters)?;
                self.add_statements(around.in_a_scope(), body)?;
            }
            Stmt::Autoescape { body, .. } => self.add_statements(around.in_a_scope(), body)?,
            Stmt::Macro {
                line,
                name,
                parameters,
                body,
            } => {
                let made = Use::DeclaresMacro {
                    name: name.as_str(),
                    parameters,
                    body,
                };
                self.add(place_of(*line, around), made)?;
                self.add_parameters(place_of(*line, around.in_a_scope()), parameters)?;
                self.add_statements(around.in_a_macro(), body)?;
            }
            Stmt::Include {
                line,
                name,
                missing,
                names,
            } => {
                let made = Use::Includes {
                    name: name.as_str(),
                    missing: *missing,
                    names: *names,
                };
                self.add(place_of(*line, around), made)?;
            }
            Stmt::Import {
                line,
                library,
                name,
            } => {
                let made = Use::BindsLibrary {
                    library: library.as_str(),
                    name: name.as_str(),
                };
                self.add(place_of(*line, around), Use::Imports(library.as_str()))?;
                self.add(place_of(*line, around), made)?;
            }
            Stmt::From {
                line,
                library,
                macros,
            } => {
                self.add(place_of(*line, around), Use::Imports(library.as_str()))?;
                self.add_macros(place_of(*line, around), library.as_str(), macros)?;
            }
            Stmt::Extends(line, name) => {
                self.add(place_of(*line, around), Use::Extends(name.as_str()))?;
            }
            Stmt::Block {
                line,
                name,
                scoped,
                required,
                body,
            } => {
                let made = Use::DeclaresBlock {
                    name: name.as_str(),
                    scoped: *scoped,
                    required: *required,
                    body,
                };
                self.add(place_of(*line, around), made)?;
                self.add_statements(around.in_a_block(), body)?;
            }
        }
        Ok(())
    }

    /// Appends the uses in statements.
    #[cycle(add)]
    fn add_statements(&mut self, around: Enclosing, body: &'a [Stmt]) -> Result<(), AllocError>
        ensures { IfOk result (λ _. Adds self.old self.new
            (body_uses (body_view body.now) around)) }
    {
        for statement in body {
            self.add_statement(around, statement)?;
        }
        Ok(())
    }
}

/// Returns the place of a tag.
fn place_of(line: u32, around: Enclosing) -> Place
    ensures { result ≡ place_at line around }
{
    Place { line, around }
}

/// Returns the uses in a template's statements, in the order of the source.
pub fn uses_of(alloc: Global, body: &[Stmt]) -> Result<Vec<UseSite<'_>>, AllocError>
    ensures { IfOk result (λ us. sites_view us.items ≡ body_uses (body_view body.now) outside) }
{
    let mut found = UseList {
        sites: Vec::new(alloc),
    };
    let around = Enclosing {
        in_loop: false,
        in_block: false,
        in_callee: false,
        in_scope: false,
    };
    found.add_statements(around, body)?;
    Ok(found.sites)
}
