//! Defines the syntax trees of templates, as written: no name is resolved yet.

ghost use Rattle.std.specs.Prelude.{◌≡◌};
ghost use Rattle.jt_ast.specs.StatementView.{is_ignored, passes_context, body_view, body_of};

use crate::expression::{Expr, Literal};

/// A filter of a filter tag, with its arguments.
#[derive(Drop)]
pub struct FilterCall {
    pub name: String,
    /// The positional arguments.
    pub arguments: Vec<Expr>,
    pub keywords: Vec<(String, Expr)>,
}

/// A parameter of a macro, with its default value.
#[derive(Drop)]
pub struct Parameter {
    pub name: String,
    pub default: Option<Literal>,
}

/// The effect of an include whose template does not exist.
#[derive(Clone, Copy, Debug, PartialEq, Eq)]
pub enum Missing {
    /// A refusal of the including template.
    Refused,
    /// An include that prints nothing: `ignore missing`.
    Ignored,
}

impl Missing {
    /// Returns whether a missing template is ignored.
    pub fn is_ignored(self) -> bool
        ensures { result ≡ is_ignored self }
    {
        matches!(self, Missing::Ignored)
    }
}

/// The visibility of the names at an `include` tag to the included template.
#[derive(Clone, Copy, Debug, PartialEq, Eq)]
pub enum IncludeContext {
    /// `with context`, which is also the default.
    Seen,
    /// `without context`
    Hidden,
}

impl IncludeContext {
    /// Returns whether the included template sees the names.
    pub fn passes_context(self) -> bool
        ensures { result ≡ passes_context self }
    {
        matches!(self, IncludeContext::Seen)
    }
}

/// A branch of an `if`, with statements of type `S`.
#[derive(Drop)]
pub struct Branch<S> {
    /// The line of the branch's tag.
    pub line: u32,
    pub condition: Expr,
    pub body: Vec<S>,
}

/// A statement. Its first number is the line of its tag.
#[derive(Drop)]
pub enum Stmt {
    /// Text outside tags, never empty.
    Data(String),
    /// `{{ e }}`
    Print(u32, Expr),
    /// `{% if c %} .. {% elif d %} .. {% else %} .. {% endif %}`: the branches and the `else` part.
    If(Vec<Branch<Stmt>>, Vec<Stmt>),
    /// `{% for a, b in e if c %} .. {% else %} .. {% endfor %}`: the head, the body and the `else`
    /// part.
    For {
        line: u32,
        targets: Vec<String>,
        over: Expr,
        condition: Option<Expr>,
        body: Vec<Stmt>,
        other: Vec<Stmt>,
    },
    /// `{% set a, b = e %}`
    Set {
        line: u32,
        targets: Vec<String>,
        value: Expr,
    },
    /// `{% set a %} .. {% endset %}`
    SetBlock {
        line: u32,
        name: String,
        body: Vec<Stmt>,
    },
    /// `{% with a = e, b = f %} .. {% endwith %}`
    With {
        line: u32,
        values: Vec<(String, Expr)>,
        body: Vec<Stmt>,
    },
    /// `{% filter f(a)|g %} .. {% endfilter %}`
    FilterBlock {
        line: u32,
        filters: Vec<FilterCall>,
        body: Vec<Stmt>,
    },
    /// `{% autoescape true %} .. {% endautoescape %}`
    Autoescape {
        line: u32,
        escaping: bool,
        body: Vec<Stmt>,
    },
    /// `{% macro f(a, b=1) %} .. {% endmacro %}`
    Macro {
        line: u32,
        name: String,
        parameters: Vec<Parameter>,
        body: Vec<Stmt>,
    },
    /// `{% include "x" ignore missing without context %}`
    Include {
        line: u32,
        name: String,
        missing: Missing,
        names: IncludeContext,
    },
    /// `{% import "x" as f %}`: the name of the library and the name that it is bound to.
    Import {
        line: u32,
        library: String,
        name: String,
    },
    /// `{% from "x" import a, b as c %}`: the name of the library, and the names of its macros,
    /// each with the name that it is bound to.
    From {
        line: u32,
        library: String,
        macros: Vec<(String, String)>,
    },
    /// `{% extends "x" %}`
    Extends(u32, String),
    /// `{% block b scoped required %} .. {% endblock %}`
    Block {
        line: u32,
        name: String,
        scoped: bool,
        required: bool,
        body: Vec<Stmt>,
    },
}

/// A template.
#[derive(Drop)]
pub struct Template {
    body: Vec<Stmt>,
}

impl Template {
    /// Creates a template with these statements.
    pub fn new(body: Vec<Stmt>) -> Self
        ensures { body_of result ≡ body_view body.items }
    {
        Self { body }
    }

    /// Returns the statements of the template.
    pub fn body(&self) -> &[Stmt]
        ensures { body_view result.now ≡ body_of self.now }
    {
        &self.body
    }
}
