//! Hosts templates over jt_host alone: compiles a letter from sources and prints it for each of
//! three contexts.
//!
//! Read first: `main`. The contract of `accepted` states what is proved of the image, that of
//! `written` what is proved of a letter.
#![tactic(auto)]

ghost use Rattle.std.specs.Prelude.{◌≡◌, IfOk, IfSome, codes, option_map};
ghost use Rattle.std.specs.List.{find};
ghost use Rattle.std.specs.Str.{bytes_eq};
ghost use Rattle.jt_host.specs.Compiled.{IsCompiled};
ghost use Rattle.jt_host.specs.Reasons.{spent_name};
ghost use Rattle.jt_embedding.specs.internal.Letters.{IsLine, IsWritten, usual};

use jt_host::{
    Budget, Library, Options, Outcome, Spent, Verified, compile, context_from_json, run, verify,
};
use std::alloc::{AllocError, Global};
use std::io;

const BUDGET: Budget = Budget {
    fuel: 10_000,
    depth: 8,
    output: 65_536,
    size: 65_536,
    nesting: 8,
};

/// A library over a list of names and sources.
#[derive(Drop)]
struct MemoryLibrary<'a> {
    templates: &'a [(&'a str, &'a str)],
}

impl Library for MemoryLibrary<'_> {
    ghost sources = { λ memory_library name. option_map (λ pair. pair.1.now)
        (find (λ pair. bytes_eq pair.0.now name) memory_library.templates.now) };

    fn source(&self, name: &str) -> Option<&str> {
        match self.templates.iter().find(|pair| pair.0 == name) {
            Some(pair) => Some(pair.1),
            None => None,
        }
    }
}

fn main(rt: HostRuntime) -> io::Result<()> {
    let memory_library = MemoryLibrary {
        templates: &[
            ("page", "<p>{% block body %}{% endblock %}</p>"),
            (
                "letter",
                "{% extends 'page' %}\n{% block body %}Dear {{ name }},{% endblock %}",
            ),
        ],
    };
    let Some(letter) = accepted(rt.alloc(), "letter", &memory_library) else {
        return println!(rt; "no letter");
    };
    for json in [
        "{\"name\": \"Noor\"}",
        "{\"name\": \"<Ben>\"}",
        "{\"name\": []}",
    ] {
        let outcome = written(rt.alloc(), &letter, json);
        println!(rt; "{}", line(rt.alloc(), outcome)?)?;
    }
    Ok(())
}

/// Compiles and verifies a template of a library, once for any number of runs.
fn accepted<L: Library>(alloc: Global, name: &str, library: &L) -> Option<Verified>
    ensures { IfSome result (IsCompiled (L.sources library.now) name.now usual) }
{
    let image = compile(alloc, name, library, Options::new()).ok()?;
    verify(alloc, image).ok()
}

/// Runs an image for a context in JSON and returns its outcome.
fn written(alloc: Global, letter: &Verified, json: &str) -> Option<Outcome>
    ensures { IfSome result (IsWritten letter.now json.now BUDGET) }
{
    let context = context_from_json(alloc, json).ok()?;
    run(alloc, letter, &context, BUDGET).ok()
}

/// Returns the line that reports how a run ended.
fn line(alloc: Global, outcome: Option<Outcome>) -> Result<String, AllocError>
    ensures { IfOk result (IsLine outcome) }
{
    match outcome {
        Some(Outcome::Text(text)) => Ok(text),
        Some(Outcome::Fault(fault, Some(place))) => {
            format!(in alloc; "fault {fault} in {} line {}", place.template, place.line)
        }
        Some(Outcome::Fault(fault, None)) => format!(in alloc; "fault {fault}"),
        Some(Outcome::Spent(spent)) => format!(in alloc; "spent {}", name_of(spent)),
        None => String::from_str(alloc, "no context, or no memory"),
    }
}

/// Returns the name of a number of the budget.
fn name_of(spent: Spent) -> &'static str
    ensures { result.now ≡ spent_name spent }
{
    match spent {
        Spent::Fuel => "Fuel",
        Spent::Depth => "Depth",
        Spent::Output => "Output",
        Spent::Size => "Size",
        Spent::Nesting => "Nesting",
    }
}
