//! Tests where a broken rule of names and calls is found: the template, the line and the subject.

ghost use Rattle.std.specs.Prelude.{bytes_eq, option_map};
ghost use Rattle.std.specs.List.{find};

use crate::rows::rows_hold;
use jt_checks::find_broken;
use jt_inherit::{Library, chain};
use jt_names::facts_of;
use jt_scan::Options;
use jt_scopes::resolve;
use std::alloc::{AllocError, Global};
use std::test::Fail;

/// A library over a list of names and sources.
#[derive(Drop)]
struct Sources<'a> {
    templates: Vec<(&'a str, &'a str)>,
}

impl Library for Sources<'_> {
    ghost sources = { λ s name. option_map (λ p. p.1.now)
        (find (λ p. bytes_eq p.0.now name) s.templates.items) };

    fn source(&self, name: &str) -> Option<&str> {
        match self.templates.iter().find(|pair| pair.0 == name) {
            Some(pair) => Some(pair.1),
            None => None,
        }
    }
}

// Returns the templates of a row, the entry's under the name `t`.
fn sources_of(alloc: Global, row: &str) -> Result<Sources<'_>, AllocError> {
    let (front, entry) = row.rsplit_once('¦').unwrap_or(("", row));
    let mut templates = vec![in alloc; ("t", entry)]?;
    for part in front.split('¦') {
        if let Some(template) = part.split_once(": ") {
            templates.push(template)?;
        }
    }
    Ok(Sources { templates })
}

// Returns the finding in the chain of a library's entry `t`.
fn found_in(alloc: Global, sources: &Sources<'_>) -> Result<String, Fail> {
    let Ok(chain) = chain(alloc, "t", sources, Options::new()) else {
        return Err(Fail::from("chain"));
    };
    let facts = facts_of(alloc, &chain)?;
    let Some(found) = find_broken(alloc, &facts)? else {
        return Ok(String::from_str(alloc, "nothing")?);
    };
    if resolve(alloc, &chain).err() != Some(found.rule) {
        return Err(Fail::from("the call that resolves names another rule"));
    }
    let (line, subject) = (found.line, found.subject);
    let text = format!(in alloc; "{}, {} {line}: {subject:?}", found.rule, found.template)?;
    Ok(text.as_str().replace(alloc, "\"", "'")?)
}

// Finds the broken rule of a row's templates, with ␤ for LF and ␍ for CR.
fn found(alloc: Global, asked: &str) -> Result<String, Fail> {
    let text = asked.replace(alloc, "␤", "\n")?;
    let text = text.as_str().replace(alloc, "␍", "\r")?;
    found_in(alloc, &sources_of(alloc, text.as_str())?)
}

// Finds the broken rule of a template beside a library `l`, a library `k` that breaks a rule, and a
// template `b` with a block.
fn found_beside(alloc: Global, asked: &str) -> Result<String, Fail> {
    let libraries = "l: {% macro m() %}{% endmacro %}¦k: ␤{% macro m() %}{{ loop }}{% endmacro %}";
    let parent = "b: {% block a %}{% endblock %}";
    found(
        alloc,
        format!(in alloc; "{libraries}¦{parent}¦{asked}")?.as_str(),
    )
}

// Finds the broken rule of a template with a macro of `count` parameters on its second line.
fn with_parameters(alloc: Global, asked: &str) -> Result<String, Fail> {
    let count = asked.parse::<u32>()?;
    let mut source = String::from_str(alloc, "a\n{% macro m(p")?;
    for number in 1..count {
        source.push_str(format!(in alloc; ", p{number}")?.as_str())?;
    }
    source.push_str(") %}{% endmacro %}")?;
    found(alloc, source.as_str())
}

// Finds the broken rule of a template that binds `count` names, one on each line.
fn with_bindings(alloc: Global, asked: &str) -> Result<String, Fail> {
    let count = asked.parse::<u32>()?;
    let mut source = String::new(alloc);
    for _ in 0..count {
        source.push_str("{% set x = 1 %}\n")?;
    }
    found(alloc, source.as_str())
}

#[test]
fn finding_has_line_and_subject(rt: HostRuntime) -> Result<(), Fail> {
    rows_hold(
        &rt,
        found,
        "a␤{{ loop }} => V1 LoopOutside, t 2: Name('loop')
         a␤␤{{ 1 + loop.index }} => V1 LoopOutside, t 3: LoopField('index')
         {% for x in y %}␤{{ loop.no }}{% endfor %} => V1 LoopOutside, t 2: LoopField('no')
         ␤{{ loop.cycle(1) }} => V1 LoopOutside, t 2: CalledField { of: 'loop', field: 'cycle' }
         {% macro m() %}{% endmacro %}␤{{ m }} => V2 MacroAsValue, t 2: Name('m')
         {% macro m() %}{% endmacro %}␤{% set m = 1 %} => V2 MacroAsValue, t 2: Name('m')
         a␤{% set super = 1 %} => V3 NotCallable, t 2: Name('super')
         ␤{{ f() }} => V3 NotCallable, t 2: CalledName('f')
         ␤{{ a.f() }} => V3 NotCallable, t 2: CalledField { of: 'a', field: 'f' }
         ␤{{ (f)() }} => V3 NotCallable, t 2: CalledExpression
         ␤␤{{ super() }} => V3 NotCallable, t 3: CalledName('super')
         ␤{{ self.b() }} => V3 NotCallable, t 2: CalledField { of: 'self', field: 'b' }
         {% macro m(a) %}{% endmacro %}␤{{ m(1, 2) }} => V4 BadArguments, t 2: CalledName('m')
         {{ 'a'|upper }}␤{{ 'a'|upper|trim(1, 2) }} => V4 BadArguments, t 2: Filter('trim')
         {{ 1 is odd }}␤{{ 1 is odd(2) }} => V4 BadArguments, t 2: Test('odd')
         ␤{% macro m(a, a) %}{% endmacro %} => V4 BadArguments, t 2: Macro('m')
         a␤{% macro range() %}{% endmacro %} => V3 NotCallable, t 2: Macro('range')
         {{ x }}␤{% for x in y %}{{ loop.index }}{% endfor %} => nothing",
    )
}

#[test]
fn finding_is_the_first_and_at_its_tag(rt: HostRuntime) -> Result<(), Fail> {
    rows_hold(
        &rt,
        found,
        "{{ f() }}␤{{ g() }} => V3 NotCallable, t 1: CalledName('f')
         {{ 1 +␤loop }} => V1 LoopOutside, t 1: Name('loop')
         a␍␤b␍␤{{ loop }} => V1 LoopOutside, t 3: Name('loop')
         a␍b␍{{ loop }} => V1 LoopOutside, t 3: Name('loop')
         {% if a %}␤{% elif f() %}{% endif %} => V3 NotCallable, t 2: CalledName('f')",
    )
}

#[test]
fn finding_names_its_template(rt: HostRuntime) -> Result<(), Fail> {
    rows_hold(
        &rt,
        found,
        "u: a␤{{ loop }}¦{% include 'u' %} => V1 LoopOutside, u 2: Name('loop')
         b: a␤␤{{ f() }}¦{% extends 'b' %} => V3 NotCallable, b 3: CalledName('f')",
    )
}

#[test]
fn finding_of_a_name_of_another_template(rt: HostRuntime) -> Result<(), Fail> {
    rows_hold(
        &rt,
        found_beside,
        "{% extends 'b' %}␤{% block a %}{{self}}{% endblock %} => V3 NotCallable, t 2: Name('self')
         {%import 'l' as l%}␤{{l.m(1)}} => V4 BadArguments, t 2: CalledField { of: 'l', field: 'm' }
         {% import 'k' as k %} => V1 LoopOutside, k 2: Name('loop')
         {% import 'l' as l %}␤{{ l }} => V2 MacroAsValue, t 2: Name('l')
         ␤{% import 'l' as loop %} => V1 LoopOutside, t 2: Name('loop')
         ␤{% from 'l' import m as self %} => V3 NotCallable, t 2: Name('self')",
    )
}

#[test]
fn finding_at_limits(rt: HostRuntime) -> Result<(), Fail> {
    rows_hold(
        &rt,
        with_parameters,
        "255 => nothing
         256 => V5 TooManySlots, t 2: Macro('m')",
    )?;
    rows_hold(
        &rt,
        with_bindings,
        "4096 => nothing
         4097 => V5 TooManySlots, t 4097: Bindings
         4200 => V5 TooManySlots, t 4097: Bindings",
    )
}
