//! States what fits: the arguments that a filter, a test, a function or a macro takes.

ghost use Rattle.std.specs.Prelude.{◌≡◌, ◌++◌, IfOk, OnOk, map, option_map, string_bytes};
ghost use Rattle.jt_hints.specs.DefinedNames.{if_some};
ghost use Rattle.jt_hints.specs.Fitting as spec;

use jt_ids::{FilterId, TestId};
use jt_scan::{Segment, SegmentKind, Sign, TagKind, Token};
use std::alloc::{AllocError, Global};

/// Returns what a filter takes whose first argument names something.
fn taken_by_naming(filter: FilterId) -> Option<&'static str>
    ensures { option_map (λ x. x.now) result ≡ spec.taken_by_naming filter }
{
    match filter {
        FilterId::Map => Some(
            "it takes the name of a filter in quotes and what that filter takes, or \
             attribute=\"key\" alone",
        ),
        FilterId::MapAttribute => Some("it takes a key in quotes"),
        FilterId::Reject | FilterId::Select => {
            Some("it takes nothing, or the name of a test in quotes and what that test takes")
        }
        FilterId::RejectAttr | FilterId::SelectAttr => Some(
            "it takes a key in quotes, and then nothing, or the name of a test in quotes and what \
             that test takes",
        ),
        _ => None,
    }
}

/// Returns the number of arguments that a filter takes, with their names, and what to write in
/// place of a key.
#[tactic(auto, using(crate::proofs::Numerals::none, crate::proofs::Numerals::one, crate::proofs::Numerals::two, crate::proofs::Numerals::most))]
fn counted(filter: FilterId) -> &'static str
    ensures { result.now ≡ spec.counted filter }
{
    match filter {
        FilterId::Attr => "it takes 1 argument: name",
        FilterId::Default => "it takes at most 2 arguments: default_value=\"\", boolean=false",
        FilterId::Int => "it takes at most 1 argument: default=0",
        FilterId::Join => {
            "it takes at most 1 argument: d=\"\"; for one key of each item write \
             map(attribute=\"key\")|join"
        }
        FilterId::Map | FilterId::SelectAttr | FilterId::RejectAttr => {
            "it takes 1 to 254 arguments"
        }
        FilterId::MapAttribute => "it takes 1 argument: attribute",
        FilterId::Max => {
            "it takes no arguments; for one key of each item write map(attribute=\"key\")|max"
        }
        FilterId::Min => {
            "it takes no arguments; for one key of each item write map(attribute=\"key\")|min"
        }
        FilterId::Reject | FilterId::Select => "it takes at most 254 arguments",
        FilterId::Replace => "it takes 2 arguments: old, new",
        FilterId::Sort => {
            "it takes at most 1 argument: reverse=false; the host sorts items by a key, and \
             map(attribute=\"key\")|sort sorts the keys alone"
        }
        FilterId::Sum => {
            "it takes no arguments; for one key of each item write map(attribute=\"key\")|sum"
        }
        FilterId::Unique => {
            "it takes no arguments; for one key of each item write map(attribute=\"key\")|unique"
        }
        _ => "it takes no arguments",
    }
}

/// Returns what a filter takes.
fn taken_by_filter(filter: FilterId) -> &'static str
    ensures { result.now ≡ spec.taken_by_filter filter }
{
    match taken_by_naming(filter) {
        Some(words) => words,
        None => counted(filter),
    }
}

/// Returns what the filter of this name takes, or `None` if no filter has it.
pub fn filter_arguments(name: &str) -> Option<&'static str>
    ensures { option_map (λ x. x.now) result ≡ spec.filter_arguments name.now }
{
    match FilterId::by_name(name) {
        Some(filter) => Some(taken_by_filter(filter)),
        None => None,
    }
}

/// Returns what a test takes after the value that it tests.
fn taken_by_test(test: TestId) -> &'static str
    ensures { result.now ≡ spec.taken_by_test test }
{
    if test.takes(1) {
        "it takes no arguments"
    } else {
        "it takes 1 argument, by position"
    }
}

/// Returns what the test of this name takes, or `None` if no test has it.
pub fn test_arguments(name: &str) -> Option<&'static str>
    ensures { option_map (λ x. x.now) result ≡ spec.test_arguments name.now }
{
    match TestId::by_name(name) {
        Some(test) => Some(taken_by_test(test)),
        None => None,
    }
}

/// Returns what the function of this name takes, or `None` if no function has it.
#[tactic(auto, using(crate::proofs::Numerals::one, crate::proofs::Numerals::three))]
pub fn function_arguments(name: &str) -> Option<&'static str>
    ensures { option_map (λ x. x.now) result ≡ spec.function_arguments name.now }
{
    match name {
        "range" => Some("it takes 1 to 3 arguments, by position"),
        "super" => Some("it takes no arguments"),
        _ => None,
    }
}

/// Returns what a block of `self` or `loop.cycle` takes, or `None` for another field.
pub fn field_arguments(of: &str, field: &str) -> Option<&'static str>
    ensures { option_map (λ x. x.now) result ≡ spec.field_arguments of.now field.now }
{
    match (of, field) {
        ("self", _) => Some("it takes no arguments"),
        ("loop", "cycle") => Some("it takes at least 1 argument, by position"),
        _ => None,
    }
}

/// Returns the name of a parameter that follows a parenthesis or a comma.
fn parameter_here<'a>(token: Token<'_>, behind: &[Token<'a>]) -> Option<&'a str>
    ensures { option_map (λ x. x.now) result ≡ spec.parameter_here token.entry behind.now }
{
    match (token, behind) {
        (Token::Sign(Sign::LeftParen | Sign::Comma), [Token::Name(name), ..]) => Some(*name),
        _ => None,
    }
}

/// Appends the parameters that the tokens declare.
fn add_parameters<'a>(tokens: &[Token<'a>], found: &mut Vec<&'a str>) -> Result<(), AllocError>
    ensures { IfOk result (λ _. map (λ x. x.now) found.new.items
        ≡ map (λ x. x.now) found.old.items ++ spec.parameters_in tokens.now) }
{
    let mut rest = tokens;
    'parameters: while let [token, behind @ ..] = rest {
        if let Some(name) = parameter_here(*token, behind) {
            found.push(name)?;
        }
        rest = behind;
    }
    Ok(())
}

/// Returns the tokens after the name of a macro, if the tokens are those of its tag.
fn declaration_of<'t, 'a>(name: &str, tokens: &'t [Token<'a>]) -> Option<&'t [Token<'a>]>
    ensures { option_map (λ ts. spec.parameters_in ts.now) result
        ≡ spec.parameters_of name.now tokens.now }
{
    match tokens {
        [Token::Name("macro"), Token::Name(x), behind @ ..] if *x == name => Some(behind),
        _ => None,
    }
}

/// Returns the tokens after the name of a macro, if the segment is its tag.
fn declaration_at<'t, 'a>(name: &str, segment: &'t Segment<'a>) -> Option<&'t [Token<'a>]>
    ensures { option_map (λ ts. spec.parameters_in ts.now) result
        ≡ spec.parameters_at name.now segment.now }
{
    let SegmentKind::Tag(tag) = &segment.part else {
        return None;
    };
    match tag.kind {
        TagKind::Block => declaration_of(name, &tag.tokens),
        TagKind::Variable => None,
    }
}

/// Returns the parameters of the first macro of this name, or `None` if no tag declares it.
fn macro_parameters<'a>(
    alloc: Global,
    name: &str,
    segments: &[Segment<'a>],
) -> Result<Option<Vec<&'a str>>, AllocError>
    ensures { IfOk result (λ found. option_map (λ names. map (λ x. x.now) names.items) found
        ≡ spec.macro_parameters name.now segments.now) }
{
    for segment in segments {
        if let Some(tokens) = declaration_at(name, segment) {
            let mut found = Vec::new(alloc);
            add_parameters(tokens, &mut found)?;
            return Ok(Some(found));
        }
    }
    Ok(None)
}

/// Appends each name after a comma.
fn push_further(made: &mut String, names: &[&str]) -> Result<(), AllocError>
    ensures { OnOk result (string_bytes made.new
        ≡ string_bytes made.old ++ spec.further (map (λ x. x.now) names.now)) }
{
    for name in names {
        made.push_str(", ")?;
        made.push_str(name)?;
    }
    Ok(())
}

/// Returns the names after a colon, with commas between them.
fn listed(alloc: Global, names: &[&str]) -> Result<String, AllocError>
    ensures { IfOk result (λ made.
        string_bytes made ≡ spec.listed (map (λ x. x.now) names.now)) }
{
    let mut made = String::new(alloc);
    if let [first, rest @ ..] = names {
        made.push_str(": ")?;
        made.push_str(first)?;
        push_further(&mut made, rest)?;
    }
    Ok(made)
}

/// Returns the words for at most `count` arguments.
#[tactic(auto, using(crate::proofs::Numerals::one))]
fn up_to(alloc: Global, count: usize) -> Result<String, AllocError>
    ensures { IfOk result (λ made. string_bytes made ≡ spec.from_to 0 count) }
{
    if count == 0 {
        String::from_str(alloc, "no arguments")
    } else if count == 1 {
        String::from_str(alloc, "at most 1 argument")
    } else {
        format!(in alloc; "at most {count} arguments")
    }
}

/// Returns what a macro with these parameters takes.
#[tactic(auto, using(crate::proofs::Numerals::length_mapped))]
fn taken_by_macro(alloc: Global, names: &[&str]) -> Result<String, AllocError>
    ensures { IfOk result (λ made.
        string_bytes made ≡ spec.taken_by_macro (map (λ x. x.now) names.now)) }
{
    let count = up_to(alloc, names.len())?;
    let list = listed(alloc, names)?;
    format!(in alloc; "it takes {count}{list}")
}

/// Returns what the macro of this name takes, or `None` if no tag declares it.
///
/// # Errors
///
/// `AllocError` if a growth is refused.
pub fn macro_arguments(
    alloc: Global,
    name: &str,
    segments: &[Segment<'_>],
) -> Result<Option<String>, AllocError>
    ensures { IfOk result (λ made.
        option_map string_bytes made ≡ spec.macro_arguments name.now segments.now) }
{
    match macro_parameters(alloc, name, segments)? {
        Some(names) => Ok(Some(taken_by_macro(alloc, &names)?)),
        None => Ok(None),
    }
}
