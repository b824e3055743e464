//! Finds the names that the tags of a source define.

ghost use Rattle.std.specs.Prelude.{◌≡◌, ◌++◌, IfOk, map, option_map};
ghost use Rattle.jt_hints.specs.DefinedNames as spec;

use jt_scan::{Segment, SegmentKind, Sign, TagKind, Token};
use std::alloc::{AllocError, Global};

/// A kind of names that tags define.
#[derive(Clone, Copy, Debug, Drop, PartialEq, Eq)]
pub enum NameKind {
    /// What a template calls by a bare name: its macros, the macros that `from` tags import, and
    /// `range`.
    Callee,
    /// The macros that a library offers: their names do not begin with `_`.
    PublicMacro,
    /// The blocks.
    Block,
}

/// Returns the name that follows the first word of a tag, if that is `wanted`.
fn name_after<'a>(wanted: &str, tokens: &[Token<'a>]) -> Option<&'a str>
    ensures { option_map (λ x. x.now) result ≡ spec.name_after wanted.now tokens.now }
{
    match tokens {
        [Token::Name(word), Token::Name(name), ..] if *word == wanted => Some(*name),
        _ => None,
    }
}

/// Returns the name unless it begins with `_`.
fn public_name(name: Option<&str>) -> Option<&str>
    ensures { option_map (λ x. x.now) result
        ≡ spec.public_name (option_map (λ x. x.now) name.entry) }
{
    match name {
        Some(name) if !name.starts_with("_") => Some(name),
        _ => None,
    }
}

/// Appends the name, if there is one.
fn add_name<'a>(name: Option<&'a str>, found: &mut Vec<&'a str>) -> Result<(), AllocError>
    ensures { IfOk result (λ _. map (λ x. x.now) found.new.items
        ≡ map (λ x. x.now) found.old.items
        ++ spec.if_some (option_map (λ x. x.now) name.entry)) }
{
    if let Some(name) = name {
        found.push(name)?;
    }
    Ok(())
}

/// Returns whether no token or a comma follows.
fn ends_item(behind: &[Token<'_>]) -> bool
    ensures { result ≡ spec.ends_item behind.now }
{
    matches!(behind, [] | [Token::Sign(Sign::Comma), ..])
}

/// Returns the name that a token binds in the list of a `from` tag: the last one of an item.
fn bound_here<'a>(token: Token<'a>, behind: &[Token<'_>]) -> Option<&'a str>
    ensures { option_map (λ x. x.now) result ≡ spec.bound_here token.entry behind.now }
{
    match token {
        Token::Name(name) if ends_item(behind) => Some(name),
        _ => None,
    }
}

/// Appends the names that the list of a `from` tag binds.
fn add_bound<'a>(tokens: &[Token<'a>], found: &mut Vec<&'a str>) -> Result<(), AllocError>
    ensures { IfOk result (λ _. map (λ x. x.now) found.new.items
        ≡ map (λ x. x.now) found.old.items ++ spec.bound tokens.now) }
{
    let mut rest = tokens;
    'items: while let [token, behind @ ..] = rest {
        add_name(bound_here(*token, behind), found)?;
        rest = behind;
    }
    Ok(())
}

/// Appends the names that a `from` tag binds. Another tag binds none.
fn add_imported<'a>(tokens: &[Token<'a>], found: &mut Vec<&'a str>) -> Result<(), AllocError>
    ensures { IfOk result (λ _. map (λ x. x.now) found.new.items
        ≡ map (λ x. x.now) found.old.items ++ spec.imported tokens.now) }
{
    match tokens {
        [
            Token::Name("from"),
            Token::Text(_),
            Token::Name("import"),
            items @ ..,
        ] => add_bound(items, found),
        _ => Ok(()),
    }
}

/// Appends the names of a kind that a block tag with these tokens defines.
fn add_names_of<'a>(
    kind: NameKind,
    tokens: &[Token<'a>],
    found: &mut Vec<&'a str>,
) -> Result<(), AllocError>
    ensures { IfOk result (λ _. map (λ x. x.now) found.new.items
        ≡ map (λ x. x.now) found.old.items ++ spec.names_of kind tokens.now) }
{
    match kind {
        NameKind::Callee => {
            add_name(name_after("macro", tokens), found)?;
            add_imported(tokens, found)
        }
        NameKind::PublicMacro => add_name(public_name(name_after("macro", tokens)), found),
        NameKind::Block => add_name(name_after("block", tokens), found),
    }
}

/// Appends the names of a kind that a segment defines.
fn add_names<'a>(
    kind: NameKind,
    segment: &Segment<'a>,
    found: &mut Vec<&'a str>,
) -> Result<(), AllocError>
    ensures { IfOk result (λ _. map (λ x. x.now) found.new.items
        ≡ map (λ x. x.now) found.old.items ++ spec.names_at kind segment.now) }
{
    let SegmentKind::Tag(tag) = &segment.part else {
        return Ok(());
    };
    match tag.kind {
        TagKind::Block => add_names_of(kind, &tag.tokens, found),
        TagKind::Variable => Ok(()),
    }
}

/// Returns the name of a kind that needs no definition, if there is one.
fn built_in(kind: NameKind) -> Option<&'static str>
    ensures { spec.if_some (option_map (λ x. x.now) result) ≡ spec.built_in kind }
{
    match kind {
        NameKind::Callee => Some("range"),
        NameKind::PublicMacro | NameKind::Block => None,
    }
}

/// Returns the names of a kind that the tags of a source define, in the order of the tags.
///
/// # Errors
///
/// `AllocError` if a growth is refused.
pub fn defined_names<'a>(
    alloc: Global,
    kind: NameKind,
    segments: &[Segment<'a>],
) -> Result<Vec<&'a str>, AllocError>
    ensures { IfOk result (λ names. map (λ x. x.now) names.items
        ≡ spec.defined_names kind segments.now) }
{
    let mut found = Vec::new(alloc);
    add_name(built_in(kind), &mut found)?;
    for segment in segments {
        add_names(kind, segment, &mut found)?;
    }
    Ok(found)
}

/// Returns the text that names the library, if the tokens are of an import tag that binds this
/// name.
fn library_of<'a>(name: &str, tokens: &[Token<'a>]) -> Option<&'a str>
    ensures { option_map (λ x. x.now) result ≡ spec.library_of name.now tokens.now }
{
    match tokens {
        [
            Token::Name("import"),
            Token::Text(library),
            Token::Name("as"),
            Token::Name(bound),
            ..
        ] if *bound == name => Some(*library),
        _ => None,
    }
}

/// Returns the text that names the library, if the segment is an import tag that binds this name.
fn library_at<'a>(name: &str, segment: &Segment<'a>) -> Option<&'a str>
    ensures { option_map (λ x. x.now) result ≡ spec.library_at name.now segment.now }
{
    let SegmentKind::Tag(tag) = &segment.part else {
        return None;
    };
    match tag.kind {
        TagKind::Block => library_of(name, &tag.tokens),
        TagKind::Variable => None,
    }
}

/// Returns the text, between its quotes, that names the library in the first import tag that binds
/// this name.
pub fn library_named<'a>(name: &str, segments: &[Segment<'a>]) -> Option<&'a str>
    ensures { option_map (λ x. x.now) result ≡ spec.library_named name.now segments.now }
{
    for segment in segments {
        if let Some(library) = library_at(name, segment) {
            return Some(library);
        }
    }
    None
}

/// Returns the text that names the layout, if the tokens are of an `extends` tag.
fn layout_of<'a>(tokens: &[Token<'a>]) -> Option<&'a str>
    ensures { option_map (λ x. x.now) result ≡ spec.layout_of tokens.now }
{
    match tokens {
        [Token::Name("extends"), Token::Text(layout), ..] => Some(*layout),
        _ => None,
    }
}

/// Returns the text that names the layout, if the segment is an `extends` tag.
fn layout_at<'a>(segment: &Segment<'a>) -> Option<&'a str>
    ensures { option_map (λ x. x.now) result ≡ spec.layout_at segment.now }
{
    let SegmentKind::Tag(tag) = &segment.part else {
        return None;
    };
    match tag.kind {
        TagKind::Block => layout_of(&tag.tokens),
        TagKind::Variable => None,
    }
}

/// Returns the text, between its quotes, that names the template that the source extends.
pub fn layout_named<'a>(segments: &[Segment<'a>]) -> Option<&'a str>
    ensures { option_map (λ x. x.now) result ≡ spec.layout_named segments.now }
{
    for segment in segments {
        if let Some(layout) = layout_at(segment) {
            return Some(layout);
        }
    }
    None
}
