//! Parses rows: their templates, their context and their options.

ghost use Rattle.std.specs.Prelude.{bytes_eq, option_map};
ghost use Rattle.std.specs.List.{find};

use jt_inherit::Library;
use jt_scan::Options;
use std::alloc::{AllocError, Global};

/// A library over a list of names and sources.
#[derive(Drop)]
pub(crate) struct MemoryLibrary<'a> {
    pub(crate) templates: Vec<(&'a str, &'a str)>,
}

impl Library for MemoryLibrary<'_> {
    ghost sources = { λ s name. option_map (λ p. p.1.now)
        (find (λ p. bytes_eq p.0.now name) s.templates.items) };

    fn source(&self, name: &str) -> Option<&str> {
        match self.templates.iter().find(|pair| pair.0 == name) {
            Some(pair) => Some(pair.1),
            None => None,
        }
    }
}

/// Returns the templates of a row, the entry's under the name `t`.
pub(crate) fn templates_of(alloc: Global, row: &str) -> Result<MemoryLibrary<'_>, AllocError> {
    let (front, entry) = row.rsplit_once('¦').unwrap_or(("", row));
    let mut templates = vec![in alloc; ("t", entry)]?;
    for part in front.split('¦') {
        match part.split_once(": ") {
            Some(template) if !part.starts_with('{') => templates.push(template)?,
            _ => {}
        }
    }
    Ok(MemoryLibrary { templates })
}

/// Returns the context of a row.
pub(crate) fn context_of(row: &str) -> &str {
    let (front, _) = row.rsplit_once('¦').unwrap_or(("", row));
    for part in front.split('¦') {
        if part.starts_with('{') {
            return part;
        }
    }
    "{}"
}

/// Returns the options of a row.
pub(crate) fn options_of(row: &str) -> Options {
    let (front, _) = row.rsplit_once('¦').unwrap_or(("", row));
    let mut options = Options::new();
    for part in front.split('¦') {
        if part.starts_with("--") {
            options = Options {
                trim_blocks: part.contains("--trim-blocks"),
                lstrip_blocks: part.contains("--lstrip-blocks"),
                keep_trailing_newline: part.contains("--keep-trailing-newline"),
                autoescape: !part.contains("--no-autoescape"),
                strict: part.contains("--strict"),
            };
        }
    }
    options
}

/// Returns the text of a row, with each `␤` replaced by the end of a line.
pub(crate) fn unfolded(alloc: Global, row: &str) -> Result<String, AllocError> {
    let text = row.replace(alloc, "␤", "\n")?;
    Ok(text)
}
