//! Defines a finding: the error of a chain, the tag that breaks the rule, and what it is about.

ghost use Rattle.std.specs.Prelude.{◌≡◌, None};

use crate::error::ChainError;
use std::alloc::{AllocError, AllocFailed};

/// A tag: the name of its template, and its line, counted from 1.
#[derive(Debug, Drop, PartialEq, Eq)]
pub struct TagPlace {
    pub template: String,
    pub line: u32,
}

/// What a broken rule of chains is about, by the names in the templates.
#[derive(Debug, Drop, PartialEq, Eq)]
pub enum ChainSubject {
    /// A template, by the name that the tag has. Without a tag it is the entry.
    Template(String),
    /// A macro that a `from` tag names, and the library.
    Macro { library: String, name: String },
    /// A required block, by its name.
    Block(String),
    /// A block that a template has twice, with the place of the first one.
    BlockTwice { name: String, first: TagPlace },
    /// A block whose body calls `super()`, with the place of the block's tag.
    Super { block: String, opened: TagPlace },
    /// A ring of templates: the name that the tag has, and then the names on the path back to the
    /// chain or library of the tag, whose name comes last. The list is empty if that name is the
    /// tag's.
    Ring { name: String, rest: Vec<String> },
    /// A name that a chain defines twice, with the place of the first definition.
    NameTwice { name: String, first: TagPlace },
    /// The template that would be the 65th of a chain, by its name.
    Templates(String),
    /// The template whose chain would be the 1,025th that the entry reaches, by its name.
    Chains(String),
}

/// An error of `chain` with the place of the tag that breaks the rule and what the rule is broken
/// in, where they are known.
#[derive(Debug, Drop, PartialEq, Eq)]
pub struct ChainFinding {
    pub error: ChainError,
    pub place: Option<TagPlace>,
    pub subject: Option<ChainSubject>,
}

impl ChainFinding {
    /// Returns the finding of an error without a place.
    pub(crate) fn without_place(error: ChainError) -> Self
        ensures { result ≡ record { error = error; place = None; subject = None } }
    {
        ChainFinding {
            error,
            place: None,
            subject: None,
        }
    }
}

impl From<AllocError> for ChainFinding {
    ghost use Rattle.jt_inherit.specs.Findings.{IsNoMemory};

    ghost from_gives = { λ _ f. IsNoMemory f };

    fn from(_e: AllocError) -> ChainFinding {
        ChainFinding::without_place(ChainError::NoMemory)
    }
}

impl<T: Drop> From<AllocFailed<T>> for ChainFinding {
    ghost use Rattle.jt_inherit.specs.Findings.{IsNoMemory};

    ghost from_gives = { λ _ f. IsNoMemory f };

    fn from(_e: AllocFailed<T>) -> ChainFinding {
        ChainFinding::without_place(ChainError::NoMemory)
    }
}
