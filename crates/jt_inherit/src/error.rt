//! Defines the error of `chain`.

ghost use Rattle.std.specs.Prelude.{◌≡◌, option_map};
ghost use Rattle.jt_inherit.specs.Lines as lines;

use jt_parse::ParseError;
use jt_scan::ScanError;
use std::alloc::{AllocError, AllocFailed};
use thiserror::Error;

/// The reason why an entry has no chain.
#[derive(Debug, Drop, Error, PartialEq, Eq)]
pub enum ChainError {
    /// A name without a source in the library.
    #[error("C1 Missing")]
    Missing,
    /// A name that is not valid for a template.
    #[error("C2 BadName")]
    BadName,
    /// A template that extends itself, directly or through others.
    #[error("C3 ExtendsCycle")]
    ExtendsCycle,
    /// A chain of more than 64 templates, or an entry that reaches more than 1,024 chains, its own
    /// included.
    #[error("C4 ChainTooLong")]
    ChainTooLong,
    /// A template with two blocks of one name.
    #[error("C5 DoubleBlock")]
    DoubleBlock,
    /// A required block without a body.
    #[error("C6 RequiredNotGiven")]
    RequiredNotGiven,
    /// A body that calls `super()`, although each further body of its block, if any, is required.
    #[error("C7 NoSuper")]
    NoSuper,
    /// A chain that includes itself, directly or through others.
    #[error("C8 IncludeCycle")]
    IncludeCycle,
    /// A name that occurs twice among the macros of a chain or a library and the names that its
    /// imports bind.
    #[error("C9 MacroTwice")]
    MacroTwice,
    /// A refused growth.
    #[error("C10 NoMemory")]
    NoMemory,
    /// A macro that `from` names and the library does not offer.
    #[error("C11 NoMacro")]
    NoMacro,
    /// An imported template that holds something other than macros.
    #[error("C12 NotALibrary")]
    NotALibrary,
    /// The name of a template whose source cannot be cut into segments, with the error.
    #[error("{1} in {0} line {line}", line = scan_line(.1))]
    Scan(String, ScanError),
    /// The name of a template whose source spells no tree, with the error.
    #[error("{1} in {0} line {line}", line = parse_line(.1))]
    Parse(String, ParseError),
}

/// Returns the line that an error of the scanner names, or 1.
fn scan_line(refusal: &ScanError) -> u32
    ensures { result ≡ lines.scan_line refusal.now }
{
    match refusal {
        ScanError::UnclosedTag { line } => *line,
        ScanError::UnclosedText { line } => *line,
        ScanError::BadCharacter { line } => *line,
        ScanError::BadEscape { line } => *line,
        ScanError::NumberTooLarge { line } => *line,
        ScanError::UnclosedRaw { line } => *line,
        ScanError::SourceTooLong { line } => *line,
        ScanError::NoMemory => 1,
    }
}

/// Returns the line that an error of the parser names, or 1.
fn parse_line(refusal: &ParseError) -> u32
    ensures { result ≡ lines.parse_line refusal.now }
{
    match refusal {
        ParseError::Syntax { line } => *line,
        ParseError::TooDeep { line } => *line,
        ParseError::UnknownFilter { line } => *line,
        ParseError::UnknownTest { line } => *line,
        ParseError::NoMemory => 1,
    }
}

impl ChainError {
    /// Returns the name of the template that cannot be cut or spells no tree, and the line of the
    /// fault. Returns `None` for every other error.
    pub fn place(&self) -> Option<(&str, u32)>
        ensures { option_map (λ p. (p.0.now, p.1)) result ≡ lines.place self.now }
    {
        match self {
            ChainError::Scan(name, refusal) => Some((name.as_str(), scan_line(refusal))),
            ChainError::Parse(name, refusal) => Some((name.as_str(), parse_line(refusal))),
            _ => None,
        }
    }
}

impl From<AllocError> for ChainError {
    ghost use Rattle.std.specs.Prelude.{◌≡◌};
    ghost use Rattle.jt_inherit.specs.declared.error.ChainError.TheVariants.{NoMemory};

    ghost from_gives = { λ _ e. e ≡ NoMemory };

    fn from(_e: AllocError) -> ChainError {
        ChainError::NoMemory
    }
}

impl<T: Drop> From<AllocFailed<T>> for ChainError {
    ghost use Rattle.std.specs.Prelude.{◌≡◌};
    ghost use Rattle.jt_inherit.specs.declared.error.ChainError.TheVariants.{NoMemory};

    ghost from_gives = { λ _ e. e ≡ NoMemory };

    fn from(_e: AllocFailed<T>) -> ChainError {
        ChainError::NoMemory
    }
}
