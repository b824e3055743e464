//! Defines the codes of refusals of templates.

ghost use Rattle.std.specs.Prelude.{◌≡◌, ◌++◌, ◌∷◌, codes};
ghost use Rattle.jt_host.specs.Explanations.{error_name, numeral, spelled};
ghost use Rattle.jt_host.specs.Reasons.{chain_name, parse_name, scan_name, scope_text};

use jt_codegen::{ChainError, CompileError, ParseError, ScanError, ScopeError};

/// The code of a refusal and its name. It prints as `V3 NotCallable`.
#[derive(Clone, Copy, Debug, PartialEq, Eq)]
pub struct RefusalCode {
    /// The letter of the kind of rule: `S`, `P`, `C`, `V` or `G`.
    pub letter: char,
    /// The number of the rule in its kind, counted from 1.
    pub number: u8,
    /// The name of the refusal.
    pub name: &'static str,
}

/// Returns the code with this letter, number and name.
fn code(letter: char, number: u8, name: &'static str) -> RefusalCode
    ensures { spelled result ≡ letter ∷ (numeral number ++ (codes " " ++ name.now)) }
{
    RefusalCode {
        letter,
        number,
        name,
    }
}

/// Returns the code of an error of the scanner.
fn code_of_scan(error: ScanError) -> RefusalCode
    ensures { spelled result ≡ scan_name error }
{
    match error {
        ScanError::UnclosedTag { .. } => code('S', 1, "UnclosedTag"),
        ScanError::UnclosedText { .. } => code('S', 2, "UnclosedText"),
        ScanError::BadCharacter { .. } => code('S', 3, "BadCharacter"),
        ScanError::BadEscape { .. } => code('S', 4, "BadEscape"),
        ScanError::NumberTooLarge { .. } => code('S', 5, "NumberTooLarge"),
        ScanError::UnclosedRaw { .. } => code('S', 6, "UnclosedRaw"),
        ScanError::SourceTooLong { .. } => code('S', 7, "SourceTooLong"),
        ScanError::NoMemory => code('S', 8, "NoMemory"),
    }
}

/// Returns the code of an error of the parser.
fn code_of_parse(error: ParseError) -> RefusalCode
    ensures { spelled result ≡ parse_name error }
{
    match error {
        ParseError::Syntax { .. } => code('P', 1, "Syntax"),
        ParseError::TooDeep { .. } => code('P', 2, "TooDeep"),
        ParseError::UnknownFilter { .. } => code('P', 3, "UnknownFilter"),
        ParseError::UnknownTest { .. } => code('P', 4, "UnknownTest"),
        ParseError::NoMemory => code('P', 5, "NoMemory"),
    }
}

/// Returns the code of an error of a chain.
fn code_of_chain(error: &ChainError) -> RefusalCode
    ensures { spelled result ≡ chain_name error.now }
{
    match error {
        ChainError::Missing => code('C', 1, "Missing"),
        ChainError::BadName => code('C', 2, "BadName"),
        ChainError::ExtendsCycle => code('C', 3, "ExtendsCycle"),
        ChainError::ChainTooLong => code('C', 4, "ChainTooLong"),
        ChainError::DoubleBlock => code('C', 5, "DoubleBlock"),
        ChainError::RequiredNotGiven => code('C', 6, "RequiredNotGiven"),
        ChainError::NoSuper => code('C', 7, "NoSuper"),
        ChainError::IncludeCycle => code('C', 8, "IncludeCycle"),
        ChainError::MacroTwice => code('C', 9, "MacroTwice"),
        ChainError::NoMemory => code('C', 10, "NoMemory"),
        ChainError::NoMacro => code('C', 11, "NoMacro"),
        ChainError::NotALibrary => code('C', 12, "NotALibrary"),
        ChainError::Scan(_, error) => code_of_scan(*error),
        ChainError::Parse(_, error) => code_of_parse(*error),
    }
}

/// Returns the code of a broken rule of names and calls.
fn code_of_scope(error: ScopeError) -> RefusalCode
    ensures { spelled result ≡ scope_text error }
{
    match error {
        ScopeError::LoopOutside => code('V', 1, "LoopOutside"),
        ScopeError::MacroAsValue => code('V', 2, "MacroAsValue"),
        ScopeError::NotCallable => code('V', 3, "NotCallable"),
        ScopeError::BadArguments => code('V', 4, "BadArguments"),
        ScopeError::TooManySlots => code('V', 5, "TooManySlots"),
        ScopeError::NoMemory => code('V', 6, "NoMemory"),
    }
}

/// Returns the code of a refusal to compile.
pub(crate) fn code_of(error: &CompileError) -> RefusalCode
    ensures { spelled result ≡ error_name error.now }
{
    match error {
        CompileError::Chain(error) => code_of_chain(error),
        CompileError::Scope(error) => code_of_scope(*error),
        CompileError::CodeTooLong => code('G', 1, "CodeTooLong"),
        CompileError::NoMemory => code('G', 2, "NoMemory"),
        CompileError::StackTooDeep => code('G', 3, "StackTooDeep"),
    }
}
