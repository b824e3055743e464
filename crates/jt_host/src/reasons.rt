//! Prints the errors of calls. A refusal prints as its code, its name and its place.

ghost use Rattle.std.specs.Prelude.{◌≡◌, Some};
ghost use Rattle.std.specs.Fmt.{DisplaysOnOk};
ghost use Rattle.jt_host.specs.Reasons.{chain_name, chain_text, code_text, compile_text};
ghost use Rattle.jt_host.specs.Reasons.{context_text};
ghost use Rattle.jt_host.specs.Reasons.{error_text, flaw_name, image_text, parse_line};
ghost use Rattle.jt_host.specs.Reasons.{parse_name, reason_text, scan_line, scan_name};
ghost use Rattle.jt_host.specs.Reasons.{scope_text, spent_name};

use crate::call_error::CallError;
use jt_budget::Spent;
use jt_codegen::{ChainError, CompileError, ParseError, ScanError, ScopeError};
use jt_contexts::ContextError;
use jt_image::ImageError;
use jt_verify::{Flaw, Refusal};
use std::error::Error;
use std::fmt;

/// The text of a refusal in parts, so that it is printed without memory.
#[derive(Clone, Copy)]
pub enum Reason<'a> {
    /// The code and the name of a refusal.
    Name(&'static str),
    /// The name of a flaw, with its unit and its point.
    Point {
        name: &'static str,
        unit: usize,
        point: usize,
    },
    /// The name of a refusal, with its template and its line.
    Line {
        name: &'static str,
        template: &'a str,
        line: u32,
    },
}

impl<'a> Reason<'a> {
    /// Returns the text of a refusal of bytes that are no image.
    pub fn of_image(refusal: ImageError) -> Reason<'a>
        ensures { reason_text result ≡ image_text refusal }
    {
        Reason::Name(text_of_image(refusal))
    }

    /// Returns the text of a refusal of the verifier.
    pub fn of_code(refusal: Refusal) -> Reason<'a>
        ensures { reason_text result ≡ code_text refusal }
    {
        match refusal {
            Refusal::Flaw { flaw, unit, point } => Reason::Point {
                name: name_of_flaw(flaw),
                unit,
                point,
            },
            Refusal::NoMemory => Reason::Name("K10 NoMemory"),
        }
    }

    /// Returns the text of a refusal to compile.
    pub fn of_compile(refusal: &'a CompileError) -> Reason<'a>
        ensures { reason_text result ≡ compile_text refusal.now }
    {
        match refusal {
            CompileError::Chain(refusal) => Reason::of_chain(refusal),
            CompileError::Scope(refusal) => Reason::Name(text_of_scope(*refusal)),
            CompileError::CodeTooLong => Reason::Name("G1 CodeTooLong"),
            CompileError::NoMemory => Reason::Name("G2 NoMemory"),
            CompileError::StackTooDeep => Reason::Name("G3 StackTooDeep"),
        }
    }

    /// Returns the text of a refusal of a chain.
    fn of_chain(refusal: &'a ChainError) -> Reason<'a>
        ensures { reason_text result ≡ chain_text refusal.now }
    {
        match refusal {
            ChainError::Scan(template, refusal) => Reason::Line {
                name: name_of_scan(*refusal),
                template: template.as_str(),
                line: line_of_scan(*refusal),
            },
            ChainError::Parse(template, refusal) => Reason::Line {
                name: name_of_parse(*refusal),
                template: template.as_str(),
                line: line_of_parse(*refusal),
            },
            other => Reason::Name(name_of_chain(other)),
        }
    }

    /// Returns the text of a refusal of a context.
    pub fn of_context(refusal: ContextError) -> Reason<'a>
        ensures { reason_text result ≡ context_text refusal }
    {
        Reason::Name(text_of_context(refusal))
    }
}

impl Error for CallError {}

impl fmt::Display for CallError {
    ghost output = { λ e. Some (error_text e) };

    fn fmt<W: fmt::Write>(&self, f: &mut fmt::Formatter<W>) -> fmt::Result {
        match self {
            CallError::Image(refusal) => write_reason(Reason::of_image(*refusal), f),
            CallError::Code(refusal) => write_reason(Reason::of_code(*refusal), f),
            CallError::Template(refusal) => write_reason(Reason::of_compile(refusal), f),
            CallError::Context(refusal) => write_reason(Reason::of_context(*refusal), f),
            CallError::Fault(fault, _) => write!(f, "fault {fault}"),
            CallError::Spent(spent) => write!(f, "spent {}", name_of_spent(*spent)),
            CallError::NoMemory => f.write_str("no memory"),
        }
    }
}

/// Writes the text of a refusal.
fn write_reason<W: fmt::Write>(reason: Reason<'_>, f: &mut fmt::Formatter<W>) -> fmt::Result
    ensures { DisplaysOnOk W.write_str_gives f.old result (Some (reason_text reason.entry)) f.new }
{
    match reason {
        Reason::Name(name) => f.write_str(name),
        Reason::Point { name, unit, point } => write!(f, "{name} unit {unit} point {point}"),
        Reason::Line {
            name,
            template,
            line,
        } => write!(f, "{name} in {template} line {line}"),
    }
}

/// Returns the code and the name of a refusal of a chain.
pub(crate) fn name_of_chain(refusal: &ChainError) -> &'static str
    ensures { result.now ≡ chain_name refusal.now }
{
    match refusal {
        ChainError::Missing => "C1 Missing",
        ChainError::BadName => "C2 BadName",
        ChainError::ExtendsCycle => "C3 ExtendsCycle",
        ChainError::ChainTooLong => "C4 ChainTooLong",
        ChainError::DoubleBlock => "C5 DoubleBlock",
        ChainError::RequiredNotGiven => "C6 RequiredNotGiven",
        ChainError::NoSuper => "C7 NoSuper",
        ChainError::IncludeCycle => "C8 IncludeCycle",
        ChainError::MacroTwice => "C9 MacroTwice",
        ChainError::NoMemory => "C10 NoMemory",
        ChainError::NoMacro => "C11 NoMacro",
        ChainError::NotALibrary => "C12 NotALibrary",
        ChainError::Scan(_, refusal) => name_of_scan(*refusal),
        ChainError::Parse(_, refusal) => name_of_parse(*refusal),
    }
}

/// Returns the text of a refusal of bytes that are no image.
fn text_of_image(refusal: ImageError) -> &'static str
    ensures { result.now ≡ image_text refusal }
{
    match refusal {
        ImageError::BadMagic => "I1 BadMagic",
        ImageError::BadVersion => "I2 BadVersion",
        ImageError::Truncated => "I3 Truncated",
        ImageError::Trailing => "I4 Trailing",
        ImageError::BadText => "I5 BadText",
        ImageError::BadOpcode => "I6 BadOpcode",
        ImageError::BadTable => "I7 BadTable",
        ImageError::LimitPassed => "I8 LimitPassed",
        ImageError::NoMemory => "I9 NoMemory",
    }
}

/// Returns the code and the name of a flaw.
fn name_of_flaw(flaw: Flaw) -> &'static str
    ensures { result.now ≡ flaw_name flaw }
{
    match flaw {
        Flaw::MissingOperand => "K1 MissingOperand",
        Flaw::WrongKind => "K2 WrongKind",
        Flaw::DepthDiffers => "K3 DepthDiffers",
        Flaw::KindDiffers => "K4 KindDiffers",
        Flaw::JumpOut => "K5 JumpOut",
        Flaw::BadIndex => "K6 BadIndex",
        Flaw::BadReturn => "K7 BadReturn",
        Flaw::FallsOff => "K8 FallsOff",
        Flaw::TooDeep => "K9 TooDeep",
    }
}

/// Returns the text of a refusal of a context.
fn text_of_context(refusal: ContextError) -> &'static str
    ensures { result.now ≡ context_text refusal }
{
    match refusal {
        ContextError::NotJson => "X1 NotJson",
        ContextError::NotObject => "X2 NotObject",
        ContextError::NotWhole => "X3 NotWhole",
        ContextError::OutOfRange => "X4 OutOfRange",
        ContextError::NoMemory => "X5 NoMemory",
    }
}

/// Returns the text of a broken rule of names and calls.
pub(crate) fn text_of_scope(refusal: ScopeError) -> &'static str
    ensures { result.now ≡ scope_text refusal }
{
    match refusal {
        ScopeError::LoopOutside => "V1 LoopOutside",
        ScopeError::MacroAsValue => "V2 MacroAsValue",
        ScopeError::NotCallable => "V3 NotCallable",
        ScopeError::BadArguments => "V4 BadArguments",
        ScopeError::TooManySlots => "V5 TooManySlots",
        ScopeError::NoMemory => "V6 NoMemory",
    }
}

/// Returns the code and the name of an error of the scanner.
fn name_of_scan(refusal: ScanError) -> &'static str
    ensures { result.now ≡ scan_name refusal }
{
    match refusal {
        ScanError::UnclosedTag { .. } => "S1 UnclosedTag",
        ScanError::UnclosedText { .. } => "S2 UnclosedText",
        ScanError::BadCharacter { .. } => "S3 BadCharacter",
        ScanError::BadEscape { .. } => "S4 BadEscape",
        ScanError::NumberTooLarge { .. } => "S5 NumberTooLarge",
        ScanError::UnclosedRaw { .. } => "S6 UnclosedRaw",
        ScanError::SourceTooLong { .. } => "S7 SourceTooLong",
        ScanError::NoMemory => "S8 NoMemory",
    }
}

/// Returns the line that an error of the scanner names, or 1.
fn line_of_scan(refusal: ScanError) -> u32
    ensures { result ≡ scan_line refusal }
{
    match refusal {
        ScanError::UnclosedTag { line } => line,
        ScanError::UnclosedText { line } => line,
        ScanError::BadCharacter { line } => line,
        ScanError::BadEscape { line } => line,
        ScanError::NumberTooLarge { line } => line,
        ScanError::UnclosedRaw { line } => line,
        ScanError::SourceTooLong { line } => line,
        ScanError::NoMemory => 1,
    }
}

/// Returns the code and the name of an error of the parser.
fn name_of_parse(refusal: ParseError) -> &'static str
    ensures { result.now ≡ parse_name refusal }
{
    match refusal {
        ParseError::Syntax { .. } => "P1 Syntax",
        ParseError::TooDeep { .. } => "P2 TooDeep",
        ParseError::UnknownFilter { .. } => "P3 UnknownFilter",
        ParseError::UnknownTest { .. } => "P4 UnknownTest",
        ParseError::NoMemory => "P5 NoMemory",
    }
}

/// Returns the line that an error of the parser names, or 1.
fn line_of_parse(refusal: ParseError) -> u32
    ensures { result ≡ parse_line refusal }
{
    match refusal {
        ParseError::Syntax { line } => line,
        ParseError::TooDeep { line } => line,
        ParseError::UnknownFilter { line } => line,
        ParseError::UnknownTest { line } => line,
        ParseError::NoMemory => 1,
    }
}

/// Returns the name of a number of the budget.
fn name_of_spent(spent: Spent) -> &'static str
    ensures { result.now ≡ spent_name spent }
{
    match spent {
        Spent::Fuel => "Fuel",
        Spent::Depth => "Depth",
        Spent::Output => "Output",
        Spent::Size => "Size",
        Spent::Nesting => "Nesting",
    }
}
