//! States in a sentence the rule that a refusal of templates reports.

ghost use Rattle.std.specs.Prelude.{◌≡◌, IfOk, option_map, string_bytes};
ghost use Rattle.jt_host.specs.Sentences as spec;

use crate::subjects::{quoted, subject_name};
use jt_codegen::{
    ChainError, ChainSubject, CompileError, Finding, Limit, ParseError, ScanError, ScopeError,
    Subject,
};
use jt_ids::LoopField;
use std::alloc::{AllocError, Global};

/// Returns the rule of sources that an error of the scanner reports.
fn scan_rule(error: ScanError) -> &'static str
    ensures { result.now ≡ spec.scan_rule error }
{
    match error {
        ScanError::UnclosedTag { .. } => { "the source ends before this tag or comment is closed" }
        ScanError::UnclosedText { .. } => {
            "the source ends inside a text of this tag: the closing quote is missing"
        }
        ScanError::BadCharacter { .. } => {
            "a character in this tag begins no name, number, text or operator"
        }
        ScanError::BadEscape { .. } => {
            "a text in this tag has an unknown escape; a backslash is written as two"
        }
        ScanError::NumberTooLarge { .. } => {
            "a number in this tag is larger than 9223372036854775807"
        }
        ScanError::UnclosedRaw { .. } => { "no endraw tag follows this raw tag" }
        ScanError::SourceTooLong { .. } => { "the source has more than 1,048,576 bytes" }
        ScanError::NoMemory => "memory is not enough",
    }
}

/// Returns the rule of sources that an error of the parser reports.
fn parse_rule(error: ParseError) -> &'static str
    ensures { result.now ≡ spec.parse_rule error }
{
    match error {
        ParseError::Syntax { .. } => {
            "this tag is not valid or not allowed here, or its statement is never closed"
        }
        ParseError::TooDeep { .. } => {
            "statements and expressions are nested more than 100 levels deep here"
        }
        ParseError::UnknownFilter { .. } => { "no filter has this name" }
        ParseError::UnknownTest { .. } => { "no test has this name" }
        ParseError::NoMemory => "memory is not enough",
    }
}

/// Returns the rule of chains that an error reports.
fn chain_rule(error: &ChainError) -> &'static str
    ensures { result.now ≡ spec.chain_rule error.now }
{
    match error {
        ChainError::Missing => {
            "a template does not exist: the named one, or one that it extends, includes or imports"
        }
        ChainError::BadName => {
            "a template's name is empty or too long, or has a part or character that is not allowed"
        }
        ChainError::ExtendsCycle => { "a template extends itself, directly or through others" }
        ChainError::ChainTooLong => {
            "more than 64 templates extend one another, or includes reach more than 1,024 templates"
        }
        ChainError::DoubleBlock => { "a template has two blocks of one name" }
        ChainError::RequiredNotGiven => {
            "a block is required, and no template that extends its own gives it a body"
        }
        ChainError::NoSuper => {
            "super() is called in a block for which no extended template has a body"
        }
        ChainError::IncludeCycle => {
            "a template includes itself, directly, through others or through imported macros"
        }
        ChainError::MacroTwice => {
            "two macros or imports in a template or in those that it extends have one name"
        }
        ChainError::NoMacro => {
            "from names a macro that the library does not have, or one whose name begins with _"
        }
        ChainError::NotALibrary => {
            "an imported template has something other than macros, comments and whitespace"
        }
        ChainError::NoMemory => "memory is not enough",
        ChainError::Scan(_, error) => scan_rule(*error),
        ChainError::Parse(_, error) => parse_rule(*error),
    }
}

/// Returns the rule of names and calls that an error reports.
fn scope_rule(error: ScopeError) -> &'static str
    ensures { result.now ≡ spec.scope_rule error }
{
    match error {
        ScopeError::LoopOutside => {
            "loop needs a loop around it and one of its attributes, of which only cycle is called"
        }
        ScopeError::MacroAsValue => {
            "this is the name of a macro or an import, which is only called, never read or set"
        }
        ScopeError::NotCallable => {
            "no macro, block or function here has this name; self, super and range are only called"
        }
        ScopeError::BadArguments => {
            "the arguments do not fit what takes them, or a macro has two parameters of one name"
        }
        ScopeError::TooManySlots => {
            "over 255 parameters of a macro, 4,096 bindings of a template or 65,535 names in all"
        }
        ScopeError::NoMemory => "memory is not enough",
    }
}

/// Returns the limit of names that a template, or all together, would pass. Returns the rule of all
/// limits if the subject is another one.
fn limit_rule(subject: &Option<Subject>) -> &'static str
    ensures { result.now ≡ spec.limit_rule subject.now }
{
    match subject {
        Some(Subject::Bindings) => "this template binds more than 4,096 names",
        Some(Subject::Names) => "the templates read or bind more than 65,535 names in all",
        _ => scope_rule(ScopeError::TooManySlots),
    }
}

/// Returns the limit of images that would be passed.
fn image_rule(limit: Limit) -> &'static str
    ensures { result.now ≡ spec.image_rule limit }
{
    match limit {
        Limit::Constants => "the image would have more than 65,535 constants",
        Limit::Units => {
            "the image would have more than 65,535 units: one for each chain, block and macro"
        }
        Limit::Instructions => "the image would have more than 262,144 instructions",
        Limit::Templates => "the places of the image would name more than 65,535 templates",
        Limit::NameBytes => "a name in the image would have more than 65,535 bytes",
        Limit::Bytes => "the image would have more than 16,777,216 bytes",
        Limit::Globals => {
            "the image would have over 65,535 globals: a chain also has those of what it includes"
        }
        Limit::Parameters => {
            "a unit would have over 255 parameters: a scoped block gets all names of scopes"
        }
        Limit::Locals => {
            "a unit would have over 4,096 locals: names, and arguments that are kept aside"
        }
        Limit::Entries => {
            "more than 1,024 values would be needed at the same time, as by a list of 1,025 items"
        }
    }
}

/// Returns the limit of images that would be passed. Returns the rule of all limits if the subject
/// is another one.
fn code_rule(subject: &Option<Subject>) -> &'static str
    ensures { result.now ≡ spec.code_rule subject.now }
{
    match subject {
        Some(Subject::Limit(limit)) => image_rule(*limit),
        _ => "the image would pass one of its limits, as 262,144 instructions or 65,535 constants",
    }
}

/// Returns the rule that a refusal reports.
fn rule_of(error: &CompileError, subject: &Option<Subject>) -> &'static str
    ensures { result.now ≡ spec.rule error.now subject.now }
{
    match error {
        CompileError::Scope(ScopeError::TooManySlots) => limit_rule(subject),
        CompileError::Chain(error) => chain_rule(error),
        CompileError::Scope(error) => scope_rule(*error),
        CompileError::CodeTooLong => code_rule(subject),
        CompileError::NoMemory => "memory is not enough",
        CompileError::StackTooDeep => image_rule(Limit::Entries),
    }
}

/// Returns the words before the name of a field of `loop` that a template must not read.
fn field_lead(field: &str) -> &'static str
    ensures { result.now ≡ spec.field_lead field.now }
{
    match LoopField::by_name(field) {
        Some(_) => "outside a loop, loop has no attribute",
        None => "loop has no attribute",
    }
}

/// Returns the words before the name of what is not callable, if they are known.
fn not_callable_lead(subject: &Subject) -> Option<&'static str>
    ensures { option_map (λ x. x.now) result ≡ spec.not_callable_lead subject.now }
{
    match subject {
        Subject::Name(_) => Some("only a call may name"),
        Subject::CalledName(_) | Subject::CalledField { .. } => {
            Some("no macro, block or function here is called")
        }
        Subject::Macro(_) => Some("no macro may be called"),
        _ => None,
    }
}

/// Returns the words before the name of what does not take its arguments, if they are known.
fn bad_arguments_lead(subject: &Subject) -> Option<&'static str>
    ensures { option_map (λ x. x.now) result ≡ spec.bad_arguments_lead subject.now }
{
    match subject {
        Subject::CalledName(_) | Subject::CalledField { .. } => {
            Some("the arguments do not fit those of")
        }
        Subject::Filter(_) => Some("the arguments do not fit the filter"),
        Subject::Test(_) => Some("the arguments do not fit the test"),
        Subject::Macro(_) => Some("two parameters have one name in the macro"),
        _ => None,
    }
}

/// Returns the words before the name that a broken rule of names and calls is about, if they are
/// known.
fn scope_lead(error: ScopeError, subject: &Subject) -> Option<&'static str>
    ensures { option_map (λ x. x.now) result ≡ spec.scope_lead error subject.now }
{
    match error {
        ScopeError::LoopOutside => match subject {
            Subject::LoopField(field) => Some(field_lead(field)),
            _ => None,
        },
        ScopeError::MacroAsValue => match subject {
            Subject::Name(_) => Some("only a call may name the macro or import"),
            _ => None,
        },
        ScopeError::NotCallable => not_callable_lead(subject),
        ScopeError::BadArguments => bad_arguments_lead(subject),
        ScopeError::TooManySlots => match subject {
            Subject::Macro(_) => Some("more than 255 parameters are declared for the macro"),
            _ => None,
        },
        ScopeError::NoMemory => None,
    }
}

/// Returns the words before the name that an error of the parser is about, if they are known.
fn parse_lead(error: ParseError) -> Option<&'static str>
    ensures { option_map (λ x. x.now) result ≡ spec.parse_lead error }
{
    match error {
        ParseError::UnknownFilter { .. } => Some("no filter is called"),
        ParseError::UnknownTest { .. } => Some("no test is called"),
        _ => None,
    }
}

/// Returns the words before the name of the template that passes a limit of chains, if they are
/// known.
fn length_lead(subject: &Subject) -> Option<&'static str>
    ensures { option_map (λ x. x.now) result ≡ spec.length_lead subject.now }
{
    match subject {
        Subject::Chain(ChainSubject::Templates(_)) => {
            Some("more than 64 templates extend one another: the 65th is")
        }
        Subject::Chain(ChainSubject::Chains(_)) => {
            Some("includes reach more than 1,024 templates: one more is")
        }
        _ => None,
    }
}

/// Returns the words before the name that a broken rule of chains is about, if they are known.
fn chain_lead(error: &ChainError, subject: &Subject) -> Option<&'static str>
    ensures { option_map (λ x. x.now) result ≡ spec.chain_lead error.now subject.now }
{
    match error {
        ChainError::Missing => Some("no template is called"),
        ChainError::BadName => Some("no template may be called"),
        ChainError::ExtendsCycle => Some("a template extends itself through"),
        ChainError::ChainTooLong => length_lead(subject),
        ChainError::DoubleBlock => Some("a template has two blocks called"),
        ChainError::RequiredNotGiven => Some("no template gives a body to the required block"),
        ChainError::NoSuper => Some("super() has no next body in the block"),
        ChainError::IncludeCycle => Some("a template includes itself through"),
        ChainError::MacroTwice => Some("two macros or imports are called"),
        ChainError::NoMacro => Some("the library offers no macro called"),
        ChainError::NotALibrary => Some("more than macros, comments and whitespace is in"),
        ChainError::Parse(_, error) => parse_lead(*error),
        ChainError::Scan(..) | ChainError::NoMemory => None,
    }
}

/// Returns the words before the name that a refusal is about, if they are known.
fn lead_of(error: &CompileError, subject: &Option<Subject>) -> Option<&'static str>
    ensures { option_map (λ x. x.now) result ≡ spec.lead error.now subject.now }
{
    let Some(subject) = subject else {
        return None;
    };
    match error {
        CompileError::Chain(error) => chain_lead(error, subject),
        CompileError::Scope(error) => scope_lead(*error, subject),
        _ => None,
    }
}

/// Returns the words with the name after them, or the rule if either of them is missing.
fn with_name(
    alloc: Global,
    lead: Option<&str>,
    name: Option<String>,
    rule: &str,
) -> Result<String, AllocError>
    ensures { IfOk result (λ text. string_bytes text ≡ spec.with_name
        (option_map (λ x. x.now) lead.entry) (option_map string_bytes name) rule.now) }
{
    if let Some(lead) = lead {
        if let Some(name) = name {
            let name = quoted(alloc, &name)?;
            return format!(in alloc; "{lead}{name}");
        }
    }
    String::from_str(alloc, rule)
}

/// Returns the sentence of a finding: the rule, with the name that it is about if it has one.
pub(crate) fn sentence_of(alloc: Global, finding: &Finding) -> Result<String, AllocError>
    ensures { IfOk result (λ text. string_bytes text ≡ spec.sentence finding.now) }
{
    let lead = lead_of(&finding.error, &finding.subject);
    let name = subject_name(alloc, &finding.subject)?;
    let rule = rule_of(&finding.error, &finding.subject);
    with_name(alloc, lead, name, rule)
}
