//! Defines an explanation: the lines for a person, and the parts of a refusal for a host.

use crate::refusal_code::RefusalCode;
use jt_codegen::TagPlace;

/// The parts of a refusal of templates.
#[derive(Debug, Drop, PartialEq, Eq)]
pub struct TemplateRefusal {
    /// The code of the refusal, with its name.
    pub code: RefusalCode,
    /// The tag that breaks the rule, if it is known.
    pub place: Option<TagPlace>,
    /// The name that the refusal is about, as the template has it. `None` if it has no name.
    pub subject: Option<String>,
}

/// What is to say of an entry.
#[derive(Debug, Drop, PartialEq, Eq)]
pub struct Explanation {
    /// The lines for a person.
    pub text: String,
    /// The reason why the entry does not compile, or `None` if it compiles.
    pub refusal: Option<TemplateRefusal>,
}
