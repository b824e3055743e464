//! Finds what the explanation of a refusal can add for a person: the name that was probably meant,
//! what to write in place of Jinja's words that the language leaves out, and the form that a tag
//! has and the language does not.
//!
//! The modules:
//!
//! - `nearest_name`: the candidate with the fewest edits, with `edits`, which counts them;
//! - `known_names`: the names of all filters and tests, which are such candidates;
//! - `definitions`: the macros and blocks of a source, which are candidates too, and imports;
//! - `left_out`: the tables of Jinja's filters, tests, functions and fields of `loop`, and of the
//!   methods of Python's values, with `called_methods`, which finds these in a tag;
//! - `known_statements`: the first words of tags, and the one of a tag that begins no statement;
//! - `syntax`: the forms of a tag, with `statement_words`, `head_forms`, `places` and
//!   `place_forms`;
//! - `nesting`: the statement that is never closed, and the tag that closes none;
//! - `positions`: the tag that stands where its statement is not allowed;
//! - `fitting`: the arguments that a filter, a test, a function or a macro takes;
//! - `strays`: the character of a tag that begins no token, and the brace that stands alone.
//!
//! Nothing here decides whether a template compiles. Read first: specs/Forms.antt.
#![tactic(auto)]

mod called_methods;
mod definitions;
mod edits;
mod fitting;
mod head_forms;
mod known_names;
mod known_statements;
mod left_out;
mod nearest_name;
mod nesting;
mod place_forms;
mod places;
mod positions;
mod statement_words;
mod strays;
mod syntax;

pub use called_methods::called_method;
pub use definitions::{NameKind, defined_names, layout_named, library_named};
pub use fitting::{
    field_arguments, filter_arguments, function_arguments, macro_arguments, test_arguments,
};
pub use known_names::{filter_names, test_names};
pub use known_statements::{statement_names, unknown_statement};
pub use left_out::{
    left_out_character, left_out_filter, left_out_function, left_out_loop_field, left_out_method,
    left_out_test,
};
pub use nearest_name::nearest;
pub use nesting::{NestingHint, Statement, nesting_hint};
pub use positions::{PositionHint, position_hint};
pub use strays::{Stray, find_stray, is_open};
pub use syntax::{SyntaxHint, syntax_hint};
