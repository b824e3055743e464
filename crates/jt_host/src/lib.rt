//! Exports the whole interface for a host of templates: all that an embedder names.
//!
//! The steps from sources to an outcome, as the program `jt_embedding` takes them:
//!
//! 1. A [`Library`] returns the source of a name: two lines over a list or a map of yours.
//! 2. [`compile`] makes the [`Image`] of a template of it under [`Options`], or refuses with a
//!    [`CompileError`]. [`encode`] spells the image in bytes for another day or another machine,
//!    and [`decode`] reads it back. [`view`] reads bytes in place, without a copy. [`Code`] has the
//!    readers of either. Bytes from a stranger that spell no image are refused with an
//!    [`ImageError`].
//! 3. [`verify`] accepts an image exactly if its code is typed: each reached point has one shape
//!    that fits its instruction. Only its result, [`Verified`], runs: keep it, and run it as often
//!    as you like.
//! 4. A [`Context`] has the values of the names. [`context_from_json`] reads one, or `Context::new`
//!    and `insert` build one from [`Value`]s.
//! 5. [`run`] under a [`Budget`] ends with exactly one [`Outcome`]: a text, a [`Fault`] of the
//!    template with its [`Place`], or the number of the budget that was [`Spent`].
//!
//! `docs/embedding.md` shows each step. Other ways to run: [`run_to`] writes the text into a
//! [`Sink`] while it is made; a [`Machine`] stops after a number of instructions and resumes later;
//! a [`MeteredRun`] does so over a shared image, and counts what it has [`Used`]; a [`Host`] has up
//! to 64 sessions that take turns; and [`render`] does all the steps in one call.
//!
//! Each call that allocates takes the allocator first, and reports lack of memory in its own error.
#![tactic(auto)]

mod call_error;
mod calls;
mod clues;
mod explaining;
mod explaining_runs;
mod explanation;
mod marks;
mod meant;
mod metered_outcome;
mod needs;
mod notes;
mod reasons;
mod refusal_code;
mod rendering;
mod sentences;
mod source_lines;
mod subjects;
mod suggestions;
mod syntax_hints;
mod templates;
mod token_marks;

pub use call_error::CallError;
pub use calls::{
    EntryTemplate, context_of, counts_of, image_of, needs_of, render_text, run_image, run_verified,
    upgraded, verified_image, verified_template,
};
pub use explaining::{explained, explanation_of};
pub use explaining_runs::explained_run;
pub use explanation::{Explanation, TemplateRefusal};
pub use jt_budget::{Budget, Spent};
pub use jt_codegen::{
    ChainSubject, CompileError, Explained, Finding, Limit, Needs, Subject, TagPlace, compile,
    explain, find_needs,
};
pub use jt_contexts::{ContextError, context_from_json};
pub use jt_image::{Code, Image, ImageError, View, decode, encode, upgrade, view};
pub use jt_inherit::Library;
pub use jt_machine::{
    Ended, IoSink, Machine, MeteredRun, Outcome, Place, Progress, RunToError, Sink, SinkFailed,
    Used, metering_laws, run, run_to, run_view,
};
pub use jt_scan::Options;
pub use jt_sessions::{Host, HostError};
pub use jt_value::{
    Context, Fault, ListItems, NoMemory, NumberRange, Text, Value, ValueError, ValueList, ValueMap,
};
pub use jt_verify::{Flaw, Refusal, Verified, VerifiedView, verify, verify_view};
pub use metered_outcome::{MeteredOutcome, meter_image, meter_template};
pub use needs::listed_needs;
pub use reasons::Reason;
pub use refusal_code::RefusalCode;
pub use rendering::{RenderError, render};
pub use templates::Templates;
