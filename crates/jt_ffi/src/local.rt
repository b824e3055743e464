//! Defines the values that one handle holds, on one thread.
use crate::error::FfiError;
use jt_host::{Context, MeteredRun};

/// A value that stays with one handle, on the thread that made it.
#[derive(Drop)]
pub enum Local {
    /// A context.
    Context(Context),
    /// The result of a run: its text, or the reason why it has none.
    Outcome(Result<Vec<u8>, FfiError>),
    /// A run in slices.
    Run(MeteredRun),
}
