//! Defines the errors of a host.

use thiserror::Error;

/// The reason why a host refuses. It prints as its code and its name.
#[derive(Clone, Copy, Debug, PartialEq, Eq, Error)]
pub enum HostError {
    /// An id that no open session has.
    #[error("H1 NoSession")]
    NoSession,
    /// A host with 64 open sessions.
    #[error("H2 Full")]
    Full,
    /// A growth that was refused, now or in an earlier turn of the session.
    #[error("H3 NoMemory")]
    NoMemory,
    /// A host that has assigned every id.
    #[error("H4 NoId")]
    NoId,
}
