//! Runs verified images in sessions that take turns.
//!
//! A `Host` of up to 64 sessions (sessions), and why it refuses (error). Read first: sessions.rt,
//! with one fact per clause, over specs/Turns.antt.
#![tactic(auto)]

mod error;
mod sessions;

pub use error::HostError;
pub use sessions::Host;
