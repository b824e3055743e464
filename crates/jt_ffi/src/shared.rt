//! Defines the values that handles on several threads may hold.
use jt_host::{Templates, Verified};
use std::sync::Arc;

/// A value that several handles may hold, each on a thread of its own.
#[derive(Drop)]
pub enum Shared {
    /// An accepted image.
    Image(Arc<Verified>),
    /// Sources of templates by their names.
    Library(Arc<Templates>),
}
