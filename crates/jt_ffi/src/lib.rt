//! Exports `jt` to hosts in other languages: calls over numbers and bytes in a static library.
//! `bindings/c/jt.h` declares them.
//!
//! Six calls over bytes keep nothing, so calls of several threads do not affect each other. A
//! text, an image or the reason of a refusal goes into the caller's buffer. If it is longer than
//! the buffer, nothing is written there, and the answer states its length. The other calls keep
//! libraries, images, contexts, outcomes and runs in handles, whose memory is the caller's.
//!
//! A call reads its input (templates, repr), makes a call of jt_host (calls, explaining, needs,
//! held, slices, batches, error), and reports the result (answer). A handle (shared_handle,
//! local_handle) holds the pointer (parts) of a boxed value (shared, local).
//!
//! Read first: exports.rt, the calls over bytes, handle_exports.rt, the calls over handles, and
//! run_exports.rt, runs in slices. specs/Calls.antt, specs/Handles.antt, specs/Needs.antt,
//! specs/Slices.antt and specs/Batches.antt state their results, and specs/Answers.antt their
//! answers.
#![tactic(auto)]

mod answer;
mod batches;
mod calls;
mod error;
mod explaining;
mod exports;
mod handle_exports;
mod held;
mod local;
mod local_handle;
mod needs;
mod parts;
mod repr;
mod run_exports;
mod shared;
mod shared_handle;
mod slices;
mod templates;

pub use answer::Answer;
pub use error::FfiError;
pub use exports::{jt_check, jt_compile, jt_explain, jt_render, jt_run, jt_version};
pub use handle_exports::{
    jt_context_free, jt_context_load, jt_image_free, jt_image_load, jt_image_run,
    jt_image_run_each, jt_image_save, jt_image_share, jt_library_compile, jt_library_explain,
    jt_library_free, jt_library_load, jt_library_needs, jt_library_share, jt_outcome_free,
    jt_outcome_read,
};
pub use local::Local;
pub use local_handle::LocalHandle;
pub use repr::{FfiBudget, FfiOptions, FfiUsed};
pub use run_exports::{jt_run_advance, jt_run_free, jt_run_outcome, jt_run_start, jt_run_used};
pub use shared::Shared;
pub use shared_handle::SharedHandle;
pub use templates::Lengths;
