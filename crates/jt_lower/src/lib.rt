//! Defines the code of resolved programs, proves that its runs agree with their meaning, and emits
//! expressions.
//!
//! Instructions are appended and jumps are patched in `emitter`. Expressions are emitted in
//! `expressions`, with `instructions`. The number of entries that they need is in `heights`, and
//! the laws of compiled programs are in `laws`. Read first: specs/Lower.antt, the code of each
//! form.
#![tactic(auto)]

mod emitter;
mod expressions;
mod heights;
mod instructions;
mod laws;

pub use emitter::Emitter;
pub use expressions::{emit_expression, emit_filtered, emit_row};
pub use heights::{fits_expression, fits_filtered, fits_row};
pub use instructions::{call_of, data_of, flag, store_of, unpack_of};
pub use laws::low_laws;
