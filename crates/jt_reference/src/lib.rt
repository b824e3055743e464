//! Interprets images for tests. The machine is compared with this interpreter; no contract states
//! its results, except that a text fits the output budget.
//!
//! - machine: the activations, and most instructions.
//! - buffers: the output.
//! - loops: the instructions of loops.
//! - making: values that are made from several others.
//! - end: why a run stops.
//!
//! Read first: machine.rt.
#![tactic(auto)]

mod buffers;
mod end;
mod loops;
mod machine;
mod making;

pub use end::End;
pub use machine::reference_end;
