//! Runs verified images under budgets.
//!
//! - runs: `run`, a whole run in one call.
//! - writing, sink: `run_to`, a run that writes its text into a sink.
//! - machine: `Machine`, a run that stops and goes on later.
//! - metered_run: `MeteredRun`, such a run of a shared image, which counts what it uses.
//! - step: one step, with a module for each kind of instruction.
//! - fast_path, fast_items, fast_output, numbers: cheap instructions, many of them in one call.
//! - peaks: the greatest size and nesting of the values that a run tests.
//! - constants: text constants, each built once in a run.
//! - outcome: how runs end.
//!
//! Read first: runs.rt. specs/Step.antt of jt_image defines a step.
#![tactic(auto)]

mod aggregates;
mod calls;
mod captures;
mod charging;
mod constants;
mod entries;
mod escaping;
mod fast_items;
mod fast_output;
mod fast_path;
mod fault_place;
mod items;
mod limits;
mod loops;
mod machine;
mod maps;
mod measure;
mod metered_run;
mod numbers;
mod outcome;
mod peaks;
mod required;
mod runs;
mod sink;
mod stack;
mod start;
mod state;
mod step;
mod unpacking;
mod writing;

pub use machine::{Machine, session_laws};
pub use metered_run::{MeteredRun, Used, metering_laws};
pub use outcome::{Ended, Outcome, Place, Progress};
pub use runs::{run, run_view};
pub use sink::{IoSink, Sink, SinkFailed, put_all};
pub use writing::{RunToError, run_to};
