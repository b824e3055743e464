//! Verifies codes: each reached point has one shape, and every instruction at such a point is in
//! order.
//!
//! - verified: `verify` and `verify_view`, whose results are the only codes that run.
//! - verifier: the worklist that follows each path through a unit.
//! - effect: the effect of one instruction on a shape.
//! - shape_comparison: the shape of a path, compared with the one that is known at its point.
//! - arena, nodes: the shapes of the verifier, each stored once and compared by its number.
//! - halt: why a path does not go on.
//! - shapes, shape_ref: what is found in a unit, for hosts that show it.
//! - host_shape: shapes as values and their `join`, for hosts; `verify` does not use them.
//! - refusal: the reasons for which a code is refused.
//!
//! Read first: specs/Typed.antt of jt_image, then verifier.rt.
#![tactic(auto)]

mod arena;
mod effect;
mod halt;
mod host_shape;
mod nodes;
mod refusal;
mod shape_comparison;
mod shape_ref;
mod shapes;
mod verified;
mod verifier;

pub use host_shape::{Shape, join};
pub use jt_image::{Flaw, Kind};
pub use refusal::{Refusal, flaw_name};
pub use shape_ref::ShapeRef;
pub use shapes::{UnitShapes, unit_shapes};
pub use verified::{Checked, Verified, VerifiedView, verify, verify_view};
