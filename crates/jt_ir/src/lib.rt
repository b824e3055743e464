//! Defines resolved templates: each name is a slot, and each macro, block and chain a routine.
//!
//! The types are in `program`. Read first: specs/Slots.antt, which defines their meaning. Results
//! and values are defined in jt_eval.
#![tactic(auto)]

mod program;

pub use program::{
    Filtered, NaryOp, Place, Program, Routine, Slot, SlotBranch, SlotExpr, SlotFilter, SlotStmt,
    Targets,
};
