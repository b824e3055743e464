//! Lists images as text, for persons.
//!
//! A listing has a line for the version, for each name and for each constant. Each unit has a line
//! with its four numbers, and a line for each instruction: its point, its name and its operands,
//! with what they stand for in parentheses. At its end is the shape that the verifier finds there.
//! The label of a point stands before it if a jump may lead there, and the place of an instruction
//! stands before it if it changes. A mark stands behind the point that the verifier refuses:
//!
//! ```text
//! version 2
//! globals 1
//!   0     "n"
//! constants 1
//!   0     "one\n"
//! unit 0: parameters 0, kind 0 (emits), locals 0, instructions 4
//!   in "t" line 1
//!   0     GLoad 0 ("n")   [ ]
//!   1     JumpIfFalse L3  [ V ]
//!   in "t" line 2
//!   2     Data 0 ("one\n")        [ ]
//! L3:
//!   3     Return  [ ]
//! ```
//!
//! - show: the listing of a code, and of the code that bytes spell.
//! - tables, units: the parts of a listing.
//! - places, targets: where a place or a label has a line.
//! - shapes, marks: what the verifier finds.
//! - slots: the names of globals by their slots.
//! - instructions, words, quoting: the parts of a line.
//!
//! Read first: specs/Listing.antt.
#![tactic(auto)]

mod instructions;
mod marks;
mod places;
mod quoting;
mod shapes;
mod show;
mod slots;
mod tables;
mod targets;
mod units;
mod words;

pub use show::{listing, listing_of};
