//! Defines images: codes as bytes, and the runs of a code.
//!
//! An image (`image`) or a view of bytes (`in_place`) has a code (`code`). Bytes are read once,
//! from left to right (`reading`, `decoding`, `viewing`), and written (`spelling`, `encoding`,
//! `wire`). Parts are assembled into an image (`parts`, `layout`, `assembling`), and version 1 is
//! upgraded to version 2 (`upgrading`). Read first: specs/Effect.antt and specs/Step.antt, with one
//! case for each instruction, and specs/Run.antt, which defines a run. specs/Spelling.antt is the
//! format.
#![tactic(auto)]

mod assembling;
mod code;
mod decoding;
mod encoding;
mod error;
mod fields;
mod image;
mod in_place;
mod instruction;
mod kind;
mod laws;
mod layout;
mod limits;
mod offsets;
mod parts;
mod reading;
mod sections;
mod spelling;
mod tables;
mod trailer;
mod unit_code;
mod units;
mod upgrading;
mod version;
mod viewing;
mod wire;

pub use assembling::assemble;
pub use code::{Code, ConstantRef, PlaceRef, UnitHeader};
pub use decoding::decode;
pub use encoding::encode;
pub use error::ImageError;
pub use image::{Constant, Image};
pub use in_place::View;
pub use instruction::Instruction;
pub use jt_ids::LoopField;
pub use kind::{Flaw, Kind};
pub use laws::code_laws;
pub use limits::{MAX_COUNT, MAX_ENTRIES, MAX_INSTRUCTIONS};
pub use offsets::Reader;
pub use parts::{Parts, SourceLoc, Unit};
pub use unit_code::UnitCode;
pub use upgrading::upgrade;
pub use version::Version;
pub use viewing::view;
pub use wire::Instr;
