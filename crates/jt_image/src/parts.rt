//! Defines the parts from which an image is assembled.

use crate::image::Constant;
use crate::version::Version;
use crate::wire::Instr;

/// A unit: its numbers, and its instructions by their fields.
#[derive(Drop)]
pub struct Unit {
    /// The number of parameters. They are the first locals.
    pub parameters: u8,
    /// The kind: 0 if the unit emits, 1 if it returns a value.
    pub kind: u8,
    /// The number of locals, at most 4,096.
    pub locals: u16,
    /// The instructions. A point is an index into them.
    pub code: Vec<Instr>,
}

/// The encoded place of an instruction.
#[derive(Clone, Copy, Debug, PartialEq, Eq)]
pub struct SourceLoc {
    /// The number of the template, counted from 1; 0 if the instruction has no place.
    pub template: u16,
    /// The line of the tag, from 1 to 1,048,577; 0 if the instruction has no place.
    pub line: u32,
}

/// The parts of an image.
#[derive(Drop)]
pub struct Parts {
    /// The version. Version 1 has no templates and no places.
    pub version: Version,
    /// The number of globals.
    pub globals: u16,
    /// The globals that the context fills, each a slot and its name. No name is empty, the names
    /// strictly ascend by their bytes, and no slot has two names.
    pub names: Vec<(u16, String)>,
    /// The constants.
    pub constants: Vec<Constant>,
    /// The units. A run starts at the first one, which emits and has no parameters.
    pub units: Vec<Unit>,
    /// The names of templates. None is empty, and they strictly ascend by their bytes.
    pub templates: Vec<String>,
    /// The places of the instructions, one for each, in the order of the units.
    pub places: Vec<SourceLoc>,
}
