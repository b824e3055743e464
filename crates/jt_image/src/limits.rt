//! Defines the limits of an image.

/// The greatest number of bytes of an image.
pub(crate) const MAX_BYTES: usize = 16_777_216;

/// The greatest number of globals, names, constants, units and templates, and of bytes in a name.
pub const MAX_COUNT: usize = 65_535;

/// The greatest number of locals of a unit.
pub(crate) const MAX_LOCALS: u16 = 4_096;

/// The greatest number of instructions in all units together.
pub const MAX_INSTRUCTIONS: u32 = 262_144;

/// The greatest number of stack entries that a unit of a typed image has at once.
pub const MAX_ENTRIES: usize = 1_024;

/// The greatest line of a place.
pub(crate) const MAX_LINE: u32 = 1_048_577;
