//! Defines the instructions of a unit.

/// An instruction, with the fields that it uses.
#[derive(Clone, Copy, Debug, PartialEq, Eq)]
pub enum Instruction {
    /// Pushes a constant.
    Const { constant: u32 },
    /// Pushes a local.
    Load { local: u32 },
    /// Pops a value into a local.
    Store { local: u32 },
    /// Pushes a global.
    GLoad { global: u32 },
    /// Pops a value into a global.
    GStore { global: u32 },
    /// Pops a value and discards it.
    Drop,
    /// Duplicates the top value.
    Dup,
    /// Pops a value and appends its printed text to the innermost buffer, escaped if `flag` is 1
    /// and the value is not markup.
    Emit { flag: u8 },
    /// Appends a text constant to the innermost buffer.
    Data { constant: u32 },
    /// Jumps to `target`.
    Jump { target: u32 },
    /// Pops a value and jumps to `target` if it is false.
    JumpIfFalse { target: u32 },
    /// Pops a value and jumps to `target` if it is true.
    JumpIfTrue { target: u32 },
    /// Pops the operands of an operator and pushes its result.
    Op { operator: u8 },
    /// Pops `values` values, the input of the filter deepest, and pushes the result. `flag` is 1 if
    /// escaping is on.
    Filter { filter: u8, values: u16, flag: u32 },
    /// Pops `values` values, the tested one deepest, and pushes whether the test holds.
    Test { test: u8, values: u16 },
    /// Pops `items` values and pushes the list of them; the deepest one comes first.
    MakeList { items: u32 },
    /// Pops `entries` pairs, each a key below its value, and pushes the map of them; the deepest
    /// pair comes first.
    MakeMap { entries: u32 },
    /// Pops a value and starts a loop over its items.
    LoopStart,
    /// Takes the next item of the loop on top, or jumps to `target` if no item is left.
    LoopNext { target: u32 },
    /// Pushes a field of the loop that lies below `above` entries.
    LoopGet { field: u8, above: u32 },
    /// Pops a value and, if it is true, keeps the current item of the loop that then lies below
    /// `above` entries.
    LoopKeep { above: u32 },
    /// Restarts the loop on top over the items that it kept.
    LoopRewind,
    /// Ends the loop on top and pushes whether it took no item.
    LoopEnd,
    /// Opens a buffer and pushes a capture.
    CaptureBegin,
    /// Pops a capture, closes the innermost buffer and pushes its text, as markup if `flag` is 1.
    CaptureEnd { flag: u8 },
    /// Pops a value and pushes its items, the last one on top. Faults unless it has `values` items.
    Unpack { values: u32 },
    /// Pops the arguments of a unit and calls it.
    Call { unit: u32 },
    /// Returns from the unit.
    Return,
}
