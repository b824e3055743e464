//! Defines options, budgets and what runs use as other languages pass them.
ghost use Rattle.std.specs.Prelude.{◌≡◌};
ghost use Rattle.jt_ffi.specs.Plain.{budget_of, options_of, used_of};
ghost use Rattle.jt_machine.specs.Metering.{nothing_used};

use jt_host::{Budget, Options, Used};

/// The options under which templates are read: 0 is off, any other number on.
#[repr(C)]
#[derive(Clone, Copy)]
pub struct FfiOptions {
    pub trim_blocks: u8,
    pub lstrip_blocks: u8,
    pub keep_trailing_newline: u8,
    pub autoescape: u8,
    pub strict: u8,
}

impl FfiOptions {
    /// Returns the options as the compiler takes them.
    pub(crate) fn options(self) -> Options
        ensures { result ≡ options_of self }
    {
        Options {
            trim_blocks: self.trim_blocks != 0,
            lstrip_blocks: self.lstrip_blocks != 0,
            keep_trailing_newline: self.keep_trailing_newline != 0,
            autoescape: self.autoescape != 0,
            strict: self.strict != 0,
        }
    }
}

/// The resources that a run may use.
#[repr(C)]
#[derive(Clone, Copy)]
pub struct FfiBudget {
    /// The total cost of the instructions.
    pub fuel: u64,
    /// The number of bytes that may be written to output buffers, captures included.
    pub output: u64,
    /// The number of calls that may be open at one time.
    pub depth: u32,
    /// The greatest size of a value.
    pub size: u32,
    /// The greatest nesting of a value.
    pub nesting: u8,
}

impl FfiBudget {
    /// Returns the budget as the machine takes it.
    pub(crate) fn budget(self) -> Budget
        ensures { result ≡ budget_of self }
    {
        Budget {
            fuel: self.fuel,
            depth: self.depth,
            output: self.output,
            size: self.size,
            nesting: self.nesting,
        }
    }
}

/// The resources that a run in slices has used.
#[repr(C)]
#[derive(Clone, Copy)]
pub struct FfiUsed {
    /// The sum of the costs of the executed instructions.
    pub fuel: u64,
    /// The number of bytes that were written to output buffers, captures included.
    pub output: u64,
    /// The greatest number of calls that were open at one time.
    pub depth: u32,
    /// The greatest size of a value that was tested against its limit.
    pub size: u32,
    /// The greatest nesting of a value that was tested against its limit.
    pub nesting: u8,
}

impl FfiUsed {
    /// Returns the use of a run as other languages take it.
    pub(crate) fn of(used: Used) -> FfiUsed
        ensures { result ≡ used_of used }
    {
        FfiUsed {
            fuel: used.fuel,
            output: used.output,
            depth: used.depth,
            size: used.size,
            nesting: used.nesting,
        }
    }

    /// Returns the use of no run.
    pub(crate) fn nothing() -> FfiUsed
        ensures { result ≡ used_of nothing_used }
    {
        FfiUsed {
            fuel: 0,
            output: 0,
            depth: 0,
            size: 0,
            nesting: 0,
        }
    }
}
