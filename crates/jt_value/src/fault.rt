//! Defines the faults of templates, and the errors of calls on values.
ghost use Rattle.std.specs.Prelude.{◌≡◌, Some, codes};
ghost use Rattle.jt_value.specs.FaultText.{fault_text, error_text};

use std::alloc::{AllocError, AllocFailed};
use std::error::Error;
use std::fmt;

/// A fault of a template. It prints as its code and its name, for example `F2 Undefined`.
#[derive(Clone, Copy, Debug, PartialEq, Eq)]
pub enum Fault {
    /// F1: an operand whose type the operation does not accept.
    BadType,
    /// F2: an undefined operand that the operation does not accept.
    Undefined,
    /// F3: a number outside the range of 64 bits.
    Overflow,
    /// F4: a division by 0.
    ZeroDivide,
    /// F5: a list or a map that would be printed.
    Unprintable,
    /// F6: a value that has no items.
    NotIterable,
    /// F7: a number of items that differs from the number of names.
    Unpack,
    /// F8: a range with the step 0.
    Range,
    /// F9: an argument that the operation does not accept.
    BadArgument,
}

impl Fault {
    /// Returns the code and the name, for example `F2 Undefined`.
    pub fn text(self) -> &'static str
        ensures { result.now ≡ fault_text self }
    {
        match self {
            Fault::BadType => "F1 BadType",
            Fault::Undefined => "F2 Undefined",
            Fault::Overflow => "F3 Overflow",
            Fault::ZeroDivide => "F4 ZeroDivide",
            Fault::Unprintable => "F5 Unprintable",
            Fault::NotIterable => "F6 NotIterable",
            Fault::Unpack => "F7 Unpack",
            Fault::Range => "F8 Range",
            Fault::BadArgument => "F9 BadArgument",
        }
    }
}

impl fmt::Display for Fault {
    ghost output = { λ f. Some (fault_text f) };

    fn fmt<W: fmt::Write>(&self, f: &mut fmt::Formatter<W>) -> fmt::Result {
        f.write_str(self.text())
    }
}

impl Error for Fault {}

/// The error of a growth that was refused.
#[derive(Clone, Copy, Debug, PartialEq, Eq)]
pub struct NoMemory;

impl fmt::Display for NoMemory {
    ghost output = { λ _. Some (codes "no memory") };

    fn fmt<W: fmt::Write>(&self, f: &mut fmt::Formatter<W>) -> fmt::Result {
        f.write_str("no memory")
    }
}

impl Error for NoMemory {}

impl From<AllocError> for NoMemory {
    fn from(_e: AllocError) -> NoMemory {
        NoMemory
    }
}

impl<T: Drop> From<AllocFailed<T>> for NoMemory {
    fn from(_e: AllocFailed<T>) -> NoMemory {
        NoMemory
    }
}

/// The error of a call on values: a fault of the template, or lack of memory.
#[derive(Clone, Copy, Debug, PartialEq, Eq)]
pub enum ValueError {
    /// A fault of the template.
    Fault(Fault),
    /// A growth that was refused.
    NoMemory,
}

impl fmt::Display for ValueError {
    ghost output = { λ e. Some (error_text e) };

    fn fmt<W: fmt::Write>(&self, f: &mut fmt::Formatter<W>) -> fmt::Result {
        match self {
            ValueError::Fault(fault) => f.write_str(fault.text()),
            ValueError::NoMemory => f.write_str("no memory"),
        }
    }
}

impl Error for ValueError {}

impl From<AllocError> for ValueError {
    ghost use Rattle.jt_value.specs.declared.fault.ValueError.TheVariants.{NoMemory};

    ghost from_gives = { λ _ e. e ≡ NoMemory };

    fn from(_e: AllocError) -> ValueError {
        ValueError::NoMemory
    }
}

impl From<Fault> for ValueError {
    ghost use Rattle.jt_value.specs.declared.fault.ValueError.TheVariants.{Fault};

    ghost from_gives = { λ fault e. e ≡ Fault fault };

    fn from(fault: Fault) -> ValueError {
        ValueError::Fault(fault)
    }
}

impl From<NoMemory> for ValueError {
    ghost use Rattle.jt_value.specs.declared.fault.ValueError.TheVariants.{NoMemory};

    ghost from_gives = { λ _ e. e ≡ NoMemory };

    fn from(_e: NoMemory) -> ValueError {
        ValueError::NoMemory
    }
}
