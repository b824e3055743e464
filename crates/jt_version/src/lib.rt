//! Defines the version of `jt`, which the program prints and the library for other languages
//! returns.
#![tactic(auto)]

/// The version, as `bindings/c/jt.h` and the packages of `bindings/` spell it.
pub const VERSION: &str = "0.1.0";
