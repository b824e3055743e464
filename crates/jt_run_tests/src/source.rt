//! Compiles a source for the tests.

ghost use Rattle.std.specs.Prelude.{Some};

use jt_codegen::compile;
use jt_inherit::Library;
use jt_scan::Options;
use jt_verify::{Verified, verify};
use std::alloc::Global;
use std::test::Fail;

/// A library with one source under every name.
#[derive(Drop)]
struct Only<'a> {
    source: &'a str,
}

impl Library for Only<'_> {
    ghost sources = { λ only _. Some only.source.now };

    fn source(&self, _name: &str) -> Option<&str> {
        Some(self.source)
    }
}

/// Returns the verified image of a source.
pub(crate) fn verified_of(alloc: Global, source: &str) -> Result<Verified, Fail> {
    let Ok(image) = compile(alloc, "t", &Only { source }, Options::new()) else {
        return Err(Fail::from("compile"));
    };
    verify(alloc, image).map_err(|_| Fail::from("verify"))
}
