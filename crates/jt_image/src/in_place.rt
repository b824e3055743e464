//! Defines views, which borrow the bytes that spell their code.

use crate::code::Code;
use crate::offsets::{Offsets, Reader};
use std::marker::Model;

/// A view: a code in place, which borrows the bytes that spell it. Contracts see its code.
#[derive(Drop)]
pub struct View<'a> {
    pub(crate) bytes: &'a [u8],
    pub(crate) offsets: Offsets,
}

impl<'a> Model for View<'a> {
    ghost use Rattle.jt_image.specs.Code.{Code};

    ghost Value = { Code };

    ghost use Rattle.jt_image.specs.InPlace.{Spells};
    ghost use Rattle.jt_image.specs.Held.{view_code};

    ghost view = { view_code };

    ghost invariant = { λ v. Spells v.bytes.now v.offsets };
}

impl<'a> Code for View<'a> {
    ghost code = { λ v. v };

    #[inline(always)]
    fn reader(&self) -> Reader<'_> {
        Reader {
            bytes: self.bytes,
            offsets: &self.offsets,
        }
    }
}
