//! Defines images, which own the bytes that spell their code.

use crate::code::Code;
use crate::offsets::{Offsets, Reader};
use std::marker::Model;

/// A constant with its own text.
#[derive(Drop)]
pub enum Constant {
    Undefined,
    None,
    Bool(bool),
    Int(i64),
    Text(String),
    Markup(String),
}

/// An image: the bytes that spell its code. Texts and instructions are read from them on demand.
/// Contracts see its code.
#[derive(Drop)]
pub struct Image {
    pub(crate) bytes: Vec<u8>,
    pub(crate) offsets: Offsets,
}

impl Model for Image {
    ghost use Rattle.jt_image.specs.Code.{Code};

    ghost Value = { Code };

    ghost use Rattle.jt_image.specs.InPlace.{Spells};
    ghost use Rattle.jt_image.specs.Held.{image_code};

    ghost view = { image_code };

    ghost invariant = { λ i. Spells i.bytes.items i.offsets };
}

impl Code for Image {
    ghost code = { λ i. i };

    #[inline(always)]
    fn reader(&self) -> Reader<'_> {
        Reader {
            bytes: &self.bytes,
            offsets: &self.offsets,
        }
    }
}
