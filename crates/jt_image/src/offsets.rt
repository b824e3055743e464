//! Locates the parts of an image in its bytes, and reads them there.
ghost use Rattle.std.specs.Prelude.{◌≡◌, ◌≤◌, ◌+◌, nat_lt, if◌then◌else◌, List, [], length, take};
ghost use Rattle.std.specs.Prelude.{drop, option_map, slice_get, IsUtf8, Some, None};
ghost use Rattle.std.specs.Option.{option_and_then};
ghost use Rattle.std.specs.Int.{w16, w32, w64, from_le_bytes, cast_signed};
ghost use Rattle.jt_image.specs.Code.{undefined};
ghost use Rattle.jt_image.specs.Places.{place_of};
ghost use Rattle.jt_image.specs.Readers.{constant_ref_view, name_ref_view, header_of, number_of};
ghost use Rattle.jt_image.specs.Readers.{instruction_at, place_ref_view, place_there};
ghost use Rattle.jt_image.specs.Readers.{ConstantPlace, UnitStart};
ghost use Rattle.jt_image.specs.View.{loc_view};
ghost use Rattle.jt_image.specs.Reading.{text_at, long_text_at, constant_of};
ghost use Rattle.jt_image.specs.InPlace.{IsRead, read_or, name_in, HasName, constant_in};
ghost use Rattle.jt_image.specs.InPlace.{HasConstant, section_in, HasUnit, template_in};
ghost use Rattle.jt_image.specs.InPlace.{HasTemplate, loc_in, locs_in, AreSourceLocs, code_in};
ghost use Rattle.jt_image.specs.InPlace.{AreThere, Spells};
ghost use Rattle.jt_image.specs.declared.version.Version.TheVariants as variant;

use crate::code::{ConstantRef, PlaceRef, UnitHeader};
use crate::fields::{u16_in, u32_in, u64_in};
use crate::instruction::Instruction;
use crate::parts::SourceLoc;
use crate::unit_code::UnitCode;
use crate::version::Version;
use std::marker::Model;

/// The number of bytes of an encoded place.
pub(crate) const LOC_BYTES: usize = 6;

/// A unit: its numbers, the offset of its instructions, and the number of instructions before it.
#[derive(Clone, Copy, Drop)]
pub(crate) struct UnitOffset {
    pub(crate) parameters: u8,
    pub(crate) kind: u8,
    pub(crate) locals: u16,
    pub(crate) len: u32,
    pub(crate) start: u32,
    pub(crate) first: u32,
}

/// The offsets of an image's parts in its bytes: one for each name, constant, unit and template,
/// and one for the table of encoded places.
#[derive(Drop)]
pub(crate) struct Offsets {
    pub(crate) version: Version,
    pub(crate) globals: u16,
    pub(crate) names: Vec<u32>,
    pub(crate) constants: Vec<u32>,
    pub(crate) units: Vec<UnitOffset>,
    pub(crate) instructions: u32,
    pub(crate) templates: Vec<u32>,
    pub(crate) places: u32,
}

impl Offsets {
    fn constant_at(&self, index: usize) -> Option<u32>
        ensures { result ≡ slice_get self.now.constants.items index }
    {
        self.constants.get(index).copied()
    }

    fn unit_at(&self, unit: usize) -> Option<UnitOffset>
        ensures { result ≡ slice_get self.now.units.items unit }
    {
        self.units.get(unit).copied()
    }
}

// Returns the first `len` bytes as a text; they are known to be UTF-8.
fn text_in(len: usize, bytes: &[u8]) -> &str
    requires { IsRead (text_at len bytes.now) }
    ensures { result.now ≡ take len bytes.now }
{
    let (front, _) = bytes.split_at(len);
    // SAFETY: the reader checked that the bytes are UTF-8.
    unsafe { str::from_utf8_unchecked(front) }
}

// Returns the text after its length of four bytes.
fn long_text_in(bytes: &[u8]) -> &str
    requires { IsRead (long_text_at bytes.now) }
    ensures { result.now ≡ read_or [] (long_text_at bytes.now) }
{
    let len = u32_in(bytes);
    let (_, rest) = bytes.split_at(4);
    text_in(len as usize, rest)
}

/// Returns the slot and the name at an offset of the bytes.
pub(crate) fn name_in(bytes: &[u8], at: u32) -> (u16, &str)
    requires { HasName bytes.now at }
    ensures { name_ref_view result ≡ name_in bytes.now at }
{
    let (_, front) = bytes.split_at(at as usize);
    let slot = u16_in(front);
    let (_, rest) = front.split_at(2);
    let len = u16_in(rest);
    let (_, rest) = rest.split_at(2);
    (slot, text_in(len as usize, rest))
}

#[tactic(auto, unfolding(crate::specs::Reading::constant_of))]
fn constant_with(tag: u8, rest: &[u8]) -> ConstantRef<'_>
    requires { IsRead (constant_of tag rest.now) }
    ensures { constant_ref_view result ≡ read_or undefined (constant_of tag rest.now) }
{
    match tag {
        0 => ConstantRef::Undefined,
        1 => ConstantRef::None,
        2 => ConstantRef::Bool(false),
        3 => ConstantRef::Bool(true),
        4 => ConstantRef::Int(u64_in(rest).cast_signed()),
        5 => ConstantRef::Text(long_text_in(rest)),
        6 => ConstantRef::Markup(long_text_in(rest)),
        _ => unreachable!(),
    }
}

pub(crate) fn constant_in(bytes: &[u8], at: u32) -> ConstantRef<'_>
    requires { HasConstant bytes.now at }
    ensures { constant_ref_view result ≡ constant_in bytes.now at }
{
    let (_, front) = bytes.split_at(at as usize);
    let (_, rest) = front.split_at(1);
    constant_with(front[0], rest)
}

// Returns the number at an offset, if the constant at this offset is a number.
#[inline(always)]
pub(crate) fn integer_in(bytes: &[u8], at: u32) -> Option<i64>
    requires { HasConstant bytes.now at }
    ensures { result ≡ number_of (constant_in bytes.now at) }
{
    let (_, front) = bytes.split_at(at as usize);
    let (_, rest) = front.split_at(1);
    integer_with(front[0], rest)
}

#[inline(always)]
#[tactic(auto, unfolding(crate::specs::Reading::constant_of))]
fn integer_with(tag: u8, rest: &[u8]) -> Option<i64>
    requires { IsRead (constant_of tag rest.now) }
    ensures { result ≡ number_of (read_or undefined (constant_of tag rest.now)) }
{
    match tag {
        4 => Some(u64_in(rest).cast_signed()),
        _ => None,
    }
}

// Returns the instructions of a unit.
#[inline(always)]
pub(crate) fn unit_code_in<'a>(bytes: &'a [u8], unit: &UnitOffset) -> UnitCode<'a>
    requires { HasUnit bytes.now unit.now }
    ensures { result ≡ (section_in bytes.now unit.now).code }
{
    let (_, code) = bytes.split_at(unit.start as usize);
    UnitCode {
        code,
        len: unit.len,
    }
}

/// Returns the template at an offset.
pub(crate) fn template_in(bytes: &[u8], at: u32) -> &str
    requires { HasTemplate bytes.now at }
    ensures { result.now ≡ template_in bytes.now at }
{
    let (_, front) = bytes.split_at(at as usize);
    let len = u16_in(front);
    let (_, rest) = front.split_at(2);
    text_in(len as usize, rest)
}

fn loc_of(front: &[u8]) -> SourceLoc
    requires { 6 ≤ length front.now }
    ensures { loc_view result ≡ loc_in front.now }
{
    SourceLoc {
        template: u16::from_le_bytes([front[0], front[1]]),
        line: u32::from_le_bytes([front[2], front[3], front[4], front[5]]),
    }
}

// Returns the encoded place of an instruction in version 2.
fn loc_there(bytes: &[u8], offsets: &Offsets, number: usize) -> Option<SourceLoc>
    requires there { AreThere bytes.now offsets.now }
    requires version { offsets.now.version ≡ variant.Two }
    ensures { option_map loc_view result ≡ slice_get (code_in bytes.now offsets.now).places number }
{
    if number >= offsets.instructions as usize {
        return None;
    }
    let (_, locs) = bytes.split_at(offsets.places as usize);
    let (_, front) = locs.split_at(LOC_BYTES * number);
    Some(loc_of(front))
}

pub(crate) fn constant_start(_bytes: &[u8], offsets: &Offsets, index: usize) -> Option<usize>
    requires { Spells _bytes.now offsets.now }
    ensures { ConstantPlace (code_in _bytes.now offsets.now) index result }
{
    offsets.constant_at(index).map(|at| at as usize)
}

pub(crate) fn unit_start(_bytes: &[u8], offsets: &Offsets, unit: usize) -> Option<usize>
    requires { Spells _bytes.now offsets.now }
    ensures { UnitStart (code_in _bytes.now offsets.now) unit result }
{
    offsets.unit_at(unit).map(|place| place.start as usize)
}

/// The bytes of an image with the offsets of its parts, borrowed from an image or a view. Contracts
/// see its code.
#[derive(Drop)]
pub struct Reader<'a> {
    pub(crate) bytes: &'a [u8],
    pub(crate) offsets: &'a Offsets,
}

impl<'a> Model for Reader<'a> {
    ghost use Rattle.jt_image.specs.Code.{Code};

    ghost Value = { Code };

    ghost use Rattle.jt_image.specs.InPlace.{code_in, Spells};

    ghost view = { λ r. code_in r.bytes.now r.offsets.now };

    ghost invariant = { λ r. Spells r.bytes.now r.offsets.now };
}

impl<'a> Reader<'a> {
    // Returns the encoded place of an instruction by the number of the instruction among the
    // instructions of all units.
    fn loc(&self, number: usize) -> Option<SourceLoc>
        ensures { option_map loc_view result ≡ slice_get self.now.places number }
    {
        match self.offsets.version {
            Version::One => None,
            Version::Two => loc_there(self.bytes, self.offsets, number),
        }
    }

    // Decodes an encoded place.
    fn place_of(&self, loc: SourceLoc) -> Option<PlaceRef<'a>>
        ensures { option_map place_ref_view result
            ≡ place_of self.now.templates (loc_view loc) }
    {
        if loc.template == 0 {
            return None;
        }
        let at = self.offsets.templates.get(usize::from(loc.template) - 1)?;
        Some(PlaceRef {
            template: template_in(self.bytes, *at),
            line: loc.line,
        })
    }

    /// Returns the place of an instruction of a unit.
    pub(crate) fn place(&self, unit: usize, point: usize) -> Option<PlaceRef<'a>>
        ensures { option_map place_ref_view result ≡ place_there self.now unit point }
    {
        let Some(place) = self.offsets.unit_at(unit) else {
            return None;
        };
        if point >= place.len as usize {
            return None;
        }
        match self.loc(place.first as usize + point) {
            Some(loc) => self.place_of(loc),
            None => None,
        }
    }
}
