//! Writes parts as bytes.
ghost use Rattle.std.specs.Prelude.{◌≡◌, ◌<◌, ◌^◌, ◌++◌, ◌∷◌, [], List, ℕ, length, map};
ghost use Rattle.std.specs.Prelude.{string_bytes, IsUtf8, IfOk};
ghost use Rattle.std.specs.Int.{w16, w32, w64, to_le_bytes, cast_unsigned};
ghost use Rattle.std.specs.List.{flat_map, AllByRecursion};
ghost use Rattle.jt_image.specs.View.{name_view, constant_view, instruction_view, unit_view};
ghost use Rattle.jt_image.specs.View.{units_view, loc_view};
ghost use Rattle.jt_image.specs.Reading.{instruction_of};
ghost use Rattle.std.specs.Option.{IsSome};
ghost use Rattle.jt_image.specs.IsCode.{IsConstant, IsCode};
ghost use Rattle.jt_image.specs.Code as code;
ghost use Rattle.jt_image.specs.declared.wire.Instr as given;
ghost use Rattle.jt_image.specs.Parts.{AreKnown, IsHeld, Adds, trailer_bytes, code_seen};
ghost use Rattle.jt_image.specs.Spelling.{name_bytes, constant_bytes, header_bytes, wire_bytes};
ghost use Rattle.jt_image.specs.Spelling.{instruction_bytes, template_bytes, loc_bytes, spelling};

use crate::image::Constant;
use crate::parts::{Parts, SourceLoc, Unit};
use crate::version::Version;
use crate::wire::Instr;
use jt_value::NoMemory;
use std::alloc::Global;

/// A part of an image that has a spelling of its own. That of a unit is its header.
pub(crate) trait Spell {
    /// What contracts see of the part.
    ghost View: { Type 0 };

    ghost view: { Self → View };

    /// The spelling.
    ghost spell: { View → List ℕ };

    /// The lengths of texts fit their fields.
    ghost IsFit: { View → Type 0 };

    /// What the type of the part ensures.
    ghost IsHeld: { View → Type 0 };

    /// Appends the spelling to the bytes.
    fn put(&self, out: &mut Vec<u8>) -> Result<(), NoMemory>
        requires { IsFit (view self.now) }
        ensures { Adds out.old out.new result (spell (view self.now)) };
}

fn put_count(out: &mut Vec<u8>, count: usize) -> Result<(), NoMemory>
    requires { count < 2 ^ 16 }
    ensures { Adds out.old out.new result (to_le_bytes w16 count) }
{
    out.extend_from_slice(&(count as u16).to_le_bytes())?;
    Ok(())
}

/// Appends the spellings of the items.
fn put_all<T: Spell>(out: &mut Vec<u8>, items: &[T]) -> Result<(), NoMemory>
    requires { AllByRecursion T.IsFit (map T.view items.now) }
    ensures { Adds out.old out.new result (flat_map T.spell (map T.view items.now)) }
{
    'items: for item in items {
        item.put(out)?;
    }
    Ok(())
}

/// Appends the number of the items and their spellings.
fn put_table<T: Spell>(out: &mut Vec<u8>, items: &[T]) -> Result<(), NoMemory>
    requires count { length items.now < 2 ^ 16 }
    requires fit { AllByRecursion T.IsFit (map T.view items.now) }
    ensures { Adds out.old out.new result
        (to_le_bytes w16 (length (map T.view items.now))
        ++ flat_map T.spell (map T.view items.now)) }
{
    put_count(out, items.len())?;
    put_all(out, items)
}

impl Spell for String {
    ghost View = { List ℕ };

    ghost view = { string_bytes };

    ghost spell = { template_bytes };

    ghost IsFit = { λ t. length t < 2 ^ 16 };

    ghost IsHeld = { IsUtf8 };

    fn put(&self, out: &mut Vec<u8>) -> Result<(), NoMemory> {
        put_count(out, self.len())?;
        out.extend_from_slice(self.as_bytes())?;
        Ok(())
    }
}

impl Spell for (u16, String) {
    ghost View = { code.Name };

    ghost view = { name_view };

    ghost spell = { name_bytes };

    ghost IsFit = { λ n. length n.text < 2 ^ 16 };

    ghost IsHeld = { λ n. IsUtf8 n.text };

    fn put(&self, out: &mut Vec<u8>) -> Result<(), NoMemory> {
        out.extend_from_slice(&self.0.to_le_bytes())?;
        self.1.put(out)
    }
}

fn put_tag(out: &mut Vec<u8>, tag: u8) -> Result<(), NoMemory>
    ensures { Adds out.old out.new result (tag ∷ []) }
{
    out.push(tag)?;
    Ok(())
}

fn put_number(out: &mut Vec<u8>, tag: u8, number: i64) -> Result<(), NoMemory>
    ensures { Adds out.old out.new result (tag ∷ to_le_bytes w64 (cast_unsigned w64 number)) }
{
    out.push(tag)?;
    out.extend_from_slice(&number.to_le_bytes())?;
    Ok(())
}

fn put_text(out: &mut Vec<u8>, tag: u8, text: &str) -> Result<(), NoMemory>
    requires { length text.now < 2 ^ 32 }
    ensures { Adds out.old out.new result (tag ∷ (to_le_bytes w32 (length text.now) ++ text.now)) }
{
    out.push(tag)?;
    out.extend_from_slice(&(text.len() as u32).to_le_bytes())?;
    out.extend_from_slice(text.as_bytes())?;
    Ok(())
}

impl Spell for Constant {
    ghost View = { code.Constant };

    ghost view = { constant_view };

    ghost spell = { constant_bytes };

    ghost IsFit = { IsConstant };

    ghost IsHeld = { IsHeld };

    fn put(&self, out: &mut Vec<u8>) -> Result<(), NoMemory> {
        match self {
            Constant::Undefined => put_tag(out, 0),
            Constant::None => put_tag(out, 1),
            Constant::Bool(false) => put_tag(out, 2),
            Constant::Bool(true) => put_tag(out, 3),
            Constant::Int(number) => put_number(out, 4, *number),
            Constant::Text(text) => put_text(out, 5, text.as_str()),
            Constant::Markup(text) => put_text(out, 6, text.as_str()),
        }
    }
}

impl Spell for Unit {
    ghost View = { code.Section };

    ghost view = { unit_view };

    ghost spell = { header_bytes };

    ghost IsFit = { λ u. length u.code < 2 ^ 32 };

    ghost IsHeld = { λ _. Unit {0} };

    fn put(&self, out: &mut Vec<u8>) -> Result<(), NoMemory> {
        out.push(self.parameters)?;
        out.push(self.kind)?;
        out.extend_from_slice(&self.locals.to_le_bytes())?;
        out.extend_from_slice(&(self.code.len() as u32).to_le_bytes())?;
        Ok(())
    }
}

impl Spell for Instr {
    ghost View = { given.Instr };

    ghost view = { λ w. w };

    ghost spell = { wire_bytes };

    ghost IsFit = { λ _. Unit {0} };

    ghost IsHeld = { λ _. Unit {0} };

    fn put(&self, out: &mut Vec<u8>) -> Result<(), NoMemory> {
        let b = self.b.to_le_bytes();
        let c = self.c.to_le_bytes();
        out.extend_from_slice(&[self.op, self.a, b[0], b[1], c[0], c[1], c[2], c[3]])?;
        Ok(())
    }
}

impl Spell for SourceLoc {
    ghost View = { code.SourceLoc };

    ghost view = { loc_view };

    ghost spell = { loc_bytes };

    ghost IsFit = { λ _. Unit {0} };

    ghost IsHeld = { λ _. Unit {0} };

    fn put(&self, out: &mut Vec<u8>) -> Result<(), NoMemory> {
        let template = self.template.to_le_bytes();
        let line = self.line.to_le_bytes();
        out.extend_from_slice(&[template[0], template[1], line[0], line[1], line[2], line[3]])?;
        Ok(())
    }
}

fn put_code(out: &mut Vec<u8>, code: &[Instr]) -> Result<(), NoMemory>
    requires { AllByRecursion (λ w. IsSome (instruction_of w)) code.now }
    ensures { Adds out.old out.new result
        (flat_map instruction_bytes (map instruction_view code.now)) }
{
    put_all(out, code)
}

// Appends the instructions of all units.
fn put_codes(out: &mut Vec<u8>, units: &[Unit]) -> Result<(), NoMemory>
    requires { AreKnown units.now }
    ensures { Adds out.old out.new result
        (flat_map (λ u. flat_map instruction_bytes u.code) (units_view units.now)) }
{
    'units: for unit in units {
        put_code(out, &unit.code)?;
    }
    Ok(())
}

// Appends the trailer: the templates and the places.
fn put_places(out: &mut Vec<u8>, parts: &Parts) -> Result<(), NoMemory>
    requires { IsCode (code_seen parts.now) }
    ensures { Adds out.old out.new result (trailer_bytes (code_seen parts.now)) }
{
    match parts.version {
        Version::One => Ok(()),
        Version::Two => {
            put_table(out, &parts.templates)?;
            put_all(out, &parts.places)
        }
    }
}

fn put_parts(out: &mut Vec<u8>, parts: &Parts) -> Result<(), NoMemory>
    requires code { IsCode (code_seen parts.now) }
    requires known { AreKnown parts.now.units.items }
    ensures { Adds out.old out.new result (spelling (code_seen parts.now)) }
{
    out.extend_from_slice(b"JTBC")?;
    put_count(out, usize::from(parts.version.number()))?;
    put_count(out, usize::from(parts.globals))?;
    put_table(out, &parts.names)?;
    put_table(out, &parts.constants)?;
    put_table(out, &parts.units)?;
    put_codes(out, &parts.units)?;
    put_places(out, parts)?;
    Ok(())
}

/// Returns the spelling of the code of the parts. It reserves memory for `len` bytes at once.
pub(crate) fn spelled(alloc: Global, parts: &Parts, len: usize) -> Result<Vec<u8>, NoMemory>
    requires code { IsCode (code_seen parts.now) }
    requires known { AreKnown parts.now.units.items }
    ensures { IfOk result (λ v. v.items ≡ spelling (code_seen parts.now)) }
{
    let mut out = Vec::with_capacity(alloc, len)?;
    put_parts(&mut out, parts)?;
    Ok(out)
}
