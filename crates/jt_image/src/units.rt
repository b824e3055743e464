//! Reads units: the headers of all units come first, then the instructions of each unit.
ghost use Rattle.std.specs.Prelude.{◌≡◌, ◌+◌, ◌≤◌, ◌==◌, ◌||◌, not, nat_le, nat_lt, List, length};
ghost use Rattle.std.specs.Prelude.{IfOk, Ok, Some, None, [], true, Err};
ghost use Rattle.std.specs.Int.{w16, w32};
ghost use Rattle.jt_image.specs.internal.HeaderView.{header_view, headers_view};
ghost use Rattle.jt_image.specs.IsCode.{max_instructions};
ghost use Rattle.jt_image.specs.Reading.{Gives, parameters_at, kind_at, locals_at, len_at};
ghost use Rattle.jt_image.specs.Reading.{header_of, header_total, headers_at, known_of};
ghost use Rattle.jt_image.specs.Reading.{instruction_at};

use crate::error::ImageError;
use crate::fields::{u8_at, u16_at, u32_at};
use crate::instruction::Instruction;
use crate::limits::{MAX_INSTRUCTIONS, MAX_LOCALS};
use crate::wire::Instr;
use std::alloc::Global;

/// The header of a unit.
#[derive(Drop)]
pub(crate) struct Header {
    pub(crate) parameters: u8,
    pub(crate) kind: u8,
    pub(crate) locals: u16,
    pub(crate) len: u32,
}

#[tactic(auto, unfolding(crate::specs::Reading::parameters_at))]
fn parameters_at(first: bool, bytes: &[u8]) -> Result<(u8, &[u8]), ImageError>
    ensures { Gives (λ x. (x.0, x.1.now)) result (parameters_at first bytes.now) }
{
    let (parameters, rest) = u8_at(bytes)?;
    if first && parameters != 0 {
        return Err(ImageError::BadTable);
    }
    Ok((parameters, rest))
}

#[tactic(auto, unfolding(crate::specs::Reading::kind_at))]
fn kind_at(first: bool, bytes: &[u8]) -> Result<(u8, &[u8]), ImageError>
    ensures { Gives (λ x. (x.0, x.1.now)) result (kind_at first bytes.now) }
{
    let (kind, rest) = u8_at(bytes)?;
    let most = if first { 0 } else { 1 };
    if kind > most {
        return Err(ImageError::BadTable);
    }
    Ok((kind, rest))
}

#[tactic(auto, unfolding(crate::specs::Reading::locals_at))]
fn locals_at(parameters: u8, bytes: &[u8]) -> Result<(u16, &[u8]), ImageError>
    ensures { Gives (λ x. (x.0, x.1.now)) result (locals_at parameters bytes.now) }
{
    let (locals, rest) = u16_at(bytes)?;
    if locals > MAX_LOCALS {
        return Err(ImageError::LimitPassed);
    }
    if u16::from(parameters) > locals {
        return Err(ImageError::BadTable);
    }
    Ok((locals, rest))
}

#[tactic(auto, unfolding(crate::specs::Reading::len_at))]
fn len_at(total: u32, bytes: &[u8]) -> Result<(u32, &[u8]), ImageError>
    requires { total ≤ max_instructions }
    ensures gives { Gives (λ x. (x.0, x.1.now)) result (len_at total bytes.now) }
    ensures within { IfOk result (λ x. total + x.0 ≤ max_instructions) }
{
    let (len, rest) = u32_at(bytes)?;
    if len > MAX_INSTRUCTIONS - total {
        return Err(ImageError::LimitPassed);
    }
    Ok((len, rest))
}

#[tactic(auto, unfolding(crate::specs::Reading::header_of))]
fn header_at(first: bool, total: u32, bytes: &[u8]) -> Result<(Header, &[u8]), ImageError>
    requires { total ≤ max_instructions }
    ensures gives { Gives (λ x. (header_view x.0, x.1.now)) result
        (header_of first total bytes.now) }
    ensures within { IfOk result (λ x. total + x.0.len ≤ max_instructions) }
{
    let (parameters, rest) = parameters_at(first, bytes)?;
    let (kind, rest) = kind_at(first, rest)?;
    let (locals, rest) = locals_at(parameters, rest)?;
    let (len, rest) = len_at(total, rest)?;
    Ok((
        Header {
            parameters,
            kind,
            locals,
            len,
        },
        rest,
    ))
}

/// The headers of all units, and the number of instructions in all units.
#[derive(Drop)]
pub(crate) struct Headers {
    pub(crate) items: Vec<Header>,
    pub(crate) total: u32,
}

pub(crate) fn headers_at(
    alloc: Global,
    count: u16,
    bytes: &[u8],
) -> Result<(Headers, &[u8]), ImageError>
    ensures gives { Gives (λ x. (headers_view x.0.items.items, x.1.now)) result
        (headers_at count bytes.now) }
    ensures total { IfOk result (λ x. x.0.total ≡ header_total (headers_view x.0.items.items)) }
    ensures within { IfOk result
        (λ x. header_total (headers_view x.0.items.items) ≤ max_instructions) }
{
    let mut headers: Vec<Header> = Vec::new(alloc);
    let mut rest = bytes;
    let mut total = 0;
    let mut first = true;
    'headers: for _ in 0..count {
        let (header, after) = header_at(first, total, rest)?;
        total += header.len;
        headers.push(header)?;
        rest = after;
        first = false;
    }
    Ok((
        Headers {
            items: headers,
            total,
        },
        rest,
    ))
}

#[tactic(auto, unfolding(crate::specs::Reading::known_of))]
fn known(instr: Instr) -> Result<Instruction, ImageError>
    ensures { Gives (λ i. i) result (known_of instr.op instr.a instr.b instr.c) }
{
    match instr.instruction() {
        Some(instruction) => Ok(instruction),
        None => Err(ImageError::BadOpcode),
    }
}

#[tactic(auto, unfolding(crate::specs::Reading::instruction_at))]
fn decode_fields(bytes: &[u8]) -> Result<(Instruction, &[u8]), ImageError>
    ensures { Gives (λ x. (x.0, x.1.now)) result (instruction_at bytes.now) }
{
    let (op, rest) = u8_at(bytes)?;
    known(Instr {
        op,
        a: 0,
        b: 0,
        c: 0,
    })?;
    let (a, rest) = u8_at(rest)?;
    known(Instr { op, a, b: 0, c: 0 })?;
    let (b, rest) = u16_at(rest)?;
    known(Instr { op, a, b, c: 0 })?;
    let (c, rest) = u32_at(rest)?;
    let instruction = known(Instr { op, a, b, c })?;
    Ok((instruction, rest))
}

// Decodes eight bytes together if they are an instruction, else field by field to find the first
// fault.
pub(crate) fn instruction_at(bytes: &[u8]) -> Result<(Instruction, &[u8]), ImageError>
    ensures { Gives (λ x. (x.0, x.1.now)) result (instruction_at bytes.now) }
{
    if bytes.len() < 8 {
        return decode_fields(bytes);
    }
    let (front, rest) = bytes.split_at(8);
    let b = u16::from_le_bytes([front[2], front[3]]);
    let c = u32::from_le_bytes([front[4], front[5], front[6], front[7]]);
    let instr = Instr {
        op: front[0],
        a: front[1],
        b,
        c,
    };
    match instr.instruction() {
        Some(instruction) => Ok((instruction, rest)),
        None => decode_fields(bytes),
    }
}
