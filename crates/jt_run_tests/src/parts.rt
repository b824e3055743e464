//! Tests the assembly of parts, and the readers of an image and of a view.

use crate::rows::{numbers, rows_hold};
use jt_image::*;
use std::alloc::Global;
use std::process::Abort;
use std::test::Fail;

// The image that emits the text `x`.
const X: [u8; 44] = [
    0x4a, 0x54, 0x42, 0x43, 1, 0, 0, 0, 0, 0, 1, 0, 5, 1, 0, 0, 0, 0x78, 1, 0, 0, 0, 0, 0, 2, 0, 0,
    0, 9, 0, 0, 0, 0, 0, 0, 0, 0x1c, 0, 0, 0, 0, 0, 0, 0,
];

// Checks that the readers of a code report X.
fn is_x<C: Code>(rt: &impl Abort, code: &C) {
    let header = UnitHeader {
        parameters: 0,
        kind: 0,
        locals: 0,
        instructions: 2,
    };
    assert_eq!(rt; (code.globals(), code.names(), code.constants()), (0, 0, 1));
    assert_eq!(rt;
        (code.units(), code.instructions(), code.unit(0)),
        (1, 2, Some(header))
    );
    assert!(rt;
        matches!(
            (code.constant(0), code.constant(1)),
            (Some(ConstantRef::Text("x")), None)
        )
    );
    let (first, third) = (code.instruction(0, 0), code.instruction(0, 2));
    assert_eq!(rt;
        (first, third),
        (Some(Instruction::Data { constant: 0 }), None)
    );
}

#[test]
fn readers_of_an_image_and_a_view_agree(rt: HostRuntime) -> Result<(), Fail> {
    let image = decode(rt.alloc(), &X)?;
    is_x(&rt, &image);
    assert!(rt; image.name(0).is_none());
    assert_eq!(rt; encode(rt.alloc(), &image)?.as_slice(), X.as_slice());
    is_x(&rt, &view(rt.alloc(), &X)?);
    Ok(())
}

// Parses an entry of the table of names, as `1a`: the slot and the name.
fn entry(alloc: Global, spelling: &str) -> Result<(u16, String), Fail> {
    let slot = spelling.get(..1).ok_or("a row has no slot")?;
    let name = spelling.get(1..).unwrap_or("");
    Ok((slot.parse::<u16>()?, String::from_str(alloc, name)?))
}

// Returns a unit of one instruction. `asked` has its parameters, its kind and its locals, and the
// opcode and the field `c` of the instruction.
fn unit_of(alloc: Global, asked: &str) -> Result<Unit, Fail> {
    let [parameters, kind, locals, op, c] = numbers::<5>(asked)?;
    let instruction = Instr {
        op: u8::try_from(op).unwrap_or(0),
        a: 0,
        b: 0,
        c,
    };
    Ok(Unit {
        parameters: u8::try_from(parameters).unwrap_or(0),
        kind: u8::try_from(kind).unwrap_or(0),
        locals: u16::try_from(locals).unwrap_or(0),
        code: vec![in alloc; instruction]?,
    })
}

// Returns the parts of a row: two names and a unit.
fn parts_of(alloc: Global, asked: &str) -> Result<Parts, Fail> {
    let (first, rest) = asked.split_once(" ").ok_or("a row has no name")?;
    let (second, unit) = rest.split_once(" ").ok_or("a row has one name")?;
    Ok(Parts {
        version: Version::One,
        globals: 2,
        names: vec![in alloc; entry(alloc, first)?, entry(alloc, second)?]?,
        constants: Vec::new(alloc),
        units: vec![in alloc; unit_of(alloc, unit)?]?,
        templates: Vec::new(alloc),
        places: Vec::new(alloc),
    })
}

// Assembles the parts of a row, and returns the number of names of the image or the error.
fn assembled(alloc: Global, asked: &str) -> Result<String, Fail> {
    match assemble(alloc, parts_of(alloc, asked)?) {
        Ok(image) => Ok(format!(in alloc; "{} names", image.names())?),
        Err((parts, error)) if parts.names.len() == 2 && parts.units.len() == 1 => {
            Ok(format!(in alloc; "{error:?}")?)
        }
        Err(_) => Ok(String::from_str(alloc, "other parts")?),
    }
}

#[test]
fn parts_are_assembled_or_returned(rt: HostRuntime) -> Result<(), Fail> {
    rows_hold(
        &rt,
        assembled,
        r"1a 0b 0 0 4096 28 0 => 2 names
        1a 0b 0 0 0 29 0 => BadOpcode
        1a 0b 0 0 0 28 1 => BadOpcode
        1a 0b 0 0 4097 28 0 => LimitPassed
        1a 0b 1 0 1 28 0 => BadTable
        1a 0b 0 1 0 28 0 => BadTable
        1a 2b 0 0 0 28 0 => BadTable
        1a 1b 0 0 0 28 0 => BadTable
        1b 0a 0 0 0 28 0 => BadTable
        1a 0a 0 0 0 28 0 => BadTable
        1 0a 0 0 0 28 0 => BadTable",
    )
}
