//! Makes calls on values, on texts and on the parts of an image.

use crate::calls::again;
use crate::stop::Stop;
use jt_escape::escape_into;
use jt_image::{
    Code, Constant, Image, ImageError, Instruction, Parts, Unit, Version, assemble, upgrade,
};
use jt_value::{Context, Text, Value};
use std::alloc::Global;

/// Names that are inserted into a context in order.
const NAMES: [&str; 10] = ["a", "b", "c", "d", "e", "f", "g", "h", "i", "j"];

/// Texts that are escaped in order.
const TEXTS: [&str; 4] = [
    "<",
    "a & b",
    "'twenty' \"letters\" <b>",
    "plain text without any of them",
];

/// Makes the calls on values, and prints their results.
pub(crate) fn value_answers(rt: &HostRuntime) -> Result<(), Stop> {
    let mut context = Context::new(rt.alloc());
    for name in NAMES.iter() {
        inserted(rt, &mut context, name)?;
    }
    escaped(rt)?;
    assembled(rt)
}

/// Returns the number of the names that have the value with which they were inserted.
fn known(context: &Context) -> usize {
    NAMES
        .iter()
        .filter(|name| matches!(context.get(name), Some(Value::Bool(true))))
        .count()
}

fn inserted(rt: &HostRuntime, context: &mut Context, name: &str) -> Result<(), Stop> {
    let owned = Text::from_str(rt.alloc(), name)?;
    let answer = context.insert(owned, Value::Bool(true));
    print!(rt; "insert: ")?;
    // The returned pair is inserted again.
    let answer = match answer {
        Err((name, value)) => {
            print!(rt; "NoMemory behind {} names, then ", known(context))?;
            context.insert(name, value)
        }
        answer => answer,
    };
    match answer {
        Ok(()) => {
            println!(rt; "{} names", known(context))?;
            Ok(())
        }
        Err(_) => Err(Stop::Other),
    }
}

fn escaped(rt: &HostRuntime) -> Result<(), Stop> {
    let mut into = String::new(rt.alloc());
    for text in TEXTS.iter() {
        let answer = escape_into(text, &mut into);
        print!(rt; "escape_into: ")?;
        if answer.is_err() {
            print!(rt; "NoMemory behind [{into}], then ")?;
            escape_into(text, &mut into)?;
        }
        println!(rt; "[{into}]")?;
    }
    Ok(())
}

/// Returns the parts of an image that emits a text and then the global `name`.
fn parts(alloc: Global) -> Result<Parts, Stop> {
    let code = vec![in alloc;
        Instruction::Data { constant: 0 }.wire(),
        Instruction::GLoad { global: 0 }.wire(),
        Instruction::Emit { flag: 1 }.wire(),
        Instruction::Return.wire(),
    ]?;
    let unit = Unit {
        parameters: 0,
        kind: 0,
        locals: 0,
        code,
    };
    Ok(Parts {
        version: Version::One,
        globals: 1,
        names: vec![in alloc; (0, String::from_str(alloc, "name")?)]?,
        constants: vec![in alloc; Constant::Text(String::from_str(alloc, "text")?)]?,
        units: vec![in alloc; unit]?,
        templates: Vec::new(alloc),
        places: Vec::new(alloc),
    })
}

fn assembled(rt: &HostRuntime) -> Result<(), Stop> {
    let answer = assemble(rt.alloc(), parts(rt.alloc())?);
    print!(rt; "assemble: ")?;
    // The returned parts are assembled again.
    let answer = match answer {
        Err((parts, ImageError::NoMemory)) => {
            again(rt)?;
            assemble(rt.alloc(), parts)
        }
        answer => answer,
    };
    match answer {
        Ok(image) => {
            println!(rt; "{} instructions", image.instructions())?;
            upgraded(rt, image)
        }
        Err((_, refusal)) => {
            println!(rt; "{refusal}")?;
            Err(Stop::Other)
        }
    }
}

fn upgraded(rt: &HostRuntime, image: Image) -> Result<(), Stop> {
    let answer = upgrade(rt.alloc(), image);
    print!(rt; "upgrade: ")?;
    // The returned image is upgraded again.
    let answer = match answer {
        Err((image, ImageError::NoMemory)) => {
            again(rt)?;
            upgrade(rt.alloc(), image)
        }
        answer => answer,
    };
    match answer {
        Ok(image) => {
            println!(rt; "{} bytes", image.bytes().len())?;
            Ok(())
        }
        Err((_, refusal)) => {
            println!(rt; "{refusal}")?;
            Err(Stop::Other)
        }
    }
}
