//! Makes the calls on one row: a template with its library and its context.

use crate::memory_library::{MemoryLibrary, context_of, templates_of};
use crate::runs::{in_pieces, in_place, in_slices, whole};
use crate::stop::Stop;
use jt_args::DEFAULT;
use jt_codegen::{CompileError, compile};
use jt_host::{ContextError, RenderError, context_from_json, render};
use jt_image::{Code, Image, ImageError, decode, encode};
use jt_scan::Options;
use jt_value::Context;
use jt_verify::{Refusal, Verified, verify};

/// Makes all calls on a row, and prints their results. Returns the image and the context for a
/// session, or `None` if the row's context or templates are refused.
pub(crate) fn row_answers(
    rt: &HostRuntime,
    row: &str,
) -> Result<Option<(Verified, Context)>, Stop> {
    let memory_library = templates_of(rt.alloc(), row)?;
    let Some(context) = context(rt, context_of(row))? else {
        return Ok(None);
    };
    let Some(image) = compiled(rt, &memory_library)? else {
        return Ok(None);
    };
    let bytes = bytes_of(rt, &image)?;
    in_place(rt, &bytes, &context)?;
    let verified = verified(rt, decoded(rt, &bytes)?)?;
    whole(rt, &verified, &context)?;
    in_pieces(rt, &verified, &context)?;
    let verified = in_slices(rt, verified, &context)?;
    rendered(rt, &memory_library, &context)?;
    Ok(Some((verified, context)))
}

/// Prints that a call failed for lack of memory and is repeated.
pub(crate) fn again(rt: &HostRuntime) -> Result<(), Stop> {
    print!(rt; "NoMemory, then ")?;
    Ok(())
}

fn context(rt: &HostRuntime, text: &str) -> Result<Option<Context>, Stop> {
    let answer = context_from_json(rt.alloc(), text);
    print!(rt; "context_from_json: ")?;
    let answer = match answer {
        Err(ContextError::NoMemory) => {
            again(rt)?;
            context_from_json(rt.alloc(), text)
        }
        answer => answer,
    };
    match answer {
        Ok(context) => {
            let size = context.get("xs").map_or(0, |value| value.size());
            println!(rt; "a value of size {size}")?;
            Ok(Some(context))
        }
        Err(refusal) => {
            println!(rt; "{refusal}")?;
            Ok(None)
        }
    }
}

fn compiled(rt: &HostRuntime, memory_library: &MemoryLibrary<'_>) -> Result<Option<Image>, Stop> {
    let answer = compile(rt.alloc(), "t", memory_library, Options::new());
    print!(rt; "compile: ")?;
    let answer = match answer {
        Err(CompileError::NoMemory) => {
            again(rt)?;
            compile(rt.alloc(), "t", memory_library, Options::new())
        }
        answer => answer,
    };
    match answer {
        Ok(image) => {
            println!(rt; "{} instructions", image.instructions())?;
            Ok(Some(image))
        }
        Err(refusal) => {
            println!(rt; "{refusal}")?;
            Ok(None)
        }
    }
}

fn bytes_of(rt: &HostRuntime, image: &Image) -> Result<Vec<u8>, Stop> {
    let answer = encode(rt.alloc(), image);
    print!(rt; "encode: ")?;
    let answer = match answer {
        Err(_) => {
            again(rt)?;
            encode(rt.alloc(), image)
        }
        answer => answer,
    };
    match answer {
        Ok(bytes) => {
            println!(rt; "{} bytes", bytes.len())?;
            Ok(bytes)
        }
        Err(_) => Err(Stop::Other),
    }
}

fn decoded(rt: &HostRuntime, bytes: &[u8]) -> Result<Image, Stop> {
    let answer = decode(rt.alloc(), bytes);
    print!(rt; "decode: ")?;
    let answer = match answer {
        Err(ImageError::NoMemory) => {
            again(rt)?;
            decode(rt.alloc(), bytes)
        }
        answer => answer,
    };
    match answer {
        Ok(image) => {
            println!(rt; "{} instructions", image.instructions())?;
            Ok(image)
        }
        Err(refusal) => {
            println!(rt; "{refusal}")?;
            Err(Stop::Other)
        }
    }
}

fn verified(rt: &HostRuntime, image: Image) -> Result<Verified, Stop> {
    let answer = verify(rt.alloc(), image);
    print!(rt; "verify: ")?;
    // The returned image is verified again.
    let answer = match answer {
        Err((image, Refusal::NoMemory)) => {
            again(rt)?;
            verify(rt.alloc(), image)
        }
        answer => answer,
    };
    match answer {
        Ok(verified) => {
            println!(rt; "{} instructions", verified.image().instructions())?;
            Ok(verified)
        }
        Err((_, refusal)) => {
            println!(rt; "{refusal}")?;
            Err(Stop::Other)
        }
    }
}

fn rendered(
    rt: &HostRuntime,
    memory_library: &MemoryLibrary<'_>,
    context: &Context,
) -> Result<(), Stop> {
    let answer = render(
        rt.alloc(),
        "t",
        memory_library,
        Options::new(),
        context,
        DEFAULT,
    );
    print!(rt; "render: ")?;
    let answer = match answer {
        Err(RenderError::NoMemory) => {
            again(rt)?;
            render(
                rt.alloc(),
                "t",
                memory_library,
                Options::new(),
                context,
                DEFAULT,
            )
        }
        answer => answer,
    };
    println!(rt; "{answer:?}")?;
    Ok(())
}
