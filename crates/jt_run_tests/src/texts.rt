//! Tests the texts of errors that no line of the program shows.

use jt_args::JobError;
use jt_codegen::CompileError;
use jt_host::{ContextError, HostError, RenderError};
use jt_image::ImageError;
use jt_inherit::ChainError;
use jt_machine::{RunToError, SinkFailed};
use jt_parse::ParseError;
use jt_scan::ScanError;
use jt_scopes::ScopeError;
use jt_verify::Refusal;
use std::test::Fail;

#[test]
fn refusals_of_sources_have_names(rt: HostRuntime) -> Result<(), Fail> {
    let found = format!(in rt.alloc();
        "{}, {}, {}, {}, {}",
        ScanError::NoMemory,
        ParseError::NoMemory,
        ChainError::NoMemory,
        ScopeError::NoMemory,
        CompileError::NoMemory
    )?;
    let wanted = "S8 NoMemory, P5 NoMemory, C10 NoMemory, V6 NoMemory, G2 NoMemory";
    assert_eq!(rt; found.as_str(), wanted);
    Ok(())
}

#[test]
fn refusals_of_images_and_contexts_have_names(rt: HostRuntime) -> Result<(), Fail> {
    let found = format!(in rt.alloc();
        "{}, {}, {}",
        ImageError::NoMemory,
        Refusal::NoMemory,
        ContextError::NoMemory
    )?;
    assert_eq!(rt; found.as_str(), "I9 NoMemory, K10 NoMemory, X5 NoMemory");
    Ok(())
}

#[test]
fn refusals_of_hosts_have_names(rt: HostRuntime) -> Result<(), Fail> {
    let found = format!(in rt.alloc();
        "{}, {}, {}, {}",
        HostError::NoSession,
        HostError::Full,
        HostError::NoMemory,
        HostError::NoId
    )?;
    let wanted = "H1 NoSession, H2 Full, H3 NoMemory, H4 NoId";
    assert_eq!(rt; found.as_str(), wanted);
    Ok(())
}

#[test]
fn other_errors_have_texts(rt: HostRuntime) -> Result<(), Fail> {
    let found = format!(in rt.alloc();
        "{}, {}, {}, {}, {}, {}",
        JobError::NoMemory,
        RunToError::NoMemory,
        RunToError::Write,
        SinkFailed,
        RenderError::NoMemory,
        RenderError::Compile(CompileError::CodeTooLong)
    )?;
    let wanted = "no memory, no memory, a sink has failed, a sink has failed, no memory, \
        G1 CodeTooLong";
    assert_eq!(rt; found.as_str(), wanted);
    Ok(())
}
