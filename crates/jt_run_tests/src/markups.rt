//! Tests contexts with markup, which JSON cannot spell.

use crate::source::verified_of;
use jt_args::DEFAULT;
use jt_machine::{Outcome, run};
use jt_value::{Context, Text, Value};
use std::alloc::Global;
use std::test::Fail;

// Returns the context in which `a` is the markup <.
fn context(alloc: Global) -> Result<Context, Fail> {
    let name = Text::from_str(alloc, "a")?;
    let value = Value::markup(alloc, "<")?;
    let mut context = Context::new(alloc);
    match context.insert(name, value) {
        Ok(()) => Ok(context),
        Err(_) => Err(Fail::from("insert")),
    }
}

#[test]
fn markup_of_a_context_is_printed_as_it_is(rt: HostRuntime) -> Result<(), Fail> {
    let verified = verified_of(rt.alloc(), "{# {{ #}{{ a }}")?;
    let context = context(rt.alloc())?;
    let outcome = run(rt.alloc(), &verified, &context, DEFAULT)?;
    let Outcome::Text(text) = outcome else {
        return Err(Fail::from("no text"));
    };
    assert_eq!(rt; text.as_str(), "<");
    Ok(())
}
