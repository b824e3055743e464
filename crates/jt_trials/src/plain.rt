//! Runs images beside a reference machine, with every fuel from 0 on and within several limits.

use crate::images::{ends_so, is_same, letter_of_end};
use crate::positions::bytes_of;
use crate::stop::Stop;
use jt_budget::{Budget, Spent};
use jt_host::context_from_json;
use jt_image::{Image, View, decode, view};
use jt_machine::{Outcome, run, run_view};
use jt_reference::reference_end;
use jt_value::Context;
use jt_verify::{Verified, VerifiedView, verify, verify_view};
use std::alloc::Global;

/// The greatest fuel with which the ends are compared.
const MOST_FUEL: u64 = 200;

/// Limits that hardly any row reaches.
const AMPLE: Budget = Budget {
    fuel: MOST_FUEL,
    depth: 64,
    output: 1_000,
    size: 1_000,
    nesting: 32,
};

/// Limits around a text of 80 bytes: its size is just allowed, its output is not.
const NARROW: Budget = Budget {
    fuel: MOST_FUEL,
    depth: 10,
    output: 79,
    size: 81,
    nesting: 1,
};

/// Limits that most rows reach.
const TINY: Budget = Budget {
    fuel: MOST_FUEL,
    depth: 1,
    output: 3,
    size: 4,
    nesting: 0,
};

/// Prints three letters of an image, one for each of the limits. A letter is `t`, `f` or `s` by the
/// end with the most fuel. It is `>` if a run, whole or in place, ends otherwise than the reference
/// machine. Prints one `-` instead if the context or an accepted image is missing.
pub(crate) fn reference_answers(rt: &HostRuntime, of: &str) -> Result<(), Stop> {
    let (json, digits) = of.split_once('¦').ok_or(Stop::Other)?;
    let bytes = bytes_of(rt.alloc(), digits)?;
    match case_of(rt.alloc(), json, &bytes) {
        Some(case) => {
            let ample = letter(rt.alloc(), &case, AMPLE)?;
            let narrow = letter(rt.alloc(), &case, NARROW)?;
            let tiny = letter(rt.alloc(), &case, TINY)?;
            println!(rt; "{ample}{narrow}{tiny}")?;
        }
        None => println!(rt; "-")?,
    }
    Ok(())
}

/// An accepted image, the image in place, and the context for which it runs.
#[derive(Drop)]
struct Case<'a> {
    verified: Verified,
    in_place: VerifiedView<'a>,
    context: Context,
}

fn case_of<'a>(alloc: Global, json: &str, bytes: &'a [u8]) -> Option<Case<'a>> {
    let context = context_from_json(alloc, json).ok()?;
    let verified = accepted(alloc, decode(alloc, bytes).ok()?)?;
    let in_place = accepted_in_place(alloc, view(alloc, bytes).ok()?)?;
    Some(Case {
        verified,
        in_place,
        context,
    })
}

fn accepted(alloc: Global, image: Image) -> Option<Verified> {
    match verify(alloc, image) {
        Ok(verified) => Some(verified),
        Err(_) => None,
    }
}

fn accepted_in_place(alloc: Global, seen: View<'_>) -> Option<VerifiedView<'_>> {
    match verify_view(alloc, seen) {
        Ok(verified) => Some(verified),
        Err(_) => None,
    }
}

/// Returns the letter of an image within limits.
fn letter(alloc: Global, case: &Case<'_>, limits: Budget) -> Result<char, Stop> {
    let mut last = Outcome::Spent(Spent::Fuel);
    for fuel in 0..=MOST_FUEL {
        let budget = Budget { fuel, ..limits };
        last = run(alloc, &case.verified, &case.context, budget)?;
        let in_place = run_view(alloc, &case.in_place, &case.context, budget)?;
        let plain = reference_end(alloc, case.verified.image(), &case.context, budget);
        if !ends_so(&last, &plain) || !is_same(&last, &in_place) {
            return Ok('>');
        }
    }
    Ok(letter_of_end(&last))
}
