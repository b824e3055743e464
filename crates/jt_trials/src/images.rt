//! Tests images that strangers change. Each beginning and each change of one byte has a letter:
//!
//!     1 to 9     bytes that are not an image, by the refusal's number
//!     A to J     an image that is refused, by the refusal's number
//!     t f s      an accepted image, whose run ends with a text, a fault or a spent number
//!     ~ = ^      an error of a reader: `view` differs from `decode`, `encode` returns other
//!                bytes, `verify_view` differs from `verify`
//!     | < >      an error of a run: a run in place ends otherwise, more fuel changes an end,
//!                a reference machine ends otherwise

use crate::changes::{Lettered, print_letters};
use crate::positions::{Positions, bytes_of};
use crate::stop::Stop;
use jt_args::DEFAULT;
use jt_budget::{Budget, Spent};
use jt_host::context_from_json;
use jt_image::{Flaw, Image, ImageError, View, decode, encode, view};
use jt_machine::{Outcome, run, run_view};
use jt_reference::{End, reference_end};
use jt_value::Context;
use jt_verify::{Refusal, Verified, VerifiedView, verify, verify_view};
use std::alloc::Global;

/// The greatest fuel with which accepted images run.
const MOST_FUEL: u64 = 20;

/// The context for which images run.
#[derive(Drop)]
struct ImageTrial<'a> {
    context: &'a Context,
}

impl Lettered for ImageTrial<'_> {
    fn letter(&self, alloc: Global, bytes: &[u8]) -> Result<char, Stop> {
        match decode(alloc, bytes) {
            Ok(image) => letter_of_image(alloc, image, bytes, self.context),
            Err(error) => Ok(letter_of_none(alloc, error, bytes)),
        }
    }
}

/// Prints the letters of an image at some positions.
pub(crate) fn image_answers(rt: &HostRuntime, of: &str) -> Result<(), Stop> {
    let (places, of) = Positions::read(of)?;
    let (json, digits) = of.split_once('¦').ok_or(Stop::Other)?;
    let Ok(context) = context_from_json(rt.alloc(), json) else {
        return Err(Stop::Other);
    };
    let bytes = bytes_of(rt.alloc(), digits)?;
    let trial = ImageTrial { context: &context };
    print_letters(rt, "", &trial, places, &bytes)
}

/// Returns the letter of bytes that `decode` reads. `view` must read them, and `encode` must return
/// the same bytes.
fn letter_of_image(
    alloc: Global,
    image: Image,
    bytes: &[u8],
    context: &Context,
) -> Result<char, Stop> {
    match view(alloc, bytes) {
        Ok(seen) => {
            if encode(alloc, &image)?.as_slice() == bytes {
                judged(alloc, image, seen, context)
            } else {
                Ok('=')
            }
        }
        Err(_) => Ok('~'),
    }
}

/// Returns the letter of bytes that `decode` refuses. `view` must refuse them alike.
fn letter_of_none(alloc: Global, error: ImageError, bytes: &[u8]) -> char {
    match view(alloc, bytes) {
        Ok(_) => '~',
        Err(seen) => { if seen == error { digit_of(error) } else { '~' } }
    }
}

fn digit_of(error: ImageError) -> char {
    match error {
        ImageError::BadMagic => '1',
        ImageError::BadVersion => '2',
        ImageError::Truncated => '3',
        ImageError::Trailing => '4',
        ImageError::BadText => '5',
        ImageError::BadOpcode => '6',
        ImageError::BadTable => '7',
        ImageError::LimitPassed => '8',
        ImageError::NoMemory => '9',
    }
}

fn judged(alloc: Global, image: Image, seen: View<'_>, context: &Context) -> Result<char, Stop> {
    match verify(alloc, image) {
        Ok(verified) => accepted(alloc, &verified, seen, context),
        Err((_, refusal)) => Ok(refused(alloc, &refusal, seen)),
    }
}

/// Returns the letter of an accepted image. The image in place must be accepted.
fn accepted(
    alloc: Global,
    verified: &Verified,
    seen: View<'_>,
    context: &Context,
) -> Result<char, Stop> {
    match verify_view(alloc, seen) {
        Ok(in_place) => ended(alloc, verified, &in_place, context),
        Err(_) => Ok('^'),
    }
}

/// Returns the letter of a refused image. The image in place must have the same refusal.
fn refused(alloc: Global, refusal: &Refusal, seen: View<'_>) -> char {
    match verify_view(alloc, seen) {
        Ok(_) => '^',
        Err((_, other)) => {
            if other == *refusal {
                letter_of(refusal)
            } else {
                '^'
            }
        }
    }
}

fn letter_of(refusal: &Refusal) -> char {
    match refusal {
        Refusal::Flaw { flaw, .. } => match flaw {
            Flaw::MissingOperand => 'A',
            Flaw::WrongKind => 'B',
            Flaw::DepthDiffers => 'C',
            Flaw::KindDiffers => 'D',
            Flaw::JumpOut => 'E',
            Flaw::BadIndex => 'F',
            Flaw::BadReturn => 'G',
            Flaw::FallsOff => 'H',
            Flaw::TooDeep => 'I',
        },
        Refusal::NoMemory => 'J',
    }
}

/// Runs an accepted image with each fuel from 0 on, and returns the letter of its end.
fn ended(
    alloc: Global,
    verified: &Verified,
    in_place: &VerifiedView<'_>,
    context: &Context,
) -> Result<char, Stop> {
    let mut last = Outcome::Spent(Spent::Fuel);
    for fuel in 0..=MOST_FUEL {
        let budget = Budget { fuel, ..DEFAULT };
        let found = run(alloc, verified, context, budget)?;
        if !is_same(&found, &run_view(alloc, in_place, context, budget)?) {
            return Ok('|');
        }
        if !is_same(&last, &Outcome::Spent(Spent::Fuel)) && !is_same(&last, &found) {
            return Ok('<');
        }
        last = found;
    }
    let budget = Budget {
        fuel: MOST_FUEL,
        ..DEFAULT
    };
    if !ends_so(
        &last,
        &reference_end(alloc, verified.image(), context, budget),
    ) {
        return Ok('>');
    }
    Ok(letter_of_end(&last))
}

pub(crate) fn letter_of_end(outcome: &Outcome) -> char {
    match outcome {
        Outcome::Text(_) => 't',
        Outcome::Fault(..) => 'f',
        Outcome::Spent(_) => 's',
    }
}

pub(crate) fn is_same(one: &Outcome, other: &Outcome) -> bool {
    match (one, other) {
        (Outcome::Text(one), Outcome::Text(other)) => one.as_str() == other.as_str(),
        (Outcome::Fault(one, place), Outcome::Fault(other, its)) => one == other && place == its,
        (Outcome::Spent(one), Outcome::Spent(other)) => one == other,
        _ => false,
    }
}

pub(crate) fn ends_so(outcome: &Outcome, plain: &Result<String, End>) -> bool {
    match (outcome, plain) {
        (Outcome::Text(text), Ok(plain)) => text.as_str() == plain.as_str(),
        (Outcome::Fault(fault, _), Err(End::Fault(plain))) => fault == plain,
        (Outcome::Spent(spent), Err(End::Spent(plain))) => spent == plain,
        _ => false,
    }
}
