//! Tests runs whose text is written in pieces.

use crate::rows::rows_hold;
use crate::source::verified_of;
use jt_args::DEFAULT;
use jt_budget::Budget;
use jt_image::decode;
use jt_machine::{IoSink, Sink, run_to};
use jt_value::Context;
use jt_verify::{Verified, verify};
use std::alloc::Global;
use std::io;
use std::test::Fail;

/// A writer that takes one byte per call, and fails after `left` bytes.
#[derive(Drop)]
struct Slow {
    taken: String,
    left: usize,
}

impl io::Write for Slow {
    fn write(&mut self, buf: &[u8]) -> io::Result<usize> {
        let Some(byte) = buf.first() else {
            return Ok(0);
        };
        if self.left == 0 || self.taken.push(char::from(*byte)).is_err() {
            return Err(io::Error::from(io::ErrorKind::BrokenPipe));
        }
        self.left -= 1;
        Ok(1)
    }

    fn flush(&mut self) -> io::Result<()> {
        Ok(())
    }
}

// The beginning of an image: the constants `a`, `zz`, `Hello` and 7, and one unit, up to its number
// of instructions.
const HEAD: [u8; 50] = [
    0x4a, 0x54, 0x42, 0x43, 1, 0, 0, 0, 0, 0, 4, 0, 5, 1, 0, 0, 0, 0x61, 5, 2, 0, 0, 0, 0x7a, 0x7a,
    5, 5, 0, 0, 0, 0x48, 0x65, 0x6c, 0x6c, 0x6f, 4, 7, 0, 0, 0, 0, 0, 0, 0, 1, 0, 0, 0, 0, 0,
];

// Returns the image of some instructions, which are opcodes and fields `c` with blanks between.
fn image_of(alloc: Global, words: &str) -> Result<Verified, Fail> {
    let count = u8::try_from(words.split(' ').count() / 2)?;
    let mut bytes = Vec::new(alloc);
    bytes.extend_from_slice(&HEAD)?;
    bytes.extend_from_slice(&[count, 0, 0, 0])?;
    for word in words.split(' ') {
        bytes.extend_from_slice(&[word.parse::<u8>()?, 0, 0, 0])?;
    }
    verify(alloc, decode(alloc, &bytes)?).map_err(|_| Fail::from("verify"))
}

// Returns the result of a run, whether the sink has failed, and the written text, if the writer
// takes `left` bytes.
fn answer(alloc: Global, verified: &Verified, budget: Budget, left: usize) -> Result<String, Fail> {
    let mut sink = IoSink::new(Slow {
        taken: String::new(alloc),
        left,
    });
    let answer = run_to(alloc, verified, &Context::new(alloc), budget, &mut sink);
    let has_failed = sink.has_failed();
    let written = sink.into_inner().taken;
    Ok(format!(in alloc; "{answer:?} {has_failed} [{written}]")?)
}

// Runs instructions. A row is the number of bytes that the writer takes, the fuel, and the
// instructions.
fn written(alloc: Global, asked: &str) -> Result<String, Fail> {
    let (left, rest) = asked.split_once(" ").ok_or("a row has no fuel")?;
    let (fuel, words) = rest.split_once(" ").ok_or("a row has no instructions")?;
    let (left, fuel) = (left.parse::<usize>()?, fuel.parse::<u64>()?);
    let budget = Budget {
        fuel,
        depth: 64,
        output: 1_000,
        size: 1_000,
        nesting: 32,
    };
    answer(alloc, &image_of(alloc, words)?, budget, left)
}

// Checks runs of instructions. Opcode 9 emits a text, 1 and 6 push and drop a value, and 24 and 25
// are a capture. Opcode 18 begins a loop, and 28 returns.
#[test]
fn emitted_text_is_written(rt: HostRuntime) -> Result<(), Fail> {
    rows_hold(
        &rt,
        written,
        r"9 99 9 2 28 0 => Ok(Whole) false [Hello]
        9 99 9 0 1 3 18 0 23 0 6 0 28 0 => Ok(Fault(NotIterable, None)) false [a]
        9 1 9 0 9 0 28 0 => Ok(Spent(Fuel)) false [a]
        9 99 24 0 9 1 25 0 6 0 9 0 28 0 => Ok(Whole) false [a]
        9 99 9 0 24 0 9 1 1 3 18 0 23 0 6 0 25 0 6 0 28 0 => Ok(Fault(NotIterable, None)) false [a]
        9 2 24 0 9 1 25 0 6 0 28 0 => Ok(Spent(Fuel)) false []
        2 99 9 2 28 0 => Err(Write) true [He]
        0 99 24 0 9 1 25 0 6 0 28 0 => Ok(Whole) false []",
    )
}

// Runs a source. A row is the number of bytes that the writer takes, and the source.
fn written_of_source(alloc: Global, asked: &str) -> Result<String, Fail> {
    let (left, source) = asked.split_once(" ").ok_or("a row has no source")?;
    answer(
        alloc,
        &verified_of(alloc, source)?,
        DEFAULT,
        left.parse::<usize>()?,
    )
}

#[test]
fn sources_are_written_in_pieces(rt: HostRuntime) -> Result<(), Fail> {
    rows_hold(
        &rt,
        written_of_source,
        r#"99 a{{ nope.x }} => Ok(Fault(Undefined, Some(Place { template: "t", line: 1 }))) false [a]
        99 {% set c %}zz{% endset %}a => Ok(Whole) false [a]
        99 a{% for i in range(999999) %}{% endfor %} => Ok(Spent(Fuel)) false [a]
        2 Hello => Err(Write) true [He]
        5 Hello => Ok(Whole) false [Hello]"#,
    )
}
