//! Defines sinks, which take bytes in pieces, and a sink over a writer of std.
ghost use Rattle.std.specs.Prelude.{◌≡◌, ◌≢◌, ◌<◌, ◌≤◌, ℕ, Bool, true, false, List, [], length};
ghost use Rattle.std.specs.Prelude.{take, Option, IfOk, IsErr, OnOk, OnErr};
ghost use Rattle.std.specs.Io.KnownBytes.{Appends};
ghost use Rattle.jt_machine.specs.Sinks.{HasFailed, TookFront};

use std::io::Write;
use thiserror::Error;

/// The error of a sink that refused a piece.
#[derive(Clone, Copy, Debug, PartialEq, Eq, Error)]
#[error("a sink has failed")]
pub struct SinkFailed;

/// A writer that takes bytes in pieces. Once it has refused a piece, it has failed permanently.
pub trait Sink {
    /// Returns the bytes that the sink took, if they are known.
    ghost taken: { Self → Option (List ℕ) };

    /// Returns whether the sink has refused a piece.
    ghost failed: { Self → Bool };

    /// Takes a prefix of the piece and returns its length, which is 0 only for an empty piece.
    ///
    /// # Errors
    ///
    /// `SinkFailed` if the sink refuses the piece; it then takes nothing. A sink that has failed
    /// refuses every piece.
    fn put(&mut self, piece: &[u8]) -> Result<usize, SinkFailed>
        ensures idle { failed self.old ≡ true → self.new ≡ self.old }
        ensures refuses { failed self.old ≡ true → IsErr result }
        ensures within { IfOk result (λ n. n ≤ length piece.now) }
        ensures some { IfOk result (λ n. piece.now ≢ [] → 0 < n) }
        ensures took { IfOk result
            (λ n. Appends (taken self.old) (taken self.new) (take n piece.now)) }
        ensures works { OnOk result (failed self.new ≡ false) }
        ensures nothing { OnErr result (Appends (taken self.old) (taken self.new) []) }
        ensures fails { OnErr result (failed self.new ≡ true) };

    /// Returns whether the sink has refused a piece.
    fn has_failed(&self) -> bool
        ensures { result ≡ failed self.now };
}

/// A sink over a writer of std. It fails if the writer returns an error, or if the writer takes no
/// byte of a piece that is not empty.
#[derive(Drop)]
pub struct IoSink<W: Write> {
    writer: W,
    failed: bool,
}

impl<W: Write> IoSink<W> {
    /// Returns a sink over `writer` that has not failed.
    pub fn new(writer: W) -> IoSink<W>
        ensures writer { ⟦<IoSink<W> as Sink>⟧.taken result ≡ W.contents writer }
        ensures works { ⟦<IoSink<W> as Sink>⟧.failed result ≡ false }
    {
        IoSink {
            writer,
            failed: false,
        }
    }

    /// Returns the writer.
    pub fn into_inner(self) -> W
        ensures { W.contents result ≡ ⟦<IoSink<W> as Sink>⟧.taken self }
    {
        self.writer
    }
}

impl<W: Write> Sink for IoSink<W> {
    ghost taken = { λ s. W.contents s.writer };

    ghost failed = { λ s. s.failed };

    fn put(&mut self, piece: &[u8]) -> Result<usize, SinkFailed>
        ensures idle { self.old.failed ≡ true → self.new ≡ self.old }
        ensures refuses { self.old.failed ≡ true → IsErr result }
        ensures within { IfOk result (λ n. n ≤ length piece.now) }
        ensures some { IfOk result (λ n. piece.now ≢ [] → 0 < n) }
        ensures took { IfOk result (λ n. Appends (W.contents self.old.writer)
            (W.contents self.new.writer) (take n piece.now)) }
        ensures works { OnOk result (self.new.failed ≡ false) }
        ensures nothing { OnErr result
            (Appends (W.contents self.old.writer) (W.contents self.new.writer) []) }
        ensures fails { OnErr result (self.new.failed ≡ true) }
        // A sink that has not failed refuses a piece only if the writer failed at it.
        ensures why { OnErr result (self.old.failed ≡ false
            → HasFailed (W.contents self.old.writer) (W.contents self.new.writer) piece.now) }
    {
        if self.failed {
            return Err(SinkFailed);
        }
        match self.writer.write(piece) {
            Ok(count) if count > 0 || piece.is_empty() => Ok(count),
            _ => {
                self.failed = true;
                Err(SinkFailed)
            }
        }
    }

    fn has_failed(&self) -> bool {
        self.failed
    }
}

/// Writes all bytes into a sink, or the bytes that it takes before it refuses a piece.
///
/// # Errors
///
/// `SinkFailed` if the sink had failed before, or if it refuses a piece. The sink then took a
/// prefix of the bytes, or nothing if it had failed before.
pub fn put_all<W: Sink>(sink: &mut W, bytes: &[u8]) -> Result<(), SinkFailed>
    ensures idle { W.failed sink.old ≡ true → sink.new ≡ sink.old }
    ensures all { OnOk result (Appends (W.taken sink.old) (W.taken sink.new) bytes.now) }
    ensures works { OnOk result (W.failed sink.new ≡ false) }
    ensures front { OnErr result (TookFront bytes.now (W.taken sink.old) (W.taken sink.new)) }
    ensures fails { OnErr result (W.failed sink.new ≡ true) }
{
    if sink.has_failed() {
        return Err(SinkFailed);
    }
    let mut rest = bytes;
    'pieces: while !rest.is_empty() {
        let count = sink.put(rest)?;
        rest = &rest[count..];
    }
    Ok(())
}
