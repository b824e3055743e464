//! Writes to standard output and standard error, and says nothing once nobody reads the output.

use std::cell::Cell;
use std::io;

/// A writer that notes whether its reading end is closed.
#[derive(Drop)]
pub(crate) struct Piped<'a, W> {
    writer: W,
    is_closed: &'a Cell<bool>,
}

impl<'a, W> Piped<'a, W> {
    /// Returns a writer that sets `is_closed` once the reading end of `writer` is closed.
    pub(crate) fn new(writer: W, is_closed: &'a Cell<bool>) -> Piped<'a, W> {
        Piped { writer, is_closed }
    }
}

impl<W: io::Write> io::Write for Piped<'_, W> {
    fn write(&mut self, piece: &[u8]) -> io::Result<usize> {
        let result = self.writer.write(piece);
        if let Err(error) = &result
            && error.kind() == io::ErrorKind::BrokenPipe
        {
            self.is_closed.set(true);
        }
        result
    }

    fn flush(&mut self) -> io::Result<()> {
        self.writer.flush()
    }
}

/// A writer of reasons, which takes none once the output has no reader: whoever closed it, as
/// `head` does, needs no reason.
#[derive(Drop)]
pub(crate) struct Reasons<'a, W> {
    writer: W,
    is_closed: &'a Cell<bool>,
}

impl<'a, W> Reasons<'a, W> {
    /// Returns a writer that takes bytes for `writer` until `is_closed` is set.
    pub(crate) fn new(writer: W, is_closed: &'a Cell<bool>) -> Reasons<'a, W> {
        Reasons { writer, is_closed }
    }
}

impl<W: io::Write> io::Write for Reasons<'_, W> {
    fn write(&mut self, piece: &[u8]) -> io::Result<usize> {
        if self.is_closed.get() {
            return Err(io::Error::from(io::ErrorKind::BrokenPipe));
        }
        self.writer.write(piece)
    }

    fn flush(&mut self) -> io::Result<()> {
        self.writer.flush()
    }
}
