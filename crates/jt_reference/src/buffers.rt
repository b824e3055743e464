//! Holds the reference machine's output: buffers, the open one last.
ghost use Rattle.std.specs.Prelude.{◌≡◌, ◌≤◌, OnOk};
ghost use Rattle.jt_reference.specs.internal.Output.{most};

use crate::end::End;
use jt_budget::Spent;
use std::alloc::Global;

/// The text of the run, the open captures, and the number of bytes that may still be emitted.
#[derive(Drop)]
pub(crate) struct Buffers {
    pub(crate) text: String,
    captures: Vec<String>,
    pub(crate) left: u64,
}

impl Buffers {
    pub(crate) fn new(alloc: Global, output: u64) -> Buffers
        ensures { most result ≡ output }
    {
        Buffers {
            text: String::new(alloc),
            captures: Vec::new(alloc),
            left: output,
        }
    }

    /// Emits a text to the open buffer.
    pub(crate) fn put(&mut self, text: &str) -> Result<(), End>
        ensures { OnOk result (most self.new ≤ most self.old) }
    {
        let bytes = text.len() as u64;
        if bytes > self.left {
            return Err(End::Spent(Spent::Output));
        }
        self.left -= bytes;
        match self.captures.last_mut() {
            Some(capture) => capture.push_str(text)?,
            None => self.text.push_str(text)?,
        }
        Ok(())
    }

    /// Opens a capture.
    pub(crate) fn open(&mut self, alloc: Global) -> Result<(), End>
        ensures { OnOk result (most self.new ≤ most self.old) }
    {
        self.captures.push(String::new(alloc))?;
        Ok(())
    }

    /// Closes the innermost capture and returns its text.
    pub(crate) fn close(&mut self) -> Result<String, End>
        ensures { OnOk result (most self.new ≤ most self.old) }
    {
        self.captures.pop().ok_or(End::Wrong)
    }
}
