//! Tests lines over files of which one call fails: the line names that file and writes nothing.

ghost use Rattle.jt_program.specs.Files.{anything};

use crate::lines::{Flaky, words_of};
use jt_disk::{Disk, performed};
use jt_machine::IoSink;
use jt_program::{FileError, Files, perform};
use std::alloc::Global;
use std::test::Fail;

/// Files in memory that fail after `left` calls.
#[derive(Drop)]
struct Failing {
    disk: Disk,
    left: usize,
}

impl Failing {
    /// Counts a call.
    ///
    /// # Errors
    ///
    /// `Failed` if no call is left.
    fn count(&mut self) -> Result<(), FileError> {
        self.left = self.left.checked_sub(1).ok_or(FileError::Failed)?;
        Ok(())
    }
}

impl Files for Failing {
    ghost Contents = { Unit {0} };

    ghost contents = { λ _. tt };

    ghost known = { λ _. anything };

    fn list(&mut self, dir: &str) -> Result<Vec<String>, FileError> {
        self.count()?;
        self.disk.list(dir)
    }

    fn read(&mut self, path: &str) -> Result<Vec<u8>, FileError> {
        self.count()?;
        self.disk.read(path)
    }

    fn write(&mut self, path: &str, bytes: &[u8]) -> Result<(), FileError> {
        self.count()?;
        self.disk.write(path, bytes)
    }
}

/// Returns a disk with two templates, a context, the image of a template, and a file at `out`.
fn disk(alloc: Global) -> Result<Disk, Fail> {
    let mut disk = Disk::new(alloc);
    disk.put("d/a", b"x{{ 1 }}")?;
    disk.put("d/b", b"y")?;
    disk.put("context", b"{}")?;
    disk.put("out", b"kept")?;
    let words = words_of(alloc, "compile d a image")?;
    let mut out = IoSink::new(Flaky::whole(alloc));
    let mut errors = IoSink::new(Flaky::whole(alloc));
    let _status = performed(alloc, &words, &mut disk, &mut out, &mut errors);
    Ok(disk)
}

/// Performs a line over files that fail after `left` calls. Returns the status, what was printed
/// and reported, and whether the file at `out` is as it was.
fn ended(alloc: Global, line: &str, left: usize) -> Result<String, Fail> {
    let disk = disk(alloc)?;
    let mut files = Failing { disk, left };
    let words = words_of(alloc, line)?;
    let mut out = IoSink::new(Flaky::whole(alloc));
    let mut errors = IoSink::new(Flaky::whole(alloc));
    let status = perform(alloc, &words, &mut files, &mut out, &mut errors);
    let is_kept = files.disk.read("out")?.as_slice() == b"kept".as_slice();
    let printed = out.into_inner().taken;
    let said = errors.into_inner().taken;
    Ok(format!(in alloc; "{status} [{printed}][{said}] {is_kept}")?)
}

/// Rows of the form `line => the file of each call`.
const ROWS: &str = "compile d a out => d d/a d/b out
    upgrade image out => image out
    render d a context => d d/a d/b context
    run image context => image context
    check image => image
    turns image context image context => image context image context";

#[test]
fn each_failing_call_is_named(rt: HostRuntime) -> Result<(), Fail> {
    for row in ROWS.lines() {
        let (line, paths) = row.trim().split_once(" => ").ok_or("a row has no =>")?;
        let mut calls = 0usize;
        for path in paths.split_whitespace() {
            let found = ended(rt.alloc(), line, calls)?;
            let wanted = format!(in rt.alloc(); "5 [][jt: file {path}\n] true")?;
            assert_eq!(rt; found.as_str(), wanted.as_str(), "{line}");
            calls = calls.saturating_add(1);
        }
        let found = ended(rt.alloc(), line, calls)?;
        assert!(rt; found.starts_with("0 ["), "{line}: {found}");
    }
    Ok(())
}
