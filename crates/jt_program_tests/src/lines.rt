//! Tests lines over a disk: their statuses, outputs and reports.

use jt_disk::{Disk, performed};
use jt_machine::IoSink;
use std::alloc::Global;
use std::io;
use std::test::Fail;

/// A writer that takes one byte per call, and fails once, after `left` bytes.
#[derive(Drop)]
pub(crate) struct Flaky {
    pub(crate) taken: String,
    left: usize,
}

impl Flaky {
    /// Returns a writer that never fails.
    pub(crate) fn whole(alloc: Global) -> Flaky {
        Flaky {
            taken: String::new(alloc),
            left: usize::MAX,
        }
    }
}

impl io::Write for Flaky {
    fn write(&mut self, buf: &[u8]) -> io::Result<usize> {
        let Some(byte) = buf.first() else {
            return Ok(0);
        };
        if self.left == 0 || self.taken.push(char::from(*byte)).is_err() {
            self.left = usize::MAX;
            return Err(io::Error::from(io::ErrorKind::BrokenPipe));
        }
        self.left -= 1;
        Ok(1)
    }

    fn flush(&mut self) -> io::Result<()> {
        Ok(())
    }
}

/// Performs a line over a disk, and returns its status.
fn status(
    alloc: Global,
    line: &str,
    disk: &mut Disk,
    out: &mut IoSink<Flaky>,
    errors: &mut IoSink<Flaky>,
) -> Result<u8, Fail> {
    let words = words_of(alloc, line)?;
    Ok(performed(alloc, &words, disk, out, errors))
}

/// Returns the words of a line.
pub(crate) fn words_of(alloc: Global, line: &str) -> Result<Vec<&str>, Fail> {
    let mut words = Vec::new(alloc);
    for word in line.split_whitespace() {
        words.push(word)?;
    }
    Ok(words)
}

/// Performs two lines over a disk of three templates and a context. Returns the statuses, the
/// output of a sink that fails after `left` bytes, and the reported lines.
fn ended(alloc: Global, left: usize, lines: &str) -> Result<String, Fail> {
    let mut disk = Disk::new(alloc);
    disk.put("d/a", b"x{{ 1 }}")?;
    disk.put("d/e/b", b"y")?;
    disk.put("d/faulty", b"{{ no.x }}")?;
    disk.put("none", b"{}")?;
    let taken = String::new(alloc);
    let mut out = IoSink::new(Flaky { taken, left });
    let mut errors = IoSink::new(Flaky::whole(alloc));
    let (line, behind) = lines.split_once(" ; ").ok_or("a row has one line")?;
    let first = status(alloc, line, &mut disk, &mut out, &mut errors)?;
    let second = status(alloc, behind, &mut disk, &mut out, &mut errors)?;
    let printed = out.into_inner().taken;
    let said = errors.into_inner().taken;
    Ok(format!(in alloc; "{first} {second} [{printed}][{said}]")?)
}

/// Rows of the form `left: line ; line => statuses [printed][reported]`.
const ROWS: &str = "9: compile d a out ; run out => 0 0 [x1][]
    9: compile d/e b out ; run out => 0 0 [y][]
    9: compile d b out ; run out => 3 5 [][jt: refused C1 Missing/jt: file out/]
    9: compile d a d/a ; run out => 0 5 [][jt: file out/]
    9: check d/a ; run out => 3 5 [][jt: refused I1 BadMagic/jt: file out/]
    9: render d faulty ; turns => 1 2 [][jt: fault F2 Undefined in faulty line 1/jt: usage/]
    9: compile d a out ; run out --fuel 1 => 0 4 [][jt: spent Fuel/]
    9: compile d a out ; upgrade out new => 0 0 [][]
    99: compile d a out ; turns out none => 0 0 [1 text 2:x1/][]
    99: compile d a out ; check out => 0 0 [ok units=1 instructions=4/][]
    9: run d/b ; run memory => 5 6 [][jt: file d/b/jt: no memory/]
    9: compile memory a out ; run out => 3 5 [][jt: refused C1 Missing/jt: file out/]
    9: run a\u{1b}b ; run \u{7f} => 5 5 [][jt: file a\\x1bb/jt: file \\x7f/]
    2: render d a ; render d/e b => 0 5 [x1][jt: file -/]
    1: render d a ; render d/e b => 5 5 [x][jt: file -/jt: file -/]";

#[test]
fn lines_leave_their_images(rt: HostRuntime) -> Result<(), Fail> {
    for row in ROWS.lines() {
        let (left, row) = row.trim().split_once(": ").ok_or("a row has no number")?;
        let (lines, wanted) = row.split_once(" => ").ok_or("a row has no =>")?;
        let found = ended(rt.alloc(), left.parse::<usize>()?, lines)?;
        let said = found.replace(rt.alloc(), "\n", "/")?;
        assert_eq!(rt; said.as_str(), wanted, "{lines}");
    }
    Ok(())
}
