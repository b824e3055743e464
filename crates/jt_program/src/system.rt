//! Accesses the file system of the machine on which the program runs.

use crate::files::{FileError, Files};
use std::alloc::{AllocError, AllocFailed};
use std::fs::{File, Metadata, OpenFile, OpenOptions};
use std::io::{BufReader, Read, Write};
use std::os::unix::fs::{MetadataExt, OpenOptionsExt};
use std::rt::Runtime;
use std::{fs, io};

/// The file system that a runtime reaches.
#[derive(Drop)]
pub struct SystemFiles<'a, R> {
    rt: &'a R,
}

impl<'a, R> SystemFiles<'a, R> {
    ghost use Rattle.std.specs.Prelude.{◌≡◌};

    /// Returns the file system of a runtime.
    pub fn new(rt: &'a R) -> SystemFiles<'a, R>
        ensures { result.rt.now ≡ rt.now }
    {
        SystemFiles { rt }
    }
}

impl From<io::Error> for FileError {
    ghost use Rattle.std.specs.Prelude.{◌≡◌, ◌≢◌};
    ghost use Rattle.std.specs.IoError.{error_kind};
    ghost use Rattle.std.specs.declared.io.ErrorKind.TheVariants.{OutOfMemory};
    ghost use Rattle.jt_program.specs.declared.files.FileError.TheVariants.{Failed, NoMemory};

    // Lack of memory is distinguished from every other error.
    ghost from_gives = { λ error e. (error_kind error ≡ OutOfMemory → e ≡ NoMemory)
        × (error_kind error ≢ OutOfMemory → e ≡ Failed) };

    fn from(error: io::Error) -> FileError {
        if error.kind() == io::ErrorKind::OutOfMemory {
            FileError::NoMemory
        } else {
            FileError::Failed
        }
    }
}

impl From<AllocError> for FileError {
    ghost use Rattle.std.specs.Prelude.{◌≡◌};
    ghost use Rattle.jt_program.specs.declared.files.FileError.TheVariants.{NoMemory};

    ghost from_gives = { λ _ e. e ≡ NoMemory };

    fn from(_error: AllocError) -> FileError {
        FileError::NoMemory
    }
}

impl<T: Drop> From<AllocFailed<T>> for FileError {
    ghost use Rattle.std.specs.Prelude.{◌≡◌};
    ghost use Rattle.jt_program.specs.declared.files.FileError.TheVariants.{NoMemory};

    ghost from_gives = { λ _ e. e ≡ NoMemory };

    fn from(_error: AllocFailed<T>) -> FileError {
        FileError::NoMemory
    }
}

/// Returns the size that the system reports for a file, and 1 more, so that its end is reached
/// without a growth. Returns 0 if the system reports no size.
fn room_for<F: OpenFile>(file: &F) -> usize {
    match file.metadata() {
        Ok(known) => usize::try_from(known.len()).unwrap_or(0).saturating_add(1),
        Err(_) => 0,
    }
}

/// Creates the file at `part` that is to replace the file at `path`. Nobody may read it who may not
/// read the file at `path`. Returns `None` if there can be no such file, or if `path` is a link, a
/// device or a pipe.
fn new_part<R: Runtime>(rt: &R, part: &str, path: &str) -> Option<R::File> {
    match fs::symlink_metadata(rt, path) {
        Ok(old) => part_like(rt, part, path, &old),
        Err(error) if error.kind() == io::ErrorKind::NotFound => File::create_new(rt, part).ok(),
        Err(_) => None,
    }
}

/// Creates the file at `part` with the owner, the group and the permissions of `old`, the file at
/// `path`. Returns `None` if that is not possible, or if the file at `path` may not be written.
fn part_like<R: Runtime>(rt: &R, part: &str, path: &str, old: &Metadata) -> Option<R::File> {
    let may_write = OpenOptions::new().write(true).open(rt, path).is_ok();
    if !old.is_file() || !may_write {
        return None;
    }
    let mut options = OpenOptions::new();
    options.write(true).create_new(true).mode(old.mode());
    let file = options.open(rt, part).ok()?;
    if is_as_open(&file, old) {
        return Some(file);
    }
    let _ = fs::remove_file(rt, part);
    None
}

/// Gives a new file the permissions of `old`. Returns whether it then has these and the owner and
/// the group of `old`.
fn is_as_open<F: OpenFile>(file: &F, old: &Metadata) -> bool {
    match file.metadata() {
        Ok(new) if new.uid() == old.uid() && new.gid() == old.gid() => {
            file.set_permissions(old.permissions()).is_ok()
        }
        _ => false,
    }
}

/// Writes `bytes` to the new file at `part` and renames it to `path`. Returns whether it was
/// renamed: not if `path` is a mount point, for example. If not, the file at `part` is removed.
fn replace<R: Runtime>(
    rt: &R,
    mut file: R::File,
    part: &str,
    path: &str,
    bytes: &[u8],
) -> io::Result<bool> {
    let filled = file.write_all(bytes);
    let is_renamed = filled.is_ok() && fs::rename(rt, part, path).is_ok();
    if !is_renamed {
        let _ = fs::remove_file(rt, part);
    }
    filled?;
    Ok(is_renamed)
}

/// The path of standard input where a file is read, and of standard output where one is written.
const STANDARD: &str = "-";

/// Returns the bytes of standard input.
fn read_input<R: Runtime + AllocGlobal>(rt: &R) -> Result<Vec<u8>, FileError> {
    let mut bytes = Vec::new(rt.alloc());
    BufReader::new(rt.alloc(), rt.reader())?.read_to_end(&mut bytes)?;
    Ok(bytes)
}

impl<R: Runtime + AllocGlobal> Files for SystemFiles<'_, R> {
    ghost use Rattle.jt_program.specs.Files.{anything};

    ghost Contents = { Unit {0} };

    ghost contents = { λ _. tt };

    // Every result is possible, as for a machine's own files.
    ghost known = { λ _. anything };

    fn list(&mut self, dir: &str) -> Result<Vec<String>, FileError> {
        let mut names = Vec::new(self.rt.alloc());
        for entry in fs::read_dir(self.rt, dir)? {
            let entry = entry?;
            if entry.file_type()?.is_file() {
                names.push(String::from_str(self.rt.alloc(), entry.file_name())?)?;
            }
        }
        Ok(names)
    }

    fn read(&mut self, path: &str) -> Result<Vec<u8>, FileError> {
        if path == STANDARD {
            return read_input(self.rt);
        }
        let mut file = fs::open(self.rt, path)?;
        let mut bytes = Vec::with_capacity(self.rt.alloc(), room_for(&file))?;
        file.read_to_end(&mut bytes)?;
        Ok(bytes)
    }

    // The old contents stay until the new bytes are complete. These are written to a new file, at
    // `path` with `.part` after it, which is renamed. If that is not possible, the file at `path`
    // is written in place.
    fn write(&mut self, path: &str, bytes: &[u8]) -> Result<(), FileError> {
        if path == STANDARD {
            return Ok(io::writer(self.rt).write_all(bytes)?);
        }
        let part = format!(in self.rt.alloc(); "{path}.part")?;
        if let Some(file) = new_part(self.rt, part.as_str(), path)
            && replace(self.rt, file, part.as_str(), path, bytes)?
        {
            return Ok(());
        }
        Ok(fs::write(self.rt, path, bytes)?)
    }
}
