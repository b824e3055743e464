//! Stores files in memory. Contracts state their contents in full.

ghost use Rattle.std.specs.Prelude.{◌≡◌, ◌≢◌, ℕ, List, Some, None, OnOk, IfSome, IfNone};
ghost use Rattle.jt_program.specs.Files.{path_in};
ghost use Rattle.jt_disk.specs.Disk.{IsName, file_at, known_of};

use jt_program::{FileError, Files};
use std::alloc::{AllocError, Global};
use std::collections::BTreeMap;

/// Files in memory, by their paths. Reading the path `memory` fails for lack of memory.
#[derive(Drop)]
pub struct Disk {
    alloc: Global,
    files: BTreeMap<String, Vec<u8>>,
}

impl Disk {
    /// Returns a disk without files.
    pub fn new(alloc: Global) -> Disk
        ensures { (path : List ℕ) → file_at result path ≡ None }
    {
        Disk {
            alloc,
            files: BTreeMap::new(alloc),
        }
    }

    /// Sets the contents of the file at `path` to `bytes`.
    ///
    /// # Errors
    ///
    /// `AllocError` if a growth is refused.
    pub fn put(&mut self, path: &str, bytes: &[u8]) -> Result<(), AllocError>
        ensures put { OnOk result (file_at self.new path.now ≡ Some bytes.now) }
        ensures others { (other : List ℕ)
            → other ≢ path.now
            → file_at self.new other ≡ file_at self.old other }
    {
        let path = String::from_str(self.alloc, path)?;
        let bytes = Vec::from_slice(self.alloc, bytes)?;
        self.files.insert(path, bytes)?;
        Ok(())
    }
}

/// Returns the name of the file at `path`, if it lies directly in `dir`.
fn name_in<'a>(dir: &str, path: &'a str) -> Option<&'a str>
    ensures name { IfSome result
        (λ name. (path.now ≡ path_in dir.now name.now) × IsName name.now) }
    ensures none { IfNone result
        ((name : List ℕ) → path.now ≡ path_in dir.now name → ¬ IsName name) }
{
    let name = path.strip_prefix(dir)?.strip_prefix('/')?;
    if name.contains('/') {
        return None;
    }
    Some(name)
}

impl Files for Disk {
    ghost use Rattle.jt_disk.specs.declared.disk.Disk.{Disk};

    ghost Contents = { Disk };

    ghost contents = { λ disk. disk };

    ghost known = { known_of };

    fn list(&mut self, dir: &str) -> Result<Vec<String>, FileError> {
        let mut names = Vec::new(self.alloc);
        for path in self.files.keys() {
            if let Some(name) = name_in(dir, path.as_str()) {
                names.push(String::from_str(self.alloc, name)?)?;
            }
        }
        Ok(names)
    }

    fn read(&mut self, path: &str) -> Result<Vec<u8>, FileError> {
        if path == "memory" {
            return Err(FileError::NoMemory);
        }
        match self.files.get(path) {
            Some(bytes) => Ok(Vec::from_slice(self.alloc, bytes.as_slice())?),
            None => Err(FileError::Failed),
        }
    }

    fn write(&mut self, path: &str, bytes: &[u8]) -> Result<(), FileError> {
        Ok(self.put(path, bytes)?)
    }
}
