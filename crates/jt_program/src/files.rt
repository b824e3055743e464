//! Defines the interface of the program to a file system.

ghost use Rattle.std.specs.Prelude.{◌≡◌, ◌≢◌, ◌↔◌, ℕ, List, map, IfOk, IsErrOf, OnOk, string_bytes};
ghost use Rattle.jt_program.specs.Files.{Known};

/// The reason why a file could not be listed, read or written.
#[derive(Clone, Copy, Debug, PartialEq, Eq)]
pub enum FileError {
    /// A refusal of the file system.
    Failed,
    /// A refused growth.
    NoMemory,
}

/// Files by their paths.
pub trait Files {
    /// The type of the contents of files, as far as they are known.
    ghost Contents: { Type 0 };

    /// The contents of the files.
    ghost contents: { Self → Contents };

    /// What is known of files with some contents.
    ghost known: { Contents → Known };

    /// Returns the names of the regular files directly in `dir`, in no order. The contents stay.
    fn list(&mut self, dir: &str) -> Result<Vec<String>, FileError>
        ensures names { IfOk result (λ names. (known (contents self.old)).lists dir.now
            (map string_bytes names.items)) }
        ensures failed { IsErrOf result FileError.Failed
            → (known (contents self.old)).fails dir.now }
        ensures kept { contents self.new ≡ contents self.old };

    /// Returns the bytes of the file at `path`. The contents stay.
    fn read(&mut self, path: &str) -> Result<Vec<u8>, FileError>
        ensures bytes { IfOk result
            (λ bytes. (known (contents self.old)).holds path.now bytes.items) }
        ensures failed { IsErrOf result FileError.Failed
            → (known (contents self.old)).fails path.now }
        ensures kept { contents self.new ≡ contents self.old };

    /// Sets the contents of the file at `path` to `bytes`. If that fails, the file may hold
    /// anything. Every other path keeps its bytes, or has no file as before.
    fn write(&mut self, path: &str, bytes: &[u8]) -> Result<(), FileError>
        ensures written { OnOk result ((known (contents self.new)).holds path.now bytes.now) }
        ensures others { (other bytes : List ℕ)
            → other ≢ path.now
            → ((known (contents self.new)).holds other bytes)
            ↔ ((known (contents self.old)).holds other bytes) }
        ensures failed { IsErrOf result FileError.Failed
            → (known (contents self.old)).fails path.now };
}
