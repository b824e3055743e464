//! Defines the sources of templates.

ghost use Rattle.std.specs.Prelude.{◌≡◌, ℕ, List, Option, option_map};

/// A library of template sources, by their names.
pub trait Library {
    /// The source of each name, both as bytes. It depends on the library alone, so a name has one
    /// source for as long as the library is borrowed.
    ghost sources: { Self → List ℕ → Option (List ℕ) };

    /// Returns the source of the template `name`, or `None` if the library has none.
    fn source(&self, name: &str) -> Option<&str>
        ensures { option_map (λ s. s.now) result ≡ sources self.now name.now };
}
