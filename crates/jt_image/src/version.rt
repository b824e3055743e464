//! Defines the versions of images.
ghost use Rattle.std.specs.Prelude.{◌≡◌};
ghost use Rattle.jt_image.specs.Spelling.{version_number};

/// The version of an image's format. In version 2 instructions have places.
#[derive(Clone, Copy, Debug, PartialEq, Eq)]
pub enum Version {
    One,
    Two,
}

impl Version {
    /// Returns the version number that an image stores.
    pub(crate) fn number(self) -> u16
        ensures { result ≡ version_number self }
    {
        match self {
            Version::One => 1,
            Version::Two => 2,
        }
    }
}
