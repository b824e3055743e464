//! Defines the options of a template's source.

ghost use Rattle.std.specs.Prelude.{◌≡◌};
ghost use Rattle.jt_scan.specs.SourceView.{usual_options};

/// The options that the source of a template is read with.
#[derive(Clone, Copy, Debug, PartialEq, Eq)]
pub struct Options {
    /// Whether one LF directly after a block tag or comment is dropped if its closer has no mark.
    pub trim_blocks: bool,
    /// Whether the spaces and tabs of a line before a block tag or comment are dropped if its
    /// opener has no mark.
    pub lstrip_blocks: bool,
    /// Whether one LF at the end of a source is kept. It is dropped otherwise.
    pub keep_trailing_newline: bool,
    /// Whether escaping is on at the start of the template.
    pub autoescape: bool,
    /// Whether an undefined value is a fault where it is printed, iterated over, joined by `~`, or
    /// the input of a filter other than `default`.
    pub strict: bool,
}

impl Options {
    /// Returns the default options: escaping is on, an LF at the end is dropped, and undefined
    /// values are no faults.
    pub fn new() -> Options
        ensures { result ≡ usual_options }
    {
        Options {
            trim_blocks: false,
            lstrip_blocks: false,
            keep_trailing_newline: false,
            autoescape: true,
            strict: false,
        }
    }
}
