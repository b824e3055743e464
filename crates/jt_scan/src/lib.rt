//! Scans the source of a template into segments and tokens.
//!
//! `source` normalizes line ends. `scanner` splits the text into segments, with `endraw`, `find`
//! and `marks`. `tokens` reads the tokens of a tag, with `signs`, `numbers` and `quotes`. `options`
//! holds the options of a source. Read first: specs/Cut.antt, the relation between a source and its
//! segments.
#![tactic(auto)]

mod endraw;
mod error;
mod find;
mod marks;
mod numbers;
mod options;
mod quotes;
mod scanner;
mod segment;
mod signs;
mod source;
mod text;
mod tokens;

pub use error::ScanError;
pub use options::Options;
pub use quotes::text_value;
pub use scanner::scan;
pub use segment::{Mark, Marks, Segment, SegmentKind, Sign, Tag, TagKind, Token};
pub use source::Source;
pub use text::{behind_space, first, is_word};
