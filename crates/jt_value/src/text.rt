//! Stores the characters of texts and of keys.
ghost use Rattle.std.specs.Prelude.{◌≡◌, ◌<◌, ◌^◌, ◌==◌, length, nat_eq, refl, string_bytes, IfOk};
ghost use Rattle.std.specs.Prelude.{Some};
ghost use Rattle.std.specs.Cmp.{partial_equiv_from_equiv};
ghost use Rattle.std.specs.Cmp.Lexicographic.{pointwise, slice_cmp, nat_list_eq_equiv};
ghost use Rattle.std.specs.Cmp.Lexicographic.{nat_list_cmp_total, texts_po, texts_ties};
ghost use Rattle.std.specs.Ordering.{nat_cmp};
ghost use Rattle.std.specs.Cmp.Rules.{hashing};
ghost use Rattle.std.specs.Hash as fed;
ghost use Rattle.std.proofs.Common.{rules};

use crate::fault::NoMemory;
use arrayvec::ArrayString;
use std::alloc::{AllocError, Global};
use std::cmp::Ordering;
use std::fmt;
use std::hash::{Hash, Hasher};
use std::marker::Model;
use std::ops::DerefStr;
use std::rc::Rc;

/// The characters of a text or of a key. A copy shares them.
#[derive(Drop)]
pub struct Text {
    chars: Rc<Chars>,
}

/// Characters as they are stored.
#[derive(Drop)]
enum Chars {
    /// At most 24 bytes, in the block of the number of owners.
    Short(ArrayString<24>),
    /// A string with a block of its own.
    Long(String),
}

impl Model for Text {
    ghost use Rattle.std.specs.Prelude.{ℕ, List};

    ghost Value = { List ℕ };

    ghost use Rattle.jt_value.specs.Text.{text_view};

    ghost view = { text_view };
}

impl Text {
    /// Returns the text of these characters. Copies them.
    ///
    /// # Errors
    ///
    /// `NoMemory` if a growth is refused.
    #[inline]
    pub fn from_str(alloc: Global, text: &str) -> Result<Text, NoMemory>
        ensures { IfOk result (λ t. t ≡ text.now) }
    {
        let chars = match ArrayString::from(text) {
            Ok(few) => Chars::Short(few),
            Err(_) => Chars::Long(String::from_str(alloc, text)?),
        };
        Ok(Text {
            chars: Rc::new(alloc, chars)?,
        })
    }

    /// Returns the text of a string. Takes a long string without copying it.
    ///
    /// # Errors
    ///
    /// `NoMemory` if a growth is refused. The string is then dropped.
    pub fn from_string(text: String) -> Result<Text, NoMemory>
        ensures { IfOk result (λ t. t ≡ string_bytes text) }
    {
        let alloc = *text.allocator();
        let chars = match ArrayString::from(text.as_str()) {
            Ok(few) => Chars::Short(few),
            Err(_) => Chars::Long(text),
        };
        Ok(Text {
            chars: Rc::new(alloc, chars)?,
        })
    }

    /// Returns the characters.
    #[inline]
    pub fn as_str(&self) -> &str
        ensures { result.now ≡ self.now }
    {
        match self.chars.as_ref() {
            Chars::Short(text) => text.as_str(),
            Chars::Long(text) => text.as_str(),
        }
    }

    /// Returns the number of bytes.
    #[inline]
    pub fn len(&self) -> usize
        ensures value { result ≡ length self.now }
        ensures fits { result < 2 ^ 63 }
    {
        self.as_str().len()
    }

    /// Returns whether there are no characters.
    #[inline]
    pub fn is_empty(&self) -> bool
        ensures { result ≡ (length self.now == 0) }
    {
        self.len() == 0
    }
}

impl Clone for Text {
    ghost is_clone = { λ text copy. copy ≡ text };

    #[inline]
    fn clone(&self) -> Result<Text, AllocError> {
        Ok(Text {
            chars: self.chars.clone()?,
        })
    }
}

impl DerefStr for Text {
    ghost deref_gives = { λ text bytes. bytes ≡ text };

    #[inline]
    fn deref(&self) -> &str {
        self.as_str()
    }
}

impl PartialEq for Text {
    ghost eq = { pointwise nat_eq };

    ghost laws = { partial_equiv_from_equiv nat_list_eq_equiv };

    fn eq(&self, other: &Text) -> bool {
        self.as_str() == other.as_str()
    }
}

impl Eq for Text {
    ghost laws = { nat_list_eq_equiv };
}

impl PartialOrd for Text {
    ghost partial_cmp = { λ x y. Some (slice_cmp nat_cmp x y) };

    ghost laws = { texts_po };

    fn partial_cmp(&self, other: &Text) -> Option<Ordering> {
        Some(self.cmp(other))
    }
}

impl Ord for Text {
    ghost cmp = { slice_cmp nat_cmp };

    ghost total = { nat_list_cmp_total };

    ghost matches_partial_cmp = { λ x y. refl };

    ghost matches_eq = { texts_ties };

    fn cmp(&self, other: &Text) -> Ordering {
        self.as_str().cmp(other.as_str())
    }
}

impl Hash for Text {
    ghost hash_input = { fed.str };

    ghost respects_eq = { Prim.search (hashing, rules) };

    fn hash<H: Hasher>(&self, state: &mut H) {
        self.as_str().hash(state);
    }
}

impl fmt::Display for Text {
    ghost output = { λ text. Some text };

    fn fmt<W: fmt::Write>(&self, f: &mut fmt::Formatter<W>) -> fmt::Result {
        fmt::Display::fmt(&self.as_str(), f)
    }
}
