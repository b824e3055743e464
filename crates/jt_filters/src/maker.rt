//! Makes values of operands. The texts of one ASCII character are shared, so a list of characters
//! takes little time and memory.
ghost use Rattle.std.specs.Prelude.{◌≡◌, true, IfOk, IfSome};
ghost use Rattle.jt_value.specs.Tree as tree;
ghost use Rattle.jt_value.specs.View.{view};

use jt_value::{NoMemory, Value};
use std::alloc::Global;

/// The number of ASCII characters.
const LETTERS: u8 = 128;

/// The least number of texts for which the letters are made. To make them takes as long as to make
/// some 100 texts.
const MANY: usize = 512;

/// An allocator, and the letters that are copied in place of new texts.
#[derive(Clone, Copy)]
pub(crate) struct Maker<'a> {
    pub(crate) alloc: Global,
    /// At the code of a character the text of it alone. Nothing is proved of the letters: each is
    /// compared before it is copied.
    letters: &'a [Value],
}

impl<'a> Maker<'a> {
    /// Returns the maker that copies these letters.
    pub(crate) fn new(alloc: Global, letters: &'a [Value]) -> Maker<'a> {
        Maker { alloc, letters }
    }

    /// Returns a plain text: a copy of a letter, or a new value.
    pub(crate) fn text(self, text: &str) -> Result<Value, NoMemory>
        ensures { IfOk result (λ v. view v ≡ tree.text text.now) }
    {
        match self.letter(text) {
            Some(letter) => Ok(letter),
            None => Value::text(self.alloc, text),
        }
    }

    /// Returns a copy of the letter with these characters, if there is one.
    fn letter(self, text: &str) -> Option<Value>
        ensures { IfSome result (λ v. view v ≡ tree.text text.now) }
    {
        let code = *text.as_bytes().first()?;
        let letter = self.letters.get(code as usize)?;
        if !is_text(letter, text) {
            return None;
        }
        match letter.try_clone(self.alloc) {
            Ok(letter) => Some(letter),
            Err(_) => None,
        }
    }
}

/// Returns whether a value is the plain text with these characters.
fn is_text(value: &Value, text: &str) -> bool
    ensures { result ≡ true → view value.now ≡ tree.text text.now }
{
    match value {
        Value::Text(own) => own.as_str() == text,
        _ => false,
    }
}

/// Returns the letters for a number of texts. There are none if the number is small, or if memory
/// for them is refused.
pub(crate) fn letters_for(alloc: Global, count: usize) -> Vec<Value> {
    if count < MANY {
        return Vec::new(alloc);
    }
    match letters(alloc) {
        Ok(letters) => letters,
        Err(_) => Vec::new(alloc),
    }
}

/// Returns the texts of one ASCII character, in the order of their codes.
fn letters(alloc: Global) -> Result<Vec<Value>, NoMemory> {
    let mut letters = Vec::with_capacity(alloc, LETTERS as usize)?;
    for code in 0..LETTERS {
        let mut text = String::new(alloc);
        text.push(code as char)?;
        letters.push(Value::from_text(text)?)?;
    }
    Ok(letters)
}
