//! Words, kept inline.

ghost use Rattle.std.specs.Prelude.{◌≡◌, ◌<◌, ◌≤◌, ◌↔◌, ◌++◌, ◌∷◌, [], IsTrue, length, take, slice_index, slice_set};
ghost use Rattle.std.specs.Bool.{OnTrue, OnFalse};
ghost use Rattle.nichols_tensor.specs.declared.TheConstants.{LETTER_LIMIT, WORD_LIMIT};
ghost use Rattle.nichols_tensor.specs.Words.{IsLetterOf};
ghost use Rattle.nichols_words.specs.Word.{IsWord};

use nichols_tensor::{LETTER_LIMIT, WORD_LIMIT};
use std::marker::Model;

/// A word of at most [`WORD_LIMIT`] letters, each of them from 1 to [`LETTER_LIMIT`].
///
/// Words are ordered by length, and words of one length by their letters from the left.
#[derive(Clone, Copy)]
pub struct Word {
    len: u32,
    letters: [u8; WORD_LIMIT],
}

impl Model for Word {
    ghost use Rattle.std.specs.Prelude.{ℕ, List, take};
    ghost use Rattle.nichols_tensor.specs.declared.TheConstants.{LETTER_LIMIT, WORD_LIMIT};
    ghost use Rattle.nichols_tensor.specs.Inline.{IsInline};
    ghost use Rattle.nichols_tensor.specs.Words.{IsWordOver};

    ghost Value = { List ℕ };

    ghost view = { λ w. take w.len w.letters };

    ghost invariant = { λ w. IsInline WORD_LIMIT (IsWordOver LETTER_LIMIT) w.len w.letters };

    ghost use Rattle.nichols_words.specs.Fields.{fields_of, fields_back};

    ghost inverse = { fields_of };

    ghost inverse_ok = { fields_back };
}

impl Word {
    /// The empty word.
    pub fn empty() -> Word
        ensures { result ≡ [] }
    {
        Word {
            len: 0,
            letters: [0; WORD_LIMIT],
        }
    }

    /// The number of letters.
    pub fn len(&self) -> usize
        ensures value { result ≡ length self.now }
        ensures limit { result ≤ WORD_LIMIT }
    {
        self.len as usize
    }

    /// Whether the word has no letters.
    pub fn is_empty(&self) -> bool
        ensures { IsTrue result ↔ (self.now ≡ []) }
    {
        self.len == 0
    }

    /// The letter at index k, which counts from 0.
    pub fn letter(&self, k: usize) -> u8
        requires { k < length self.now }
        ensures value { result ≡ slice_index self.now k }
        ensures letter { IsLetterOf LETTER_LIMIT result }
    {
        self.letters[k]
    }

    /// The letters in order.
    ///
    /// A caller learns here, too, what holds of each word: how long it is, and which letters it has.
    pub fn letters(&self) -> &[u8]
        ensures same { result.now ≡ self.now }
        ensures word { IsWord self.now }
    {
        &self.letters[..self.len()]
    }

    /// The word of the first k letters.
    pub fn prefix(&self, k: usize) -> Word
        requires { k ≤ length self.now }
        ensures { result ≡ take k self.now }
    {
        let mut letters = self.letters;
        letters[k..].fill(0);
        Word {
            len: k as u32,
            letters,
        }
    }

    /// Puts another letter in the place of that at index k, which counts from 0.
    pub fn set(&mut self, k: usize, letter: u8)
        requires within { k < length self.old }
        requires letter { IsLetterOf LETTER_LIMIT letter }
        ensures { self.new ≡ slice_set self.old k letter }
    {
        self.letters[k] = letter;
    }

    /// Puts a letter behind the others. A full word, of [`WORD_LIMIT`] letters, stays as it is, and the answer is false.
    pub fn push(&mut self, letter: u8) -> bool
        requires { IsLetterOf LETTER_LIMIT letter }
        ensures room { IsTrue result ↔ (length self.old < WORD_LIMIT) }
        ensures pushed { OnTrue result (self.new ≡ self.old ++ letter ∷ []) }
        ensures full { OnFalse result (self.new ≡ self.old) }
    {
        if self.len as usize == WORD_LIMIT {
            return false;
        }
        self.letters[self.len as usize] = letter;
        self.len += 1;
        true
    }

    /// The word with a letter behind.
    pub fn followed_by(&self, letter: u8) -> Word
        requires room { length self.now < WORD_LIMIT }
        requires letter { IsLetterOf LETTER_LIMIT letter }
        ensures { result ≡ self.now ++ letter ∷ [] }
    {
        let mut longer = *self;
        let _room = longer.push(letter);
        longer
    }
}
