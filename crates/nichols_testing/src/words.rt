//! Words and combinations, compared with texts.

ghost use Rattle.std.specs.Prelude.{IfSome};
ghost use Rattle.nichols_tensor.specs.Words.{IsWordOver};

use nichols_braid::Braid;
use nichols_tensor::LETTER_LIMIT;
use nichols_words::{Comb, Word};

/// The word that a text spells, as "3.1.2", or "" for the empty word. What is no letter, or has no room, is left out.
pub fn word(text: &str) -> Word {
    let mut word = Word::empty();
    for letter in text.split('.') {
        if let Ok(letter) = letter.parse() {
            if 1 <= letter && letter <= LETTER_LIMIT {
                let _put = word.push(letter);
            }
        }
    }
    word
}

/// The word that a text spells, where each of its letters is one of the braid.
pub fn word_over(braid: &Braid, text: &str) -> Option<Word>
    ensures { IfSome result (IsWordOver braid.now.letters) }
{
    let _field = braid.field();
    let mut found = Word::empty();
    for &letter in word(text).letters() {
        if letter < 1 || letter > braid.letters() || !found.push(letter) {
            return None;
        }
    }
    Some(found)
}

/// Whether these are the words of the texts, in this order.
pub fn has_words(words: &[Word], expected: &[&str]) -> bool {
    words.len() == expected.len()
        && words
            .iter()
            .zip(expected)
            .all(|(found, text)| *found == word(text))
}

/// Whether a combination has these terms, in this order.
pub fn has_terms(comb: &Comb, expected: &[(&str, u32)]) -> bool {
    let terms = comb.terms();
    terms.len() == expected.len()
        && terms.iter().zip(expected).all(|(term, (text, coefficient))| term.word == word(text)
            && term.coefficient == *coefficient)
}
