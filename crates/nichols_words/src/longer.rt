//! Words with a letter behind.

ghost use Rattle.std.specs.Prelude.{◌≡◌, ◌<◌, ◌≤◌, ◌++◌, ◌∷◌, [], IfOk, length, map};
ghost use Rattle.std.specs.Result.{OnOk};
ghost use Rattle.std.specs.List.{AllByRecursion};
ghost use Rattle.nichols_tensor.specs.declared.TheConstants.{LETTER_LIMIT, WORD_LIMIT};
ghost use Rattle.nichols_tensor.specs.Words.{up_to, with_letters};

use crate::Word;
use std::alloc::{AllocError, Global};

/// Puts a word with each letter behind, behind the words that are there.
fn put_followed(longer: &mut Vec<Word>, letters: u8, word: &Word) -> Result<(), AllocError>
    requires letters { letters ≤ LETTER_LIMIT }
    requires room { length word.now < WORD_LIMIT }
    ensures { OnOk result (longer.new.items ≡ longer.old.items ++ map (λ b. word.now ++ b ∷ []) (up_to letters)) }
{
    for i in 0..letters {
        longer.push(word.followed_by(i + 1))?;
    }
    Ok(())
}

/// The words of a list, each with each of the letters from 1 to `letters` behind, in order.
pub fn with_letters(alloc: Global, letters: u8, words: &[Word]) -> Result<Vec<Word>, AllocError>
    requires letters { letters ≤ LETTER_LIMIT }
    requires room { AllByRecursion (λ w. length w < WORD_LIMIT) words.now }
    ensures { IfOk result (λ longer. longer.items ≡ with_letters letters words.now) }
{
    let mut longer = Vec::new(alloc);
    for word in words {
        put_followed(&mut longer, letters, word)?;
    }
    Ok(longer)
}
