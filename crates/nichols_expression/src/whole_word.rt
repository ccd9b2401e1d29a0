//! Texts that are one word.

ghost use Rattle.std.specs.Prelude.{◌≡◌, ◌≤◌, IfSome, length};
ghost use Rattle.nichols_tensor.specs.Words.{IsWordOver};
ghost use Rattle.nichols_tensor.specs.declared.TheConstants.{LETTER_LIMIT};
ghost use Rattle.nichols_expression.specs.WholeWord.{read_whole, word_of};
ghost use Rattle.nichols_expression.specs.Reader.{word_at};

use crate::ranks::ranked_word;
use crate::words::read_word;
use nichols_braid::{Braid, Order};
use nichols_words::Word;

/// The word in letters that a text is, where nothing stands before or behind it.
#[tactic(auto, using(crate::proofs::WholeWords::whole_is, crate::proofs::WholeWords::longer_is, crate::proofs::WholeWords::stopped_is, crate::proofs::WholeWords::read_over))]
fn whole_word(text: &[u8], letters: u8) -> Option<Word>
    requires { letters ≤ LETTER_LIMIT }
    ensures value { result ≡ read_whole (word_at letters text.now) }
    ensures letters { IfSome result (IsWordOver letters) }
{
    match read_word(text, 0, letters) {
        Ok(read) => {
            if read.1 != text.len() {
                return None;
            }
            Some(read.0)
        }
        Err(_) => None,
    }
}

/// The word that a text is, over the letters of a braid on ranks: exactly the printed word, which is `e` or letters from 1 to n
/// between dots. The text has letters, and the word their ranks in the order.
#[tactic(auto, using(crate::proofs::WholeWords::ranks_over), unfolding(crate::specs::WholeWord::word_of))]
pub fn read_whole_word(braid: &Braid, order: &Order, text: &str) -> Option<Word>
    requires { length order.now ≡ braid.now.letters }
    ensures value { result ≡ word_of braid.now.letters order.now text.now }
    ensures letters { IfSome result (IsWordOver braid.now.letters) }
{
    let _list = order.list();
    match whole_word(text.as_bytes(), braid.letters()) {
        Some(word) => Some(ranked_word(order, &word)),
        None => None,
    }
}
