//! Lists of words that blocks share.

ghost use Rattle.std.specs.Prelude.{◌≡◌, ◌<◌, IfOk, MatchOption, length};
ghost use Rattle.std.specs.List.{Contains};
ghost use Rattle.nichols_tensor.specs.Positions.{word_at};
ghost use Rattle.nichols_tensor.specs.WordOrder.{IsRising};

use nichols_words::Word;
use std::alloc::{AllocError, Global};
use std::marker::Model;
use std::sync::Arc;

/// A rising list of words, which a block and the blocks above it share.
#[derive(Drop)]
pub struct Words {
    items: Arc<Vec<Word>, Global>,
}

impl Model for Words {
    ghost use Rattle.std.specs.Prelude.{ℕ, List};
    ghost use Rattle.std.specs.Arc.{arc_value};
    ghost use Rattle.nichols_tensor.specs.WordOrder.{IsRising};

    ghost Value = { List (List ℕ) };

    ghost view = { λ w. (arc_value w.items).items };

    ghost invariant = { λ w. IsRising (arc_value w.items).items };
}

/// The place of a word in a list whose words rise, from 0 on: a search by the word order.
pub fn place_of(words: &[Word], word: &Word) -> Option<usize>
    requires { IsRising words.now }
    ensures { MatchOption result (Contains words.now word.now → ⊥) (λ k. (k < length words.now) × (word_at words.now k ≡ word.now)) }
{
    match words.binary_search(word) {
        Ok(place) => Some(place),
        Err(_) => None,
    }
}

impl Words {
    /// These words, to be shared.
    pub fn of(alloc: Global, words: Vec<Word>) -> Result<Words, AllocError>
        requires { IsRising words.items }
        ensures { IfOk result (λ w. w ≡ words.items) }
    {
        let items = Arc::new(alloc, words)?;
        Ok(Words { items })
    }

    /// The words; a caller learns here, too, that they rise.
    pub fn as_slice(&self) -> &[Word]
        ensures same { result.now ≡ self.now }
        ensures rising { IsRising self.now }
    {
        self.items.as_slice()
    }

    /// The same list, shared once more.
    pub fn copy(&self) -> Result<Words, AllocError>
        ensures { IfOk result (λ w. w ≡ self.now) }
    {
        let items = Arc::try_clone(&self.items)?;
        Ok(Words { items })
    }
}
