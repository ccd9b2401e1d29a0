//! The slot of a word.

ghost use Rattle.std.specs.Prelude.{◌≡◌, ◌≤◌, ◌<◌};
ghost use Rattle.nichols_memo.specs.Hash.{hash_of, slot_of};

use nichols_words::Word;

/// The hash of a word: each letter b makes h, which begins as 0, `31 h + b`.
fn hash(word: &Word) -> u32
    ensures { result ≡ hash_of word.now }
{
    let mut h: u32 = 0;
    for letter in word.letters() {
        h = h.wrapping_mul(31).wrapping_add(u32::from(*letter));
    }
    h
}

/// The slot of a word, of so many.
pub(crate) fn slot_of(slots: u32, word: &Word) -> u32
    requires { 1 ≤ slots }
    ensures slot { result ≡ slot_of slots word.now }
    ensures inside { result < slots }
{
    hash(word) % slots
}
