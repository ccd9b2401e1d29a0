//! Words as columns of a matrix.

ghost use Rattle.std.specs.Prelude.{◌≡◌, ◌<◌, ◌^◌, length};
ghost use Rattle.nichols_tensor.specs.Words.{IsWordOver};
ghost use Rattle.nichols_plain.specs.Columns.{number_of};

use nichols_words::Word;

/// The number of a word among the words of its length over these letters, from 0, in word order.
pub(crate) fn column_of(letters: u8, word: &Word) -> u32
    requires letters { IsWordOver letters word.now }
    requires columns { letters ^ length word.now < 2 ^ 32 }
    ensures { result ≡ number_of letters word.now }
{
    let mut number: u32 = 0;
    for letter in word.letters() {
        number = number * u32::from(letters) + u32::from(*letter - 1);
    }
    number
}
