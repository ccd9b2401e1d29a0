//! Crossings of neighbouring letters.

ghost use Rattle.std.specs.Prelude.{◌≡◌, ◌<◌, ◌≤◌, length};
ghost use Rattle.nichols_field.specs.Field.{IsElement};
ghost use Rattle.nichols_tensor.specs.Words.{IsWordOver};
ghost use Rattle.nichols_braid.specs.Crossing.{cross, cross_scalar};

use nichols_braid::Braid;
use nichols_words::Word;

/// The crossing at place i, from 1: the letters a, b there become `a ▷ b`, a. The answer is the scalar `q(a, b)`.
///
/// It is the braiding of Andruskiewitsch and Graña, "From racks to pointed Hopf algebras", at two neighbouring places.
#[tactic(auto, using(nichols_tensor::proofs::Over::letter_over))]
pub fn cross_at(braid: &Braid, word: &mut Word, i: usize) -> u32
    requires first { 1 ≤ i }
    requires last { i < length word.old }
    requires letters { IsWordOver braid.now.letters word.old }
    ensures word { word.new ≡ cross braid.now i word.old }
    ensures scalar { result ≡ cross_scalar braid.now i word.old }
    ensures letters { IsWordOver braid.now.letters word.new }
    ensures length { length word.new ≡ length word.old }
    ensures element { IsElement braid.now.field result }
{
    let _field = braid.field();
    let left = word.letter(i - 1);
    let right = word.letter(i);
    word.set(i - 1, braid.act(left, right));
    word.set(i, left);
    braid.scalar(left, right)
}
