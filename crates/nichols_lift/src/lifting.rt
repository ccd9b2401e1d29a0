//! Lifts of permutations.

ghost use Rattle.std.specs.Prelude.{◌≡◌, length};
ghost use Rattle.nichols_field.specs.Field.{IsElement};
ghost use Rattle.nichols_tensor.specs.Words.{IsWordOver};
ghost use Rattle.nichols_braid.specs.Lift.{IsDescending, lift};
ghost use Rattle.nichols_lift.specs.ClosedForm.{closed_form};

use crate::crossing::cross_at;
use crate::perm::Perm;
use nichols_braid::Braid;
use nichols_words::Word;

/// The braiding's positive lift of a permutation, at a word of its length: the word and the scalar.
///
/// It crosses at the least descent until there is none. The source is Heckenberger and Schneider, "Hopf Algebras and Root Systems".
pub fn lift(braid: &Braid, perm: &Perm, word: &Word) -> (Word, u32)
    requires length { length word.now ≡ length perm.now }
    requires letters { IsWordOver braid.now.letters word.now }
    ensures word { result.0 ≡ (lift braid.now perm.now word.now).word }
    ensures scalar { result.1 ≡ (lift braid.now perm.now word.now).coefficient }
    ensures letters { IsWordOver braid.now.letters result.0 }
    ensures element { IsElement braid.now.field result.1 }
    ensures closed { lift braid.now perm.now word.now ≡ closed_form braid.now perm.now word.now }
{
    let field = braid.field();
    let _ends = perm.ends();
    let mut left = *perm;
    let mut crossed = *word;
    let mut scalar = 1;
    while let Some(place) = left.first_descent() {
        left.exchange(place);
        scalar = field.mul(scalar, cross_at(braid, &mut crossed, place));
    }
    (crossed, scalar)
}

/// The word and the scalar to which the crossings at these places, from 1, lead one after the other.
///
/// The list is descending for the permutation, so they are its lift (Andruskiewitsch and Graña, "From racks to pointed Hopf algebras";
/// Heckenberger and Schneider, "Hopf Algebras and Root Systems").
pub fn lift_by(braid: &Braid, perm: &Perm, list: &[u8], word: &Word) -> (Word, u32)
    requires length { length word.now ≡ length perm.now }
    requires letters { IsWordOver braid.now.letters word.now }
    requires list { IsDescending perm.now list.now }
    ensures word { result.0 ≡ (lift braid.now perm.now word.now).word }
    ensures scalar { result.1 ≡ (lift braid.now perm.now word.now).coefficient }
    ensures letters { IsWordOver braid.now.letters result.0 }
    ensures element { IsElement braid.now.field result.1 }
    ensures closed { lift braid.now perm.now word.now ≡ closed_form braid.now perm.now word.now }
{
    let field = braid.field();
    let _ends = perm.ends();
    let mut crossed = *word;
    let mut scalar = 1;
    for place in list {
        let met = cross_at(braid, &mut crossed, usize::from(*place));
        scalar = field.mul(scalar, met);
    }
    (crossed, scalar)
}
