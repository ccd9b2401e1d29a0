//! Products of words, kept inline.

ghost use Rattle.std.specs.Prelude.{◌≡◌, ◌≤◌, ◌++◌, ◌∷◌, ℕ, List, [], length};
ghost use Rattle.nichols_tensor.specs.declared.TheConstants.{LETTER_LIMIT};
ghost use Rattle.nichols_tensor.specs.Words.{up_to};
ghost use Rattle.nichols_braid.specs.Braid.{BraidValue, IsLetter};
ghost use Rattle.nichols_braid.specs.Product.{IsProduct, product_after, product_before, product_of};

use crate::Braid;
use nichols_tensor::LETTER_LIMIT;
use std::cmp::Ordering;
use std::marker::Model;

/// The images that are kept inline, one for each letter that a braid may have.
pub(crate) const ROOM: usize = LETTER_LIMIT as usize;

/// The product of a word: the composite of its letters' maps, as the images of the letters from 1 on.
///
/// It is a permutation of 1 to [`LETTER_LIMIT`] letters. Products are ordered by their images from the first letter on.
#[derive(Clone, Copy)]
pub struct Product {
    letters: u8,
    images: [u8; ROOM],
}

impl Model for Product {
    ghost use Rattle.std.specs.Prelude.{ℕ, List, take};
    ghost use Rattle.nichols_tensor.specs.Inline.{IsInline};
    ghost use Rattle.nichols_braid.specs.declared.product.TheConstants.{ROOM};
    ghost use Rattle.nichols_braid.specs.Product.{IsProduct};

    ghost Value = { List ℕ };

    ghost view = { λ p. take p.letters p.images };

    ghost invariant = { λ p. IsInline ROOM IsProduct p.letters p.images };

    ghost use Rattle.nichols_braid.specs.ProductFields.{fields_of, fields_back};

    ghost inverse = { fields_of };

    ghost inverse_ok = { fields_back };
}

impl Product {
    /// The product of the empty word: each letter is its own image.
    pub fn identity(letters: u8) -> Product
        requires least { 1 ≤ letters }
        requires most { letters ≤ LETTER_LIMIT }
        ensures value { result ≡ up_to letters }
        ensures size { length result ≡ letters }
        ensures word { (braid : BraidValue) → braid.letters ≡ letters → result ≡ product_of braid [] }
    {
        let mut images = [0; ROOM];
        for j in 0..letters {
            images[usize::from(j)] = j + 1;
        }
        Product { letters, images }
    }

    /// The images of the letters, from letter 1 on; a caller learns here, too, what holds of each product.
    pub fn images(&self) -> &[u8]
        ensures same { result.now ≡ self.now }
        ensures product { IsProduct self.now }
        ensures most { length self.now ≤ LETTER_LIMIT }
    {
        &self.images[..usize::from(self.letters)]
    }

    /// The product with the letter a behind: self after the map of a.
    pub fn times(&self, braid: &Braid, a: u8) -> Product
        requires letters { length self.now ≡ braid.now.letters }
        requires letter { IsLetter braid.now a }
        ensures value { result ≡ product_after braid.now a self.now }
        ensures size { length result ≡ braid.now.letters }
        ensures word { (w : List ℕ) → self.now ≡ product_of braid.now w → result ≡ product_of braid.now (w ++ a ∷ []) }
    {
        let row = braid.row(a);
        let own = self.images();
        let mut images = [0; ROOM];
        for j in 0..row.len() {
            images[j] = own[usize::from(row[j]) - 1];
        }
        Product {
            letters: self.letters,
            images,
        }
    }

    /// The product before the letter a: self after the inverse of the map of a.
    pub fn back(&self, braid: &Braid, a: u8) -> Product
        requires letters { length self.now ≡ braid.now.letters }
        requires letter { IsLetter braid.now a }
        ensures value { result ≡ product_before braid.now a self.now }
        ensures size { length result ≡ braid.now.letters }
        ensures word { (w : List ℕ) → self.now ≡ product_of braid.now (w ++ a ∷ []) → result ≡ product_of braid.now w }
    {
        let row = braid.row(a);
        let own = self.images();
        let mut images = [0; ROOM];
        for j in 0..row.len() {
            images[usize::from(row[j]) - 1] = own[j];
        }
        Product {
            letters: self.letters,
            images,
        }
    }
}

impl PartialEq for Product {
    ghost use Rattle.std.proofs.Common.{rules};
    ghost use Rattle.std.specs.Cmp.Rules.{comparing};
    ghost use Rattle.nichols_tensor.specs.Combination.{same_letters};

    ghost eq = { same_letters };

    ghost laws = { Prim.search (comparing, rules) };

    fn eq(&self, other: &Product) -> bool {
        self.images() == other.images()
    }
}

impl Eq for Product {
    ghost use Rattle.std.proofs.Common.{rules};
    ghost use Rattle.std.specs.Cmp.Rules.{comparing};

    ghost laws = { Prim.search (comparing, rules) };
}

impl PartialOrd for Product {
    ghost use Rattle.std.proofs.Common.{rules};
    ghost use Rattle.std.specs.Cmp.Lexicographic.{slice_cmp};
    ghost use Rattle.std.specs.Cmp.Rules.{comparing};
    ghost use Rattle.std.specs.Ordering.{as_partial_cmp, nat_cmp};

    ghost partial_cmp = { as_partial_cmp (slice_cmp nat_cmp) };

    ghost laws = { Prim.search (comparing, rules) };

    fn partial_cmp(&self, other: &Product) -> Option<Ordering> {
        Some(self.cmp(other))
    }
}

impl Ord for Product {
    ghost use Rattle.std.proofs.Common.{rules};
    ghost use Rattle.std.proofs.lemmas.Cmp.{nat_list_cmp_total};
    ghost use Rattle.std.specs.Cmp.Lexicographic.{slice_cmp};
    ghost use Rattle.std.specs.Cmp.Rules.{comparing};
    ghost use Rattle.std.specs.Ordering.{nat_cmp};

    ghost cmp = { slice_cmp nat_cmp };

    ghost total = { nat_list_cmp_total };

    ghost matches_partial_cmp = { Prim.search (comparing, rules) };

    ghost matches_eq = { Prim.search (comparing, rules) };

    fn cmp(&self, other: &Product) -> Ordering {
        self.images().cmp(other.images())
    }
}
