//! Combinations of words.

ghost use Rattle.std.specs.Prelude.{◌≡◌, ◌≢◌, ◌++◌, ◌∷◌, ◌↔◌, IfOk, IsTrue, List, ℕ, [], length, if◌then◌else◌};
ghost use Rattle.std.specs.Result.{OnErr, OnOk};
ghost use Rattle.nichols_field.specs.Field.{FieldValue, IsElement, IsField, plus, times};
ghost use Rattle.nichols_tensor.specs.Combination.{AllAmong, AllElements, same_letters, scalar_multiple, value_at, without_zeros, words_of};
ghost use Rattle.nichols_tensor.specs.WordOrder.{IsOrdered, IsRising};
ghost use Rattle.nichols_tensor.specs.Words.{HasDegree, IsOver, IsWordOver};
ghost use Rattle.nichols_words.specs.Comb.{coefficient_at};

use crate::merge::merge;
use crate::multiples::multiples;
use crate::{Term, Word};
use nichols_field::Field;
use std::alloc::{AllocError, Global};
use std::marker::Model;

/// A combination of words with coefficients in a field: terms whose words rise and whose coefficients aren't 0.
///
/// Its value at a word is the coefficient there, or 0. The field is no part of it: calls that compute take the field,
/// and ask that all coefficients are elements.
#[derive(Drop)]
pub struct Comb {
    terms: Vec<Term>,
}

impl Model for Comb {
    ghost use Rattle.nichols_tensor.specs.Combination.{Combination};
    ghost use Rattle.nichols_tensor.specs.WordOrder.{IsOrdered};

    ghost Value = { Combination };

    ghost view = { λ c. c.terms.items };

    ghost invariant = { λ c. IsOrdered c.terms.items };
}

impl Comb {
    /// The zero combination. It holds the allocator for terms that are put in later, and takes no memory.
    pub fn zero(alloc: Global) -> Comb
        ensures { result ≡ [] }
    {
        Comb {
            terms: Vec::new(alloc),
        }
    }

    /// The combination that has these terms, whose words rise and whose coefficients aren't 0. It takes no memory.
    pub fn from_terms(terms: Vec<Term>) -> Comb
        requires { IsOrdered terms.items }
        ensures { result ≡ terms.items }
    {
        Comb { terms }
    }

    /// A coefficient at one word. With coefficient 0 it is the zero combination.
    pub fn single(
        alloc: Global,
        field: Field,
        word: Word,
        coefficient: u32,
    ) -> Result<Comb, AllocError>
        requires { IsElement field coefficient }
        ensures terms { IfOk result (λ r. r ≡ without_zeros (record { word = word; coefficient = coefficient } ∷ [])) }
        ensures value { IfOk result (λ r. (w : List ℕ) → value_at field r w ≡ (if same_letters word w then coefficient else 0)) }
        ensures shape { IfOk result IsOrdered }
        ensures elements { IfOk result (AllElements field) }

        ensures letters { IfOk result (λ r. (n : ℕ) → IsWordOver n word → IsOver n r) }
        ensures degree { IfOk result (HasDegree (length word)) }
    {
        let _modulus = field.modulus();
        let mut comb = Comb::zero(alloc);
        if coefficient != 0 {
            comb.push(Term { word, coefficient })?;
        }
        Ok(comb)
    }

    /// Puts a term behind the others. On an error the combination is as before.
    pub fn push(&mut self, term: Term) -> Result<(), AllocError>
        requires after { IsRising (words_of self.old ++ term.word ∷ []) }
        requires nonzero { term.coefficient ≢ 0 }
        ensures pushed { OnOk result (self.new ≡ self.old ++ term ∷ []) }
        ensures kept { OnErr result (self.new ≡ self.old) }
    {
        self.terms.push(term)?;
        Ok(())
    }

    /// The terms, with rising words.
    pub fn terms(&self) -> &[Term]
        ensures same { result.now ≡ self.now }
        ensures shape { IsOrdered self.now }
    {
        self.terms.as_slice()
    }

    /// Whether this is the zero combination, which has no terms.
    pub fn is_zero(&self) -> bool
        ensures { IsTrue result ↔ (self.now ≡ []) }
    {
        self.terms.is_empty()
    }

    /// The coefficient at a word, or 0: a search by the word order.
    ///
    /// It is the value there in each field that has the coefficients as elements.
    pub fn coefficient(&self, word: &Word) -> u32
        ensures coefficient { result ≡ coefficient_at self.now word.now }
        ensures value { (field : FieldValue) → IsField field → AllElements field self.now → value_at field self.now word.now ≡ result }
    {
        match self.terms.binary_search_by_key(word, |term| term.word) {
            Ok(k) => self.terms[k].coefficient,
            Err(_) => 0,
        }
    }

    /// This combination plus a multiple of another.
    pub fn add_scaled(
        &self,
        alloc: Global,
        field: Field,
        by: u32,
        other: &Comb,
    ) -> Result<Comb, AllocError>
        requires factor { IsElement field by }
        requires left_elements { AllElements field self.now }
        requires right_elements { AllElements field other.now }
        ensures value { IfOk result (λ r. (w : List ℕ) → value_at field r w ≡ plus field (value_at field self.now w) (times field by (value_at field other.now w))) }
        ensures shape { IfOk result IsOrdered }
        ensures elements { IfOk result (AllElements field) }

        // No words but those of the two: so letters stay letters, and degrees stay degrees.
        ensures words { IfOk result (λ r. AllAmong r (words_of self.now ++ words_of other.now)) }
        ensures letters { IfOk result (λ r. (n : ℕ) → IsOver n self.now → IsOver n other.now → IsOver n r) }
        ensures degree { IfOk result (λ r. (m : ℕ) → HasDegree m self.now → HasDegree m other.now → HasDegree m r) }
    {
        let _modulus = field.modulus();
        let terms = merge(alloc, field, by, self.terms(), other.terms())?;
        Ok(Comb { terms })
    }

    /// A multiple of this combination.
    pub fn scale(&self, alloc: Global, field: Field, by: u32) -> Result<Comb, AllocError>
        requires factor { IsElement field by }
        requires coefficients { AllElements field self.now }
        ensures terms { IfOk result (λ r. r ≡ without_zeros (scalar_multiple field by self.now)) }
        ensures each_stays { IfOk result (λ r. by ≢ 0 → r ≡ scalar_multiple field by self.now) }
        ensures value { IfOk result (λ r. (w : List ℕ) → value_at field r w ≡ times field by (value_at field self.now w)) }
        ensures shape { IfOk result IsOrdered }
        ensures elements { IfOk result (AllElements field) }

        ensures letters { IfOk result (λ r. (n : ℕ) → IsOver n self.now → IsOver n r) }
        ensures degree { IfOk result (λ r. (m : ℕ) → HasDegree m self.now → HasDegree m r) }
    {
        let _modulus = field.modulus();
        let terms = multiples(alloc, field, by, self.terms())?;
        Ok(Comb { terms })
    }

    /// An equal combination in memory of its own.
    pub fn copy(&self, alloc: Global) -> Result<Comb, AllocError>
        ensures { IfOk result (λ r. r ≡ self.now) }
    {
        let terms = Vec::from_slice(alloc, self.terms())?;
        Ok(Comb { terms })
    }

    /// The terms, in the memory that the combination had.
    pub fn into_terms(self) -> Vec<Term>
        ensures same { result.items ≡ self }
        ensures shape { IsOrdered self }
    {
        let Comb { terms } = self;
        terms
    }
}
