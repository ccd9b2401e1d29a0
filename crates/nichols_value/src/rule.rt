//! The rule of a block.

ghost use Rattle.std.specs.Prelude.{◌≡◌, ◌<◌, ◌≤◌, ◌-◌, [], IfOk, Some, is_some, length, slice_index_or, true};
ghost use Rattle.nichols_tensor.specs.declared.TheConstants.{LETTER_LIMIT};
ghost use Rattle.nichols_tensor.specs.Positions.{word_at};
ghost use Rattle.nichols_tensor.specs.WordOrder.{IsRising};
ghost use Rattle.nichols_value.specs.Rule.{below_in, derivs_in, left_in, right_in, without_upper};
ghost use Rattle.nichols_value.specs.Kept.{AreCellsOf, AreEnds, AreEndsOf, IsShaped, IsUpperShaped, rule_by, upper_by};

use crate::ends::Ends;
use crate::form::{Form, LentRelation};
use crate::key::BlockKey;
use crate::spot::Spot;
use crate::words::Words;
use nichols_echelon::{Cell, Rows};
use nichols_words::Word;
use std::alloc::AllocError;
use std::marker::Model;

/// What serves the degree above alone: by letter a, from letter 1 on, the derivatives by a of the least words, and the normal
/// forms of `a v` for the least words v of one letter less for which it has the block's product; and where each least word stands
/// below without its end letters.
#[derive(Drop)]
pub struct Upper {
    derivs: Vec<Rows>,
    left: Vec<Rows>,
    ends: Vec<Ends>,
}

/// The rule of a block: its least words, its relations and the normal forms of its candidates, as rows of places.
#[derive(Drop)]
pub struct BlockRule {
    pub(crate) key: BlockKey,
    basis: Words,
    below: Vec<Words>,
    right: Vec<Rows>,
    spots: Vec<Spot>,
    upper: Option<Upper>,
}

impl Model for BlockRule {
    ghost use Rattle.std.specs.Prelude.{MatchOption, option_map};
    ghost use Rattle.nichols_value.specs.Rule.{PlainRule};
    ghost use Rattle.nichols_value.specs.Kept.{AreEnds, rule_by, upper_by, IsShaped, IsUpperShaped};

    ghost Value = { PlainRule };

    ghost view = { λ r. rule_by r.key r.basis r.below.items r.right.items r.spots.items (option_map (λ u. upper_by r.basis r.below.items u.derivs.items u.left.items) r.upper) };

    ghost invariant = { λ r. IsShaped r.key r.basis r.below.items r.right.items r.spots.items
        × MatchOption r.upper (Unit {0}) (λ u. IsUpperShaped r.basis r.below.items u.derivs.items u.left.items × AreEnds r.key.product r.below.items r.basis u.ends.items) };
}

/// A row of those of a letter, from letter 1 on.
fn row_of(lists: &[Rows], letter: u8, k: usize) -> &[Cell]
    requires some { 1 ≤ letter }
    requires most { letter ≤ length lists.now }
    requires place { k < length (slice_index_or lists.now (letter - 1) (record { rows = []; begun = [] })).rows }
    ensures { result.now ≡ slice_index_or (slice_index_or lists.now (letter - 1) (record { rows = []; begun = [] })).rows k [] }
{
    lists[usize::from(letter) - 1].row(k)
}

impl BlockRule {
    /// The rule with these parts: its block, its least words, those of the lower blocks by letter, the rows of the normal forms of
    /// its candidates, where those of its relations stand, and what serves the degree above.
    pub fn new(
        key: BlockKey,
        basis: Words,
        below: Vec<Words>,
        right: Vec<Rows>,
        spots: Vec<Spot>,
        derivs: Vec<Rows>,
        left: Vec<Rows>,
        ends: Vec<Ends>,
    ) -> BlockRule
        requires shape { IsShaped key basis below.items right.items spots.items }
        requires upper { IsUpperShaped basis below.items derivs.items left.items }
        requires ends { AreEnds key.product below.items basis ends.items }
        ensures { result ≡ rule_by key basis below.items right.items spots.items (Some (upper_by basis below.items derivs.items left.items)) }
    {
        BlockRule {
            key,
            basis,
            below,
            right,
            spots,
            upper: Some(Upper { derivs, left, ends }),
        }
    }

    /// Which block it is the rule of.
    pub fn key(&self) -> &BlockKey
        ensures { result.now ≡ self.now.key }
    {
        &self.key
    }

    /// The least words of the block, which rise.
    pub fn basis(&self) -> &[Word]
        ensures same { result.now ≡ self.now.basis }
        ensures rising { IsRising self.now.basis }
    {
        self.basis.as_slice()
    }

    /// The least words of the block, shared.
    pub fn shared_basis(&self) -> Result<Words, AllocError>
        ensures { IfOk result (λ w. w ≡ self.now.basis) }
    {
        self.basis.copy()
    }

    /// The number of letters.
    pub fn letters(&self) -> u8
        ensures value { result ≡ length self.now.key.product }
        ensures below { length self.now.below ≡ result }
        ensures most { result ≤ LETTER_LIMIT }
    {
        self.key.product.images().len() as u8
    }

    /// The least words of the lower block by a letter, which rise. There is a normal form of each with the letter behind.
    pub fn below(&self, letter: u8) -> &[Word]
        requires some { 1 ≤ letter }
        requires most { letter ≤ length self.now.below }
        ensures same { result.now ≡ below_in self.now letter }
        ensures rising { IsRising (below_in self.now letter) }
        ensures forms { length (right_in self.now letter) ≡ length (below_in self.now letter) }
    {
        self.below[usize::from(letter) - 1].as_slice()
    }

    /// The cells of the normal form of `u b`, for the k-th least word u of the lower block by b.
    pub fn right_row(&self, b: u8, k: usize) -> &[Cell]
        requires some { 1 ≤ b }
        requires place { k < length (right_in self.now b) }
        ensures { AreCellsOf self.now.basis (slice_index_or (right_in self.now b) k []) result.now }
    {
        row_of(self.right.as_slice(), b, k)
    }

    /// The cells of the normal form of the derivative by a of the k-th least word, over the words of the lower block by a, as long
    /// as what serves the degree above isn't let go.
    pub fn derivative_row(&self, a: u8, k: usize) -> &[Cell]
        requires some { 1 ≤ a }
        requires place { k < length (derivs_in self.now a) }
        ensures { AreCellsOf (below_in self.now a) (slice_index_or (derivs_in self.now a) k []) result.now }
    {
        match &self.upper {
            Some(upper) => row_of(upper.derivs.as_slice(), a, k),
            None => unreachable!(),
        }
    }

    /// The cells of the normal form of `a v`, for the k-th least word v for which it has the block's product, as long as what
    /// serves the degree above isn't let go.
    pub fn left_row(&self, a: u8, k: usize) -> &[Cell]
        requires some { 1 ≤ a }
        requires place { k < length (left_in self.now a) }
        ensures { AreCellsOf self.now.basis (slice_index_or (left_in self.now a) k []) result.now }
    {
        match &self.upper {
            Some(upper) => row_of(upper.left.as_slice(), a, k),
            None => unreachable!(),
        }
    }

    /// Where the k-th least word stands below without its last letter, and without its first one, as long as what serves the
    /// degree above isn't let go.
    pub fn ends(&self, k: usize) -> Ends
        requires kept { is_some self.now.upper ≡ true }
        requires place { k < length self.now.basis }
        ensures { AreEndsOf self.now.key.product self.now.below (word_at self.now.basis k) result }
    {
        match &self.upper {
            Some(upper) => upper.ends[k],
            None => unreachable!(),
        }
    }

    /// The number of relations.
    pub fn relation_count(&self) -> usize
        ensures { result ≡ length self.now.table }
    {
        self.spots.len()
    }

    /// The relation at index k, which counts from 0. The candidates rise.
    pub fn relation(&self, k: usize) -> LentRelation<'_>
        requires { k < length self.now.table }
        ensures { result ≡ slice_index_or self.now.table k result }
    {
        let Spot { letter, place } = self.spots[k];
        let place = place as usize;
        let _letters = self.letters();
        LentRelation {
            candidate: self.below(letter)[place].followed_by(letter),
            form: Form::of(self.basis(), self.right_row(letter, place)),
        }
    }

    /// The normal form of the derivative by a of the k-th least word, as long as what serves the degree above isn't let go.
    pub fn derivative(&self, a: u8, k: usize) -> Form<'_>
        requires some { 1 ≤ a }
        requires place { k < length (derivs_in self.now a) }
        ensures { result ≡ slice_index_or (derivs_in self.now a) k [] }
    {
        let _block = &self.key;
        Form::of(self.below(a), self.derivative_row(a, k))
    }

    /// Lets go what serves the degree above.
    pub fn let_go(&mut self)
        ensures { self.new ≡ without_upper self.old }
    {
        self.upper = None;
    }
}
