//! Products of two least words.

ghost use Rattle.std.specs.Prelude.{◌≡◌, ◌<◌, [], IfOk, get_or, length};
ghost use Rattle.nichols_tensor.specs.Combination.{AllElements, single};
ghost use Rattle.nichols_tensor.specs.Words.{IsOver};
ghost use Rattle.nichols_memo.specs.Seats.{IsOf, braid_of};
ghost use Rattle.nichols_times.specs.Products.{left_place, least_words, product_due, right_place};

use nichols_block::Levels;
use nichols_braid::Braid;
use nichols_memo::{Memo, MemoSeat};
use nichols_product::times;
use nichols_reduce::Normal;
use nichols_words::{Comb, Word};
use std::alloc::{AllocError, Global};

/// How far apart the left factors of two products stand that follow one another. It has no divisor in common with 1280.
const LEFT_STEP: usize = 507;

/// How far apart their right factors stand.
const RIGHT_STEP: usize = 1_033;

/// The place of the left factor of the k-th product among so many words.
fn left_place(count: usize, k: u32) -> usize
    requires { 0 < count }
    ensures place { result ≡ left_place count k }
    ensures inside { result < count }
{
    k as usize * LEFT_STEP % count
}

/// The place of its right factor: in each further round of all words it is one place on.
fn right_place(count: usize, k: u32) -> usize
    requires { 0 < count }
    ensures place { result ≡ right_place count k }
    ensures inside { result < count }
{
    let k = k as usize;
    (k * RIGHT_STEP + k / count) % count
}

/// The least word at a place, as an element.
#[tactic(auto, using(crate::proofs::LeastWords::word_over, nichols_field::proofs::FieldLaws::one_is_element))]
fn element(
    alloc: Global,
    braid: &Braid,
    _last: u32,
    words: &[Word],
    place: usize,
) -> Result<Comb, AllocError>
    requires words { words.now ≡ least_words braid.now _last }
    requires place { place < length words.now }
    ensures word { IfOk result (λ f. f ≡ single (get_or words.now place [])) }
    ensures letters { IfOk result (IsOver braid.now.letters) }
    ensures elements { IfOk result (AllElements braid.now.field) }
{
    let field = braid.field();
    let _modulus = field.modulus();
    Comb::single(alloc, field, words[place], 1)
}

/// The k-th product, by `times`.
#[tactic(auto, unfolding(crate::specs::Products::product_due))]
pub fn product_at(
    alloc: Global,
    levels: &Levels,
    memo: &Memo,
    seat: &mut MemoSeat,
    words: &[Word],
    k: u32,
) -> Result<Normal, AllocError>
    requires memo { braid_of memo.now ≡ levels.now.braid }
    requires seat { IsOf memo.now seat.old }
    requires words { words.now ≡ least_words levels.now.braid levels.now.last }
    requires some { 0 < length words.now }
    ensures seat { IsOf memo.now seat.new }
    ensures answer { IfOk result (λ r. r ≡ product_due levels.now.braid levels.now.last words.now k) }
{
    let braid = levels.braid();
    let last = levels.last();
    let count = words.len();
    let f = element(alloc, braid, last, words, left_place(count, k))?;
    let g = element(alloc, braid, last, words, right_place(count, k))?;
    times(alloc, levels, memo, seat, &f, &g)
}
