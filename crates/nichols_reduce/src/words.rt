//! Normal forms of words, with a memo of those of their prefixes.

ghost use Rattle.std.specs.Prelude.{◌≡◌, ◌≤◌, IfOk, OnOk, length, map, take, true};
ghost use Rattle.nichols_field.specs.Field.{element_of_sum};
ghost use Rattle.nichols_tensor.specs.Combination.{AllElements, value_at};
ghost use Rattle.nichols_tensor.specs.Words.{IsWordOver};
ghost use Rattle.nichols_braid.specs.Product.{product_of};
ghost use Rattle.nichols_memo.specs.Seats.{IsOf, braid_of};
ghost use Rattle.nichols_reduce.specs.Forms.{IsFormOf};

use crate::letters::{block_rule, follow};
use crate::pace::Pace;
use crate::sums::put_terms;
use nichols_block::Levels;
use nichols_braid::{Braid, Product};
use nichols_field::Field;
use nichols_memo::{Memo, MemoSeat, Memoized};
use nichols_words::{Comb, Word};
use std::alloc::{AllocError, Global};

/// The memo is asked, and keeps what is found, at a word and at its prefixes of this many letters, twice as many and so on: often enough
/// that words with a long prefix in common share most of it, and seldom enough that to keep the forms costs little beside to find them.
const STRIDE: usize = 5;

/// The product of a word.
fn product_of_word(braid: &Braid, letters: &[u8]) -> Product
    requires { IsWordOver braid.now.letters letters.now }
    ensures { result ≡ product_of braid.now letters.now }
{
    let _field = braid.field();
    let mut product = Product::identity(braid.letters());
    for letter in letters {
        product = product.times(braid, *letter);
    }
    product
}

/// Puts the coefficients of a combination at these words into the sums.
fn put_values(
    field: Field,
    comb: &Comb,
    words: &[Word],
    sums: &mut Vec<u64>,
) -> Result<(), AllocError>
    requires elements { AllElements field comb.now }
    ensures { OnOk result (map (element_of_sum field) sums.new.items ≡ map (value_at field comb.now) words.now) }
{
    let _modulus = field.modulus();
    sums.clear();
    for word in words {
        sums.push(field.add_product_to(0, comb.coefficient(word), 1))?;
    }
    Ok(())
}

/// Puts the normal form of a word into `form` where the memo has it, and tells whether it has.
fn recall(
    alloc: Global,
    levels: &Levels,
    memo: &Memo,
    seat: &mut MemoSeat,
    word: &Word,
    form: &mut Vec<u64>,
) -> Result<bool, AllocError>
    requires memo { braid_of memo.now ≡ levels.now.braid }
    requires seat { IsOf memo.now seat.old }
    requires letters { IsWordOver levels.now.braid.letters word.now }
    requires made { length word.now ≤ levels.now.last }
    ensures seat { IsOf memo.now seat.new }
    ensures form { IfOk result (λ found. found ≡ true → IsFormOf levels.now.braid word.now form.new.items) }
{
    let braid = levels.braid();
    let field = braid.field();
    let _last = levels.last();
    let Memoized::Hit(known) = memo.look(alloc, seat, word)? else {
        return Ok(false);
    };
    let product = product_of_word(braid, word.letters());
    let rule = block_rule(levels, word.len() as u32, &product);
    put_values(field, &known, rule.basis(), form)?;
    Ok(true)
}

/// Keeps the normal form of a word, whose product this is, in the memo.
fn keep(
    alloc: Global,
    levels: &Levels,
    memo: &Memo,
    seat: &mut MemoSeat,
    word: Word,
    product: &Product,
    form: &[u64],
) -> Result<(), AllocError>
    requires memo { braid_of memo.now ≡ levels.now.braid }
    requires seat { IsOf memo.now seat.old }
    requires letters { IsWordOver levels.now.braid.letters word }
    requires made { length word ≤ levels.now.last }
    requires product { product.now ≡ product_of levels.now.braid word }
    requires form { IsFormOf levels.now.braid word form.now }
    ensures { IsOf memo.now seat.new }
{
    let field = levels.braid().field();
    let _last = levels.last();
    let rule = block_rule(levels, word.len() as u32, product);
    let mut terms = Vec::new(alloc);
    put_terms(field, 1, rule.basis(), form, &mut terms)?;
    memo.keep(seat, word, Comb::from_terms(terms));
    Ok(())
}

/// Puts the normal form of the longest prefix that the memo has, of those at which it is asked, into `form`; else that of the empty word.
/// How many letters the prefix has is answered.
fn begin(
    alloc: Global,
    levels: &Levels,
    memo: &Memo,
    seat: &mut MemoSeat,
    word: &Word,
    form: &mut Vec<u64>,
) -> Result<usize, AllocError>
    requires memo { braid_of memo.now ≡ levels.now.braid }
    requires seat { IsOf memo.now seat.old }
    requires letters { IsWordOver levels.now.braid.letters word.now }
    requires made { length word.now ≤ levels.now.last }
    ensures seat { IsOf memo.now seat.new }
    ensures within { IfOk result (λ k. k ≤ length word.now) }
    ensures form { IfOk result (λ k. IsFormOf levels.now.braid (take k word.now) form.new.items) }
{
    let _field = levels.braid().field();
    let mut k = word.len();
    while k > 0 {
        if recall(alloc, levels, memo, seat, &word.prefix(k), form)? {
            return Ok(k);
        }
        k = (k - 1) / STRIDE * STRIDE;
    }
    form.clear();
    form.push(1)?;
    Ok(0)
}

/// Puts the normal form of a word into `form`, from the longest prefix that the memo has, and keeps those that are made on the way.
fn put_shared_form(
    alloc: Global,
    levels: &Levels,
    memo: &Memo,
    seat: &mut MemoSeat,
    word: &Word,
    form: &mut Vec<u64>,
    spare: &mut Vec<u64>,
) -> Result<Product, AllocError>
    requires memo { braid_of memo.now ≡ levels.now.braid }
    requires seat { IsOf memo.now seat.old }
    requires letters { IsWordOver levels.now.braid.letters word.now }
    requires made { length word.now ≤ levels.now.last }
    ensures seat { IsOf memo.now seat.new }
    ensures product { IfOk result (λ g. g ≡ product_of levels.now.braid word.now) }
    ensures form { OnOk result (IsFormOf levels.now.braid word.now form.new.items) }
{
    let _last = levels.last();
    let letters = word.letters();
    let mut k = begin(alloc, levels, memo, seat, word, form)?;
    let mut product = product_of_word(levels.braid(), &letters[..k]);
    while k < letters.len() {
        let next = usize::min((k / STRIDE + 1) * STRIDE, letters.len());
        product = follow(levels, k as u32, &product, &letters[k..next], form, spare)?;
        keep(
            alloc,
            levels,
            memo,
            seat,
            word.prefix(next),
            &product,
            form.as_slice(),
        )?;
        k = next;
    }
    Ok(product)
}

/// Puts the normal form of a word into `form`, from the empty word on.
fn put_own_form(
    levels: &Levels,
    word: &Word,
    form: &mut Vec<u64>,
    spare: &mut Vec<u64>,
) -> Result<Product, AllocError>
    requires letters { IsWordOver levels.now.braid.letters word.now }
    requires made { length word.now ≤ levels.now.last }
    ensures product { IfOk result (λ g. g ≡ product_of levels.now.braid word.now) }
    ensures form { OnOk result (IsFormOf levels.now.braid word.now form.new.items) }
{
    let braid = levels.braid();
    let _field = braid.field();
    form.clear();
    form.push(1)?;
    let first = Product::identity(braid.letters());
    let product = follow(levels, 0, &first, word.letters(), form, spare)?;
    Ok(product)
}

/// Puts the normal form of a word of a degree that is made into `form`: a coefficient for each least word of its block, which has
/// the product that is answered. The memo is asked where it is due.
///
/// What `form` and `spare` had is dropped; their memory is used again.
pub(crate) fn put_form(
    alloc: Global,
    levels: &Levels,
    memo: &Memo,
    seat: &mut MemoSeat,
    pace: &mut Pace,
    word: &Word,
    form: &mut Vec<u64>,
    spare: &mut Vec<u64>,
) -> Result<Product, AllocError>
    requires memo { braid_of memo.now ≡ levels.now.braid }
    requires seat { IsOf memo.now seat.old }
    requires letters { IsWordOver levels.now.braid.letters word.now }
    requires made { length word.now ≤ levels.now.last }
    ensures seat { IsOf memo.now seat.new }
    ensures product { IfOk result (λ g. g ≡ product_of levels.now.braid word.now) }
    ensures form { OnOk result (IsFormOf levels.now.braid word.now form.new.items) }
{
    if !pace.is_due() {
        return put_own_form(levels, word, form, spare);
    }
    let hits = memo.hits(seat);
    let product = put_shared_form(alloc, levels, memo, seat, word, form, spare)?;
    pace.note(memo.hits(seat) != hits);
    Ok(product)
}
