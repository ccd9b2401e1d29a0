//! Elements of one block followed by letters, a letter at a time.

ghost use Rattle.std.specs.Prelude.{◌≡◌, ◌≤◌, ◌<◌, ◌+◌, ◌++◌, ℕ, suc, List, [], ◌∷◌, IfOk, OnOk, length, replicate, slice_index_or};
ghost use Rattle.std.specs.List.{Contains};
ghost use Rattle.nichols_field.specs.Field.{IsElement};
ghost use Rattle.nichols_tensor.specs.Combination.{AllElements, scalar_multiple};
ghost use Rattle.nichols_tensor.specs.Words.{IsWordOver};
ghost use Rattle.nichols_braid.specs.Braid.{IsLetter};
ghost use Rattle.nichols_braid.specs.Product.{product_before, product_of};
ghost use Rattle.nichols_braid.specs.Products.{products};
ghost use Rattle.nichols_value.specs.Block.{block_basis};
ghost use Rattle.nichols_value.specs.Rule.{IsRuleOf, below_in, right_in};
ghost use Rattle.nichols_reduce.specs.Sums.{HasGrownBy, combination_of};
ghost use Rattle.nichols_reduce.specs.Forms.{AreFollowed, followed_by_letter};

use nichols_block::Levels;
use nichols_braid::{Braid, Product};
use nichols_field::Field;
use nichols_value::BlockRule;
use std::alloc::AllocError;

/// The rule of a block of a degree that is made.
pub fn block_rule<'levels>(
    levels: &'levels Levels,
    degree: u32,
    product: &Product,
) -> &'levels BlockRule
    requires made { degree ≤ levels.now.last }
    requires there { Contains (products levels.now.braid degree) product.now }
    ensures { IsRuleOf levels.now.braid degree product.now result.now }
{
    match levels.products(degree).find(product) {
        Some(place) => levels.rule(degree, place),
        None => unreachable!(),
    }
}

/// Adds a multiple of the normal form of `u b`, for the k-th least word u of the lower block by b.
fn add_row(field: Field, by: u32, rule: &BlockRule, b: u8, k: usize, sums: &mut [u64])
    requires factor { IsElement field by }
    requires some { 1 ≤ b }
    requires place { k < length (right_in rule.now b) }
    requires elements { AllElements field (slice_index_or (right_in rule.now b) k []) }
    requires width { length sums.old ≡ length rule.now.basis }
    ensures { HasGrownBy field rule.now.basis sums.old (scalar_multiple field by (slice_index_or (right_in rule.now b) k [])) sums.new }
{
    let _modulus = field.modulus();
    for cell in rule.right_row(b, k) {
        let place = cell.column as usize;
        sums[place] = field.add_product_to(sums[place], by, cell.coefficient);
    }
}

/// Adds the normal form of `f x_b`, from the sums of f over the least words of the lower block by b: the form of each of them with
/// the letter b behind is known.
fn add_followed(braid: &Braid, rule: &BlockRule, form: &[u64], b: u8, sums: &mut [u64])
    requires rule { IsRuleOf braid.now rule.now.key.degree rule.now.key.product rule.now }
    requires letter { IsLetter braid.now b }
    requires form { length form.now ≡ length (below_in rule.now b) }
    requires width { length sums.old ≡ length rule.now.basis }
    ensures { HasGrownBy braid.now.field rule.now.basis sums.old (followed_by_letter braid.now rule.now.key.degree (combination_of braid.now.field (below_in rule.now b) form.now) b) sums.new }
{
    let field = braid.field();
    for (k, count) in form.iter().enumerate() {
        let by = field.settle(*count);
        if by != 0 {
            add_row(field, by, rule, b, k, sums);
        }
    }
}

/// Puts 0 for each of so many places into the sums, in place of what they had.
fn zero_sums(sums: &mut Vec<u64>, places: usize) -> Result<(), AllocError>
    ensures { OnOk result (sums.new.items ≡ replicate places 0) }
{
    sums.clear();
    for _place in 0..places {
        sums.push(0)?;
    }
    Ok(())
}

/// Puts the normal form of `f x_b`, whose block has this product, into the sums, from that of f, an element of degree m: its block is
/// the lower block by b.
fn put_longer(
    levels: &Levels,
    m: u32,
    product: &Product,
    b: u8,
    form: &[u64],
    sums: &mut Vec<u64>,
) -> Result<(), AllocError>
    requires made { m < levels.now.last }
    requires letter { IsLetter levels.now.braid b }
    requires there { Contains (products levels.now.braid (suc m)) product.now }
    requires form { length form.now ≡ length (block_basis levels.now.braid m (product_before levels.now.braid b product.now)) }
    ensures { OnOk result (AreFollowed levels.now.braid m (product_before levels.now.braid b product.now) form.now (b ∷ []) (suc m) product.now sums.new.items) }
{
    let braid = levels.braid();
    let _field = braid.field();
    let _last = levels.last();
    let rule = block_rule(levels, m + 1, product);
    zero_sums(sums, rule.basis().len())?;
    add_followed(braid, rule, form, b, sums.as_mut_slice());
    Ok(())
}

/// Puts the normal form of `f w` into `form`, in place of that of f: a coefficient for each least word of its block. f is an element of
/// the block of degree m and this product; the product of the block of `f w` is answered.
///
/// What `spare` had is dropped; its memory is used again.
pub fn follow(
    levels: &Levels,
    m: u32,
    product: &Product,
    letters: &[u8],
    form: &mut Vec<u64>,
    spare: &mut Vec<u64>,
) -> Result<Product, AllocError>
    requires made { m + length letters.now ≤ levels.now.last }
    requires letters { IsWordOver levels.now.braid.letters letters.now }
    requires there { Contains (products levels.now.braid m) product.now }
    requires form { length form.old.items ≡ length (block_basis levels.now.braid m product.now) }
    ensures product { IfOk result (λ h. (u : List ℕ) → product.now ≡ product_of levels.now.braid u → h ≡ product_of levels.now.braid (u ++ letters.now)) }
    ensures form { IfOk result (λ h. AreFollowed levels.now.braid m product.now form.old.items letters.now (m + length letters.now) h form.new.items) }
{
    let braid = levels.braid();
    let _field = braid.field();
    let _last = levels.last();
    let mut longer = *product;
    for (k, letter) in letters.iter().enumerate() {
        longer = longer.times(braid, *letter);
        put_longer(
            levels,
            m + k as u32,
            &longer,
            *letter,
            form.as_slice(),
            spare,
        )?;
        std::mem::swap(form, spare);
    }
    Ok(longer)
}
