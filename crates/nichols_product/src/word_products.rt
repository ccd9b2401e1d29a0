//! Products of a word with others.

ghost use Rattle.std.specs.Prelude.{◌≡◌, ◌≤◌, [], IfOk, OnOk, length, map};
ghost use Rattle.std.specs.List.{AllByRecursion};
ghost use Rattle.nichols_tensor.specs.Words.{IsWordOver};
ghost use Rattle.nichols_braid.specs.Kernel.{is_killed};
ghost use Rattle.nichols_braid.specs.Least.{basis};
ghost use Rattle.nichols_braid.specs.Product.{product_of};
ghost use Rattle.nichols_reduce.specs.Forms.{IsFormOf};
ghost use Rattle.nichols_product.specs.WordProducts.{product_of_words};

use nichols_block::Levels;
use nichols_braid::Product;
use nichols_reduce::{block_rule, follow, put_terms};
use nichols_words::{Comb, Word};
use std::alloc::{AllocError, Global};

/// Puts the normal form of a word into `form`: a coefficient for each least word of its block, which has the product that is answered.
fn put_form(
    alloc: Global,
    levels: &Levels,
    word: &Word,
    form: &mut Vec<u64>,
) -> Result<Product, AllocError>
    requires letters { IsWordOver levels.now.braid.letters word.now }
    requires made { length word.now ≤ levels.now.last }
    ensures product { IfOk result (λ g. g ≡ product_of levels.now.braid word.now) }
    ensures form { OnOk result (IsFormOf levels.now.braid word.now form.new.items) }
{
    let braid = levels.braid();
    let _field = braid.field();
    let _last = levels.last();
    let mut spare = Vec::new(alloc);
    form.clear();
    form.push(1)?;
    let empty = Product::identity(braid.letters());
    follow(levels, 0, &empty, word.letters(), form, &mut spare)
}

/// The normal form of the product of two words, from that of the first one, whose block has this product: the letters of the other one
/// follow it. What is longer than the last degree is zero, since the levels are closed.
fn followed(
    alloc: Global,
    levels: &Levels,
    word: &Word,
    product: &Product,
    form: &[u64],
    other: &Word,
) -> Result<Comb, AllocError>
    requires letters { IsWordOver levels.now.braid.letters word.now }
    requires other_letters { IsWordOver levels.now.braid.letters other.now }
    requires closed { basis is_killed levels.now.braid levels.now.last ≡ [] }
    requires product { product.now ≡ product_of levels.now.braid word.now }
    requires form { IsFormOf levels.now.braid word.now form.now }
    ensures { IfOk result (λ f. f ≡ product_of_words levels.now.braid word.now other.now) }
{
    let field = levels.braid().field();
    let last = levels.last() as usize;
    let (degree, more) = (word.len(), other.len());
    if degree + more > last {
        return Ok(Comb::zero(alloc));
    }
    let mut longer = Vec::from_slice(alloc, form)?;
    let mut spare = Vec::new(alloc);
    let after = follow(
        levels,
        degree as u32,
        product,
        other.letters(),
        &mut longer,
        &mut spare,
    )?;
    let rule = block_rule(levels, (degree + more) as u32, &after);
    let mut terms = Vec::new(alloc);
    put_terms(field, 1, rule.basis(), longer.as_slice(), &mut terms)?;
    Ok(Comb::from_terms(terms))
}

/// The normal forms of the products of a word with others, in order, in closed levels.
///
/// The normal form of the word is found once. The letters of each other word follow it, so that no word is looked up.
pub fn products_with(
    alloc: Global,
    levels: &Levels,
    word: &Word,
    others: &[Word],
) -> Result<Vec<Comb>, AllocError>
    requires letters { IsWordOver levels.now.braid.letters word.now }
    requires made { length word.now ≤ levels.now.last }
    requires other_letters { AllByRecursion (IsWordOver levels.now.braid.letters) others.now }
    requires closed { basis is_killed levels.now.braid levels.now.last ≡ [] }
    ensures { IfOk result (λ fs. fs.items ≡ map (product_of_words levels.now.braid word.now) others.now) }
{
    let mut form = Vec::new(alloc);
    let product = put_form(alloc, levels, word, &mut form)?;
    let mut products = Vec::new(alloc);
    for other in others {
        products.push(followed(alloc, levels, word, &product, form.as_slice(), other)?)?;
    }
    Ok(products)
}
