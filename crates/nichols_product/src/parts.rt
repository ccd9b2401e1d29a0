//! Elements as sums over the least words of some blocks.

ghost use Rattle.std.specs.Prelude.{◌≡◌, ◌≤◌, ◌<◌, ◌++◌, ℕ, List, ⊤, IfOk, OnOk, MatchOption, get_or, length, replicate};
ghost use Rattle.std.specs.List.{Contains};
ghost use Rattle.nichols_field.specs.Field.{IsElement};
ghost use Rattle.nichols_tensor.specs.Combination.{AllElements, HasSameValues, scalar_multiple};
ghost use Rattle.nichols_tensor.specs.WordOrder.{IsOrdered};
ghost use Rattle.nichols_braid.specs.Products.{products};
ghost use Rattle.nichols_value.specs.Block.{block_basis};
ghost use Rattle.nichols_reduce.specs.Sums.{HasGrownBy, combination_of};
ghost use Rattle.nichols_product.specs.Parts.{AreParts, AreWithin, total};
ghost use Rattle.nichols_product.specs.declared.parts.Part.{Part};

use nichols_block::Levels;
use nichols_braid::Product;
use nichols_field::Field;
use nichols_reduce::{block_rule, put_terms};
use nichols_words::Comb;
use std::alloc::{AllocError, Global};

/// An element of one block: a sum for each least word of the block of this degree and product.
#[derive(Drop)]
pub(crate) struct Part {
    pub(crate) degree: u32,
    pub(crate) product: Product,
    pub(crate) sums: Vec<u64>,
}

/// Adds a multiple of other sums over the same words.
fn add_sums(field: Field, by: u32, form: &[u64], sums: &mut [u64])
    requires factor { IsElement field by }
    requires width { length sums.old ≡ length form.now }
    ensures { (ws : List (List ℕ)) → length form.now ≡ length ws → HasGrownBy field ws sums.old (scalar_multiple field by (combination_of field ws form.now)) sums.new }
{
    let _modulus = field.modulus();
    for (k, count) in form.iter().enumerate() {
        let coefficient = field.settle(*count);
        sums[k] = field.add_product_to(sums[k], by, coefficient);
    }
}

/// The place of the part of a block.
fn place_of(parts: &[Part], degree: u32, product: &Product) -> Option<usize>
    ensures { MatchOption result ⊤ (λ k. (k < length parts.now) × ((p : Part) → p ≡ get_or parts.now k p → (p.degree ≡ degree) × (p.product ≡ product.now))) }
{
    for (k, part) in parts.iter().enumerate() {
        if part.degree == degree && part.product == *product {
            return Some(k);
        }
    }
    None
}

/// So many sums of nothing.
fn zeros(alloc: Global, places: usize) -> Result<Vec<u64>, AllocError>
    ensures { IfOk result (λ r. r.items ≡ replicate places 0) }
{
    let mut sums = Vec::new(alloc);
    for _place in 0..places {
        sums.push(0)?;
    }
    Ok(sums)
}

/// Adds a multiple of sums over the least words of a block.
pub(crate) fn add_form(
    alloc: Global,
    levels: &Levels,
    degree: u32,
    product: &Product,
    by: u32,
    form: &[u64],
    parts: &mut Vec<Part>,
) -> Result<(), AllocError>
    requires factor { IsElement levels.now.braid.field by }
    requires made { degree ≤ levels.now.last }
    requires there { Contains (products levels.now.braid degree) product.now }
    requires width { length form.now ≡ length (block_basis levels.now.braid degree product.now) }
    requires parts { AreParts levels.now.braid levels.now.last parts.old.items }
    ensures parts { OnOk result (AreParts levels.now.braid levels.now.last parts.new.items) }
    ensures within { OnOk result ((n : ℕ) → degree ≤ n → AreWithin n parts.old.items → AreWithin n parts.new.items) }
    ensures values { OnOk result (HasSameValues levels.now.braid.field (total levels.now.braid parts.new.items) (total levels.now.braid parts.old.items ++ scalar_multiple levels.now.braid.field by (combination_of levels.now.braid.field (block_basis levels.now.braid degree product.now) form.now))) }
{
    let field = levels.braid().field();
    match place_of(parts.as_slice(), degree, product) {
        Some(k) => add_sums(field, by, form, parts[k].sums.as_mut_slice()),
        None => {
            let mut sums = zeros(alloc, form.len())?;
            add_sums(field, by, form, sums.as_mut_slice());
            parts.push(Part {
                degree,
                product: *product,
                sums,
            })?;
        }
    }
    Ok(())
}

/// The element of some parts, as a combination.
pub(crate) fn form_of_parts(
    alloc: Global,
    levels: &Levels,
    parts: &[Part],
) -> Result<Comb, AllocError>
    requires { AreParts levels.now.braid levels.now.last parts.now }
    ensures values { IfOk result (λ r. HasSameValues levels.now.braid.field r (total levels.now.braid parts.now)) }
    ensures shape { IfOk result IsOrdered }
    ensures elements { IfOk result (AllElements levels.now.braid.field) }
{
    let field = levels.braid().field();
    let _last = levels.last();
    let mut terms = Vec::new(alloc);
    for part in parts {
        let rule = block_rule(levels, part.degree, &part.product);
        put_terms(field, 1, rule.basis(), part.sums.as_slice(), &mut terms)?;
    }
    let form = Comb::sum_of(alloc, field, terms.as_mut_slice())?;
    Ok(form)
}
