//! Products of parts with terms and factors.

ghost use Rattle.std.specs.Prelude.{◌≢◌, ◌≤◌, ◌+◌, ◌++◌, ℕ, [], IfOk, OnOk, length};
ghost use Rattle.std.specs.List.{AllByRecursion};
ghost use Rattle.nichols_field.specs.Field.{IsElement};
ghost use Rattle.nichols_tensor.specs.Combination.{AllElements, HasSameValues, scalar_multiple};
ghost use Rattle.nichols_tensor.specs.Parts.{longest};
ghost use Rattle.nichols_tensor.specs.Product.{product};
ghost use Rattle.nichols_tensor.specs.Words.{IsOver, IsWordOver};
ghost use Rattle.nichols_braid.specs.Kernel.{is_killed};
ghost use Rattle.nichols_braid.specs.Least.{basis};
ghost use Rattle.nichols_braid.specs.WholeForm.{normal_form_by_parts};
ghost use Rattle.nichols_reduce.specs.Forms.{followed_by_word};
ghost use Rattle.nichols_product.specs.Parts.{AreParts, AreWithin, IsPart, element_of, total};
ghost use Rattle.nichols_product.specs.declared.parts.Part.{Part};

use crate::parts::{Part, add_form};
use nichols_block::Levels;
use nichols_reduce::follow;
use nichols_words::Term;
use std::alloc::{AllocError, Global};

/// Adds the product of a part with a term, whose word is followed letter by letter.
fn add_term(
    alloc: Global,
    levels: &Levels,
    part: &Part,
    term: &Term,
    parts: &mut Vec<Part>,
    form: &mut Vec<u64>,
    spare: &mut Vec<u64>,
) -> Result<(), AllocError>
    requires part { IsPart levels.now.braid levels.now.last part.now }
    requires made { part.now.degree + length term.now.word ≤ levels.now.last }
    requires letters { IsWordOver levels.now.braid.letters term.now.word }
    requires element { IsElement levels.now.braid.field term.now.coefficient }
    requires parts { AreParts levels.now.braid levels.now.last parts.old.items }
    ensures parts { OnOk result (AreParts levels.now.braid levels.now.last parts.new.items) }
    ensures within { OnOk result ((n : ℕ) → part.now.degree + length term.now.word ≤ n → AreWithin n parts.old.items → AreWithin n parts.new.items) }
    ensures values { OnOk result (HasSameValues levels.now.braid.field (total levels.now.braid parts.new.items) (total levels.now.braid parts.old.items ++ scalar_multiple levels.now.braid.field term.now.coefficient (normal_form_by_parts is_killed levels.now.braid (followed_by_word (element_of levels.now.braid part.now) term.now.word)))) }
{
    let _field = levels.braid().field();
    let _last = levels.last();
    form.clear();
    form.extend_from_slice(part.sums.as_slice())?;
    let letters = term.word.letters();
    let product = follow(levels, part.degree, &part.product, letters, form, spare)?;
    let degree = part.degree + letters.len() as u32;
    add_form(
        alloc,
        levels,
        degree,
        &product,
        term.coefficient,
        form.as_slice(),
        parts,
    )?;
    Ok(())
}

/// Adds the product of a part with a factor. In closed levels what is longer than the last degree is zero and adds nothing.
fn add_part(
    alloc: Global,
    levels: &Levels,
    part: &Part,
    factor: &[Term],
    parts: &mut Vec<Part>,
    form: &mut Vec<u64>,
    spare: &mut Vec<u64>,
) -> Result<(), AllocError>
    requires part { IsPart levels.now.braid levels.now.last part.now }
    requires fits { basis is_killed levels.now.braid levels.now.last ≢ [] → part.now.degree + longest factor.now ≤ levels.now.last }
    requires letters { IsOver levels.now.braid.letters factor.now }
    requires elements { AllElements levels.now.braid.field factor.now }
    requires parts { AreParts levels.now.braid levels.now.last parts.old.items }
    ensures parts { OnOk result (AreParts levels.now.braid levels.now.last parts.new.items) }
    ensures within { OnOk result ((n : ℕ) → part.now.degree + longest factor.now ≤ n → AreWithin n parts.old.items → AreWithin n parts.new.items) }
    ensures values { OnOk result (HasSameValues levels.now.braid.field (total levels.now.braid parts.new.items) (total levels.now.braid parts.old.items ++ normal_form_by_parts is_killed levels.now.braid (product levels.now.braid.field (element_of levels.now.braid part.now) factor.now))) }
{
    let _field = levels.braid().field();
    let last = levels.last() as usize;
    for term in factor {
        if part.degree as usize + term.word.len() <= last {
            add_term(alloc, levels, part, term, parts, form, spare)?;
        }
    }
    Ok(())
}

/// The product of the element of some parts with a factor.
pub(crate) fn times_factor(
    alloc: Global,
    levels: &Levels,
    parts: &[Part],
    factor: &[Term],
) -> Result<Vec<Part>, AllocError>
    requires parts { AreParts levels.now.braid levels.now.last parts.now }
    requires fits { basis is_killed levels.now.braid levels.now.last ≢ [] → AllByRecursion (λ (p : Part). p.degree + longest factor.now ≤ levels.now.last) parts.now }
    requires letters { IsOver levels.now.braid.letters factor.now }
    requires elements { AllElements levels.now.braid.field factor.now }
    ensures parts { IfOk result (λ r. AreParts levels.now.braid levels.now.last r.items) }
    ensures within { IfOk result (λ r. (n : ℕ) → AreWithin n parts.now → AreWithin (n + longest factor.now) r.items) }
    ensures values { IfOk result (λ r. HasSameValues levels.now.braid.field (total levels.now.braid r.items) (normal_form_by_parts is_killed levels.now.braid (product levels.now.braid.field (total levels.now.braid parts.now) factor.now))) }
{
    let _field = levels.braid().field();
    let mut longer = Vec::new(alloc);
    let mut form = Vec::new(alloc);
    let mut spare = Vec::new(alloc);
    for part in parts {
        add_part(
            alloc,
            levels,
            part,
            factor,
            &mut longer,
            &mut form,
            &mut spare,
        )?;
    }
    Ok(longer)
}
