//! Products of lists of elements.

ghost use Rattle.std.specs.Prelude.{◌≡◌, ◌∷◌, [], IfOk};
ghost use Rattle.std.specs.List.{AllByRecursion};
ghost use Rattle.nichols_tensor.specs.Combination.{AllElements};
ghost use Rattle.nichols_tensor.specs.Words.{IsOver};
ghost use Rattle.nichols_memo.specs.Seats.{IsOf, braid_of};
ghost use Rattle.nichols_product.specs.Products.{normal_of_product, products_of};

use crate::running::Running;
use nichols_block::Levels;
use nichols_memo::{Memo, MemoSeat};
use nichols_reduce::Normal;
use nichols_words::Comb;
use std::alloc::{AllocError, Global};

/// The products of the first factor, of the first two, and so on up to all of them, each as [`nichols_reduce::normal`] answers.
///
/// The sum of the lengths of the longest words is what may be beyond the last degree. Where a factor is zero, its answer and each later
/// one are the zero combination.
pub fn product_run(
    alloc: Global,
    levels: &Levels,
    _memo: &Memo,
    _seat: &mut MemoSeat,
    combs: &[Comb],
) -> Result<Vec<Normal>, AllocError>
    requires memo { braid_of _memo.now ≡ levels.now.braid }
    requires seat { IsOf _memo.now _seat.old }
    requires letters { AllByRecursion (IsOver levels.now.braid.letters) combs.now }
    requires elements { AllByRecursion (AllElements levels.now.braid.field) combs.now }
    ensures seat { IsOf _memo.now _seat.new }
    ensures answers { IfOk result (λ ns. ns.items ≡ products_of levels.now.braid levels.now.last combs.now) }
{
    let _field = levels.braid().field();
    let mut running = Running::start(alloc, levels)?;
    let mut answers = Vec::new(alloc);
    for factor in combs {
        running = running.times(alloc, levels, factor)?;
        answers.push(running.answer(alloc, levels)?)?;
    }
    Ok(answers)
}

/// The product of two elements, as [`nichols_reduce::normal`] answers.
pub fn times(
    alloc: Global,
    levels: &Levels,
    _memo: &Memo,
    _seat: &mut MemoSeat,
    f: &Comb,
    g: &Comb,
) -> Result<Normal, AllocError>
    requires memo { braid_of _memo.now ≡ levels.now.braid }
    requires seat { IsOf _memo.now _seat.old }
    requires left_letters { IsOver levels.now.braid.letters f.now }
    requires left_elements { AllElements levels.now.braid.field f.now }
    requires right_letters { IsOver levels.now.braid.letters g.now }
    requires right_elements { AllElements levels.now.braid.field g.now }
    ensures seat { IsOf _memo.now _seat.new }
    ensures answer { IfOk result (λ r. r ≡ normal_of_product levels.now.braid levels.now.last (f.now ∷ g.now ∷ [])) }
{
    let _field = levels.braid().field();
    let running = Running::start(alloc, levels)?
        .times(alloc, levels, f)?
        .times(alloc, levels, g)?;
    let answer = running.answer(alloc, levels)?;
    Ok(answer)
}
