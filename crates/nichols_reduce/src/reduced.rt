//! The normal form of a combination.

ghost use Rattle.std.specs.Prelude.{◌≡◌, IfOk};
ghost use Rattle.nichols_tensor.specs.Combination.{AllElements};
ghost use Rattle.nichols_tensor.specs.Words.{IsOver};
ghost use Rattle.nichols_memo.specs.Seats.{IsOf, braid_of};
ghost use Rattle.nichols_reduce.specs.Normal.{normal_of};

use crate::answer::Normal;
use crate::pace::Pace;
use crate::parts::{is_beyond, sum_of_forms};
use nichols_block::Levels;
use nichols_memo::{Memo, MemoSeat};
use nichols_words::Comb;
use std::alloc::{AllocError, Global};

/// The normal form of a combination, as far as the degrees of the levels reach.
///
/// In closed levels, whose last degree has no least word, a word that is longer than the last degree is zero and adds nothing.
/// Each word is reduced from the left, a letter at a time, so that only forms of candidates are read, which the rule of the block
/// of each prefix has (Heckenberger and Schneider, "Hopf Algebras and Root Systems": what is zero in the Nichols algebra is an
/// ideal).
///
/// What the memo has of the words and of their prefixes is not made again, and what is made is kept there.
pub fn normal(
    alloc: Global,
    levels: &Levels,
    memo: &Memo,
    seat: &mut MemoSeat,
    comb: &Comb,
) -> Result<Normal, AllocError>
    requires memo { braid_of memo.now ≡ levels.now.braid }
    requires seat { IsOf memo.now seat.old }
    requires letters { IsOver levels.now.braid.letters comb.now }
    requires elements { AllElements levels.now.braid.field comb.now }
    ensures seat { IsOf memo.now seat.new }
    ensures answer { IfOk result (λ r. r ≡ normal_of levels.now.braid levels.now.last comb.now) }
{
    normal_at_pace(alloc, levels, memo, seat, &mut Pace::new(), comb)
}

/// The same, where the memo is asked as the words before it suggest.
pub(crate) fn normal_at_pace(
    alloc: Global,
    levels: &Levels,
    memo: &Memo,
    seat: &mut MemoSeat,
    pace: &mut Pace,
    comb: &Comb,
) -> Result<Normal, AllocError>
    requires memo { braid_of memo.now ≡ levels.now.braid }
    requires seat { IsOf memo.now seat.old }
    requires letters { IsOver levels.now.braid.letters comb.now }
    requires elements { AllElements levels.now.braid.field comb.now }
    ensures seat { IsOf memo.now seat.new }
    ensures answer { IfOk result (λ r. r ≡ normal_of levels.now.braid levels.now.last comb.now) }
{
    let _field = levels.braid().field();
    let last = levels.last();
    let terms = comb.terms();
    if is_beyond(levels, terms) {
        return Ok(Normal::Beyond(last));
    }
    let form = sum_of_forms(alloc, levels, memo, seat, pace, terms)?;
    Ok(Normal::Form(form))
}
