//! Combinations reduced word by word.

ghost use Rattle.std.specs.Prelude.{◌≡◌, ◌≤◌, ◌++◌, false, IfOk, OnOk, length};
ghost use Rattle.nichols_field.specs.Field.{IsElement};
ghost use Rattle.nichols_tensor.specs.Combination.{AllElements, HasSameValues, scalar_multiple};
ghost use Rattle.nichols_tensor.specs.Parts.{longest};
ghost use Rattle.nichols_tensor.specs.Words.{IsOver, IsWordOver};
ghost use Rattle.nichols_braid.specs.Kernel.{is_killed};
ghost use Rattle.nichols_braid.specs.WholeForm.{normal_form_by_parts};
ghost use Rattle.nichols_memo.specs.Forms.{form_of};
ghost use Rattle.nichols_memo.specs.Seats.{IsOf, braid_of};
ghost use Rattle.nichols_reduce.specs.Normal.{is_beyond};

use crate::letters::block_rule;
use crate::pace::Pace;
use crate::sums::put_terms;
use crate::words::put_form;
use nichols_block::Levels;
use nichols_field::Field;
use nichols_memo::{Memo, MemoSeat};
use nichols_words::{Comb, Term};
use std::alloc::{AllocError, Global};

/// So many terms are kept before those of one word are added up.
const MANY_TERMS: usize = 1_000_000;

/// The most letters of a word, or 0 where there is none.
pub fn longest(terms: &[Term]) -> usize
    ensures { result ≡ longest terms.now }
{
    let mut most = 0;
    for term in terms {
        most = usize::max(most, term.word.len());
    }
    most
}

/// Whether a word is longer than the last degree of the levels, which aren't closed.
pub(crate) fn is_beyond(levels: &Levels, terms: &[Term]) -> bool
    ensures { result ≡ is_beyond levels.now.braid levels.now.last terms.now }
{
    longest(terms) > levels.last() as usize && !levels.closed()
}

/// Puts the normal form of a term, whose word has a degree that is made, behind other terms.
fn put_term(
    alloc: Global,
    levels: &Levels,
    memo: &Memo,
    seat: &mut MemoSeat,
    pace: &mut Pace,
    term: &Term,
    sum: &mut Vec<Term>,
    form: &mut Vec<u64>,
    spare: &mut Vec<u64>,
) -> Result<(), AllocError>
    requires memo { braid_of memo.now ≡ levels.now.braid }
    requires seat { IsOf memo.now seat.old }
    requires made { length term.now.word ≤ levels.now.last }
    requires letters { IsWordOver levels.now.braid.letters term.now.word }
    requires element { IsElement levels.now.braid.field term.now.coefficient }
    requires elements { AllElements levels.now.braid.field sum.old.items }
    ensures seat { IsOf memo.now seat.new }
    ensures values { OnOk result (HasSameValues levels.now.braid.field sum.new.items (sum.old.items ++ scalar_multiple levels.now.braid.field term.now.coefficient (form_of levels.now.braid term.now.word))) }
    ensures elements { OnOk result (AllElements levels.now.braid.field sum.new.items) }
{
    let field = levels.braid().field();
    let _last = levels.last();
    let product = put_form(alloc, levels, memo, seat, pace, &term.word, form, spare)?;
    let rule = block_rule(levels, term.word.len() as u32, &product);
    put_terms(field, term.coefficient, rule.basis(), form.as_slice(), sum)?;
    Ok(())
}

/// Terms with the same values, where there are too many: those of one word are added up. `most` grows with what is left, so that
/// this isn't done often.
fn gathered(
    alloc: Global,
    field: Field,
    terms: Vec<Term>,
    most: &mut usize,
) -> Result<Vec<Term>, AllocError>
    requires elements { AllElements field terms.items }
    ensures values { IfOk result (λ r. HasSameValues field r.items terms.items) }
    ensures elements { IfOk result (λ r. AllElements field r.items) }
{
    let mut terms = terms;
    if terms.len() <= *most {
        return Ok(terms);
    }
    let sum = Comb::sum_of(alloc, field, terms.as_mut_slice())?.into_terms();
    *most = usize::max(*most, sum.len().saturating_mul(2));
    Ok(sum)
}

/// The normal form of a combination, each of whose words has a degree that is made, or is longer in closed levels: a word that is
/// longer than the last degree is zero there and adds nothing.
pub(crate) fn sum_of_forms(
    alloc: Global,
    levels: &Levels,
    memo: &Memo,
    seat: &mut MemoSeat,
    pace: &mut Pace,
    terms: &[Term],
) -> Result<Comb, AllocError>
    requires memo { braid_of memo.now ≡ levels.now.braid }
    requires seat { IsOf memo.now seat.old }
    requires letters { IsOver levels.now.braid.letters terms.now }
    requires elements { AllElements levels.now.braid.field terms.now }
    requires within { is_beyond levels.now.braid levels.now.last terms.now ≡ false }
    ensures seat { IsOf memo.now seat.new }
    ensures form { IfOk result (λ r. r ≡ normal_form_by_parts is_killed levels.now.braid terms.now) }
{
    let field = levels.braid().field();
    let last = levels.last() as usize;
    let mut form = Vec::new(alloc);
    let mut spare = Vec::new(alloc);
    let mut sum = Vec::new(alloc);
    let mut most = MANY_TERMS;
    for term in terms {
        if term.word.len() <= last {
            put_term(
                alloc, levels, memo, seat, pace, term, &mut sum, &mut form, &mut spare,
            )?;
        }
        sum = gathered(alloc, field, sum, &mut most)?;
    }
    let form = Comb::sum_of(alloc, field, sum.as_mut_slice())?;
    Ok(form)
}
