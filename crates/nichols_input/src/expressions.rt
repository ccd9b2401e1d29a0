//! The expressions of a document.

ghost use Rattle.std.specs.Prelude.{◌≡◌, ◌≤◌, ◌+◌, None, Ok, Err, MatchResult, IfOk, IfErr, IfSome, length, map};
ghost use Rattle.std.specs.List.{AllByRecursion};
ghost use Rattle.nichols_input.specs.Document.{value_of, values_from};
ghost use Rattle.nichols_input.specs.Refusal.{refusal_of};
ghost use Rattle.nichols_input.specs.declared.faults.InputFault.TheVariants.{Memory};
ghost use Rattle.nichols_tensor.specs.Combination.{AllElements};
ghost use Rattle.nichols_tensor.specs.Words.{IsOver};

use crate::faults::InputFault;
use nichols_braid::{Braid, Order};
use nichols_expression::{Cause, EXPRESSION_LIMIT, ExpressionFault, read_expression};
use nichols_words::Comb;
use std::alloc::Global;

/// The values of expressions, numbered from 1 on.
pub(crate) fn read_expressions(
    alloc: Global,
    braid: &Braid,
    order: &Order,
    texts: &[&str],
) -> Result<Vec<Comb>, InputFault>
    requires { length order.now ≡ braid.now.letters }
    ensures values { MatchResult result
        (λ fs. values_from braid.now order.now 1 (map (λ text. text.now) texts.now) ≡ Ok fs.items)
        (λ fault. IfSome (refusal_of fault) (λ refusal. values_from braid.now order.now 1 (map (λ text. text.now) texts.now) ≡ Err refusal)) }
    ensures memory { IfErr result (λ fault. refusal_of fault ≡ None → fault ≡ Memory) }
    ensures letters { IfOk result (λ fs. AllByRecursion (IsOver braid.now.letters) fs.items) }
    ensures elements { IfOk result (λ fs. AllByRecursion (AllElements braid.now.field) fs.items) }
    ensures number { IfOk result (λ fs. length fs.items ≤ EXPRESSION_LIMIT) }
{
    let mut values = Vec::new(alloc);
    for text in texts {
        values.push(read_numbered(alloc, braid, order, values.len() + 1, text)?)?;
    }
    Ok(values)
}

/// The value of the expression of this number.
fn read_numbered(
    alloc: Global,
    braid: &Braid,
    order: &Order,
    number: usize,
    text: &str,
) -> Result<Comb, InputFault>
    requires order { length order.now ≡ braid.now.letters }
    requires number { number ≤ EXPRESSION_LIMIT + 1 }
    ensures value { MatchResult result
        (λ f. value_of braid.now order.now number text.now ≡ Ok f)
        (λ fault. IfSome (refusal_of fault) (λ refusal. value_of braid.now order.now number text.now ≡ Err refusal)) }
    ensures memory { IfErr result (λ fault. refusal_of fault ≡ None → fault ≡ Memory) }
    ensures letters { IfOk result (IsOver braid.now.letters) }
    ensures elements { IfOk result (AllElements braid.now.field) }
    ensures number { IfOk result (λ _. number ≤ EXPRESSION_LIMIT) }
{
    if number > EXPRESSION_LIMIT {
        return Err(InputFault::Expression(number as u32, 1, Cause::Surplus));
    }
    match read_expression(alloc, braid, order, text) {
        Ok(value) => Ok(value),
        Err(ExpressionFault::At(place, cause)) => {
            Err(InputFault::Expression(number as u32, place, cause))
        }
        Err(ExpressionFault::Memory) => Err(InputFault::Memory),
    }
}
