//! Words, combinations and relations.

ghost use Rattle.std.specs.Prelude.{◌≡◌, ◌++◌, OnOk, decimal};
ghost use Rattle.nichols_braid.specs.Order.{letter_at};
ghost use Rattle.nichols_expression.specs.Printed.{parts_text, coefficient_text, word_text, term_text, form_text};
ghost use Rattle.nichols_text.specs.Words.{relation_line};

use crate::number::push_number;
use nichols_braid::Order;
use nichols_field::Field;
use nichols_words::{Comb, Relation, Term, Word};
use std::alloc::AllocError;

/// The letter of a rank.
fn letter_of(order: &Order, rank: u8) -> u8
    ensures { result ≡ letter_at order.now rank }
{
    let place = usize::from(rank).saturating_sub(1);
    order.list().get(place).copied().unwrap_or(0)
}

/// Puts the letter of a rank behind a text.
fn push_letter(out: &mut Vec<u8>, order: &Order, rank: u8) -> Result<(), AllocError>
    ensures { OnOk result (out.new.items ≡ out.old.items ++ decimal (letter_at order.now rank)) }
{
    push_number(out, u64::from(letter_of(order, rank)))
}

/// Puts a word in ranks behind a text: its letters joined by dots, or `e`.
#[tactic(auto, unfolding(nichols_expression::specs::Printed::word_text))]
pub fn push_word(out: &mut Vec<u8>, order: &Order, word: &Word) -> Result<(), AllocError>
    ensures { OnOk result (out.new.items ≡ out.old.items ++ word_text order.now word.now) }
{
    let Some((first, rest)) = word.letters().split_first() else {
        out.extend_from_slice(b"e")?;
        return Ok(());
    };
    push_letter(out, order, *first)?;
    for rank in rest {
        out.extend_from_slice(b".")?;
        push_letter(out, order, *rank)?;
    }
    Ok(())
}

/// Puts the two numbers of an element behind a text: `u` alone where v is 0, and `(u,v)` else.
pub(crate) fn push_parts(out: &mut Vec<u8>, low: u32, high: u32) -> Result<(), AllocError>
    ensures { OnOk result (out.new.items ≡ out.old.items ++ parts_text low high) }
{
    if high == 0 {
        return push_number(out, u64::from(low));
    }
    out.extend_from_slice(b"(")?;
    push_number(out, u64::from(low))?;
    out.extend_from_slice(b",")?;
    push_number(out, u64::from(high))?;
    out.extend_from_slice(b")")?;
    Ok(())
}

/// Puts an element behind a text.
#[tactic(auto, unfolding(nichols_expression::specs::Printed::coefficient_text))]
fn push_coefficient(out: &mut Vec<u8>, field: Field, coefficient: u32) -> Result<(), AllocError>
    ensures { OnOk result (out.new.items ≡ out.old.items ++ coefficient_text field coefficient) }
{
    let (low, high) = field.pair(coefficient);
    push_parts(out, low, high)
}

/// Puts a term behind a text.
#[tactic(auto, unfolding(nichols_expression::specs::Printed::term_text))]
fn push_term(out: &mut Vec<u8>, field: Field, order: &Order, term: &Term) -> Result<(), AllocError>
    ensures { OnOk result (out.new.items ≡ out.old.items ++ term_text field order.now term.now) }
{
    push_coefficient(out, field, term.coefficient)?;
    out.extend_from_slice(b"*")?;
    push_word(out, order, &term.word)
}

/// Puts a combination behind a text: its terms joined by pluses, or `0`.
#[tactic(auto, unfolding(nichols_expression::specs::Printed::form_text))]
pub fn push_form(
    out: &mut Vec<u8>,
    field: Field,
    order: &Order,
    form: &Comb,
) -> Result<(), AllocError>
    ensures { OnOk result (out.new.items ≡ out.old.items ++ form_text field order.now form.now) }
{
    let Some((first, rest)) = form.terms().split_first() else {
        out.extend_from_slice(b"0")?;
        return Ok(());
    };
    push_term(out, field, order, first)?;
    for term in rest {
        out.extend_from_slice(b" + ")?;
        push_term(out, field, order, term)?;
    }
    Ok(())
}

/// Puts the line of a relation behind a text.
#[tactic(auto, unfolding(crate::specs::Words::relation_line))]
pub(crate) fn push_relation(
    out: &mut Vec<u8>,
    field: Field,
    order: &Order,
    relation: &Relation,
) -> Result<(), AllocError>
    ensures { OnOk result (out.new.items ≡ out.old.items ++ relation_line field order.now relation.now) }
{
    out.extend_from_slice(b"relation ")?;
    push_word(out, order, &relation.candidate)?;
    out.extend_from_slice(b" = ")?;
    push_form(out, field, order, &relation.form)?;
    out.extend_from_slice(b"\n")?;
    Ok(())
}
