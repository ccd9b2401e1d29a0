//! The lines of refusals.

ghost use Rattle.std.specs.Prelude.{◌≡◌, ◌++◌, Some, IfOk, OnOk, codes, option_map};
ghost use Rattle.nichols_input.specs.Keys.{key_name};
ghost use Rattle.nichols_input.specs.Refusal.{field_refusal, refusal_of};
ghost use Rattle.nichols_text.specs.Refusals.{cause_words, document_line, expression_text, modulus_text, refusal_line};

use crate::key_line::unknown_key_text;
use crate::number::{numbered_text, push_integer, push_number, push_numbered};
use crate::table_lines::tables_text;
use nichols_expression::{NUMBER_LIMIT, TERM_LIMIT};
use nichols_field::FieldFault;
use nichols_input::{Cause, DOCUMENT_LIMIT, EXPRESSION_LIMIT, InputFault, Key};
use nichols_tensor::WORD_LIMIT;
use std::alloc::{AllocError, Global};

/// Why nothing is computed of a document.
#[derive(Debug, Drop)]
pub enum Refusal {
    /// The document has more bytes than `DOCUMENT_LIMIT`.
    TooLong,
    /// The document isn't read.
    Input(InputFault),
    /// An expression has a word that is too long to be symmetrized: the number, from 1, of the first that has one.
    LongExpression(u32),
}

/// The line of a refusal. Want of memory is no refusal, and has none: it is answered by an error.
#[tactic(auto, unfolding(crate::specs::Refusals::too_long_text, crate::specs::Refusals::long_expression_text))]
pub fn refusal_text(alloc: Global, refusal: &Refusal) -> Result<Vec<u8>, AllocError>
    ensures { IfOk result (λ r. refusal_line refusal.now ≡ Some r.items) }
{
    match refusal {
        Refusal::TooLong => numbered_text(
            alloc,
            "refused: document longer than ",
            DOCUMENT_LIMIT as u64,
            " bytes\n",
        ),
        Refusal::Input(fault) => input_text(alloc, fault),
        Refusal::LongExpression(number) => numbered_text(
            alloc,
            "refused: expression ",
            u64::from(*number),
            " longer than 7 letters\n",
        ),
    }
}

/// The line of a document that isn't read.
#[tactic(auto, unfolding(crate::specs::Refusals::not_toml_text, crate::specs::Refusals::missing_key_text, crate::specs::Refusals::wrong_kind_text, crate::specs::Refusals::order_text))]
fn input_text(alloc: Global, fault: &InputFault) -> Result<Vec<u8>, AllocError>
    ensures { IfOk result (λ r. option_map document_line (refusal_of fault.now) ≡ Some r.items) }
{
    match fault {
        InputFault::NotToml => Vec::from_slice(alloc, b"refused: not TOML\n"),
        InputFault::MissingKey(key) => key_text(alloc, "refused: missing key ", *key),
        InputFault::UnknownKey(key) => unknown_key_text(alloc, key),
        InputFault::WrongKind(key) => key_text(alloc, "refused: wrong kind at key ", *key),
        InputFault::Modulus(fault) => field_text(alloc, *fault),
        InputFault::Braid(tables) => tables_text(alloc, tables),
        InputFault::Order(place) => numbered_text(
            alloc,
            "refused: order wrong at place ",
            u64::from(*place),
            "\n",
        ),
        InputFault::Expression(number, place, cause) => {
            expression_text(alloc, *number, *place, *cause)
        }
        InputFault::Memory => Err(AllocError),
    }
}

/// A line that ends with a key.
fn key_text(alloc: Global, before: &str, key: Key) -> Result<Vec<u8>, AllocError>
    ensures { IfOk result (λ r. r.items ≡ before.now ++ key_name key ++ codes "\n") }
{
    let mut out = Vec::from_slice(alloc, before.as_bytes())?;
    out.extend_from_slice(key.name().as_bytes())?;
    out.extend_from_slice(b"\n")?;
    Ok(out)
}

/// The line of numbers that no field has.
#[tactic(auto, unfolding(crate::specs::Refusals::root_text))]
fn field_text(alloc: Global, fault: FieldFault) -> Result<Vec<u8>, AllocError>
    ensures { IfOk result (λ r. document_line (field_refusal fault) ≡ r.items) }
{
    match fault {
        FieldFault::OutsideList(p) => modulus_text(alloc, p),
        FieldFault::Root(r) => {
            numbered_text(alloc, "refused: extension has root ", u64::from(r), "\n")
        }
    }
}

/// The line of a modulus that is no field's.
#[tactic(auto, unfolding(crate::specs::Refusals::modulus_text))]
fn modulus_text(alloc: Global, p: i64) -> Result<Vec<u8>, AllocError>
    ensures { IfOk result (λ r. r.items ≡ modulus_text p) }
{
    let mut out = Vec::from_slice(alloc, b"refused: modulus ")?;
    push_integer(&mut out, p)?;
    out.extend_from_slice(b" not in the list\n")?;
    Ok(out)
}

/// Puts the words for what is wrong with an expression behind a text.
#[tactic(auto, unfolding(crate::specs::Refusals::cause_words))]
fn push_cause(out: &mut Vec<u8>, cause: Cause) -> Result<(), AllocError>
    ensures { OnOk result (out.new.items ≡ out.old.items ++ cause_words cause) }
{
    match cause {
        Cause::Early => push_words(out, "text ends too early"),
        Cause::Byte => push_words(out, "unexpected byte"),
        Cause::Letter => push_words(out, "letter outside the rack"),
        Cause::LongNumber => {
            push_numbered(out, "number longer than ", NUMBER_LIMIT as u64, " digits")
        }
        Cause::LongWord => push_numbered(out, "word longer than ", WORD_LIMIT as u64, " letters"),
        Cause::Terms => push_numbered(out, "more than ", TERM_LIMIT as u64, " terms"),
        Cause::Surplus => push_numbered(out, "more than ", EXPRESSION_LIMIT as u64, " expressions"),
    }
}

/// Puts words behind a text.
fn push_words(out: &mut Vec<u8>, words: &str) -> Result<(), AllocError>
    ensures { OnOk result (out.new.items ≡ out.old.items ++ words.now) }
{
    out.extend_from_slice(words.as_bytes())?;
    Ok(())
}

/// The line of a text that is no expression, by its number and the place of its first fault.
#[tactic(auto, unfolding(crate::specs::Refusals::expression_text))]
fn expression_text(
    alloc: Global,
    number: u32,
    place: usize,
    cause: Cause,
) -> Result<Vec<u8>, AllocError>
    ensures { IfOk result (λ r. r.items ≡ expression_text number place cause) }
{
    let mut out = Vec::from_slice(alloc, b"refused: expression ")?;
    push_number(&mut out, u64::from(number))?;
    out.extend_from_slice(b" at byte ")?;
    push_number(&mut out, place as u64)?;
    out.extend_from_slice(b": ")?;
    push_cause(&mut out, cause)?;
    out.extend_from_slice(b"\n")?;
    Ok(out)
}
