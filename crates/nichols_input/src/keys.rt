//! What stands at the keys of a document.

ghost use Rattle.std.specs.Prelude.{◌≡◌, None, Some, IfOk, IfErr, IfSome, MatchResult, map, option_and_then, option_copied, option_map};
ghost use Rattle.nichols_braid.specs.GivenScalars.{given_scalars};
ghost use Rattle.nichols_input.specs.Document.{at_key, is_extended, keys_refusal, may_be, missing_in, texts_of, unknown_in};
ghost use Rattle.nichols_input.specs.Keys.{is_allowed, is_known};
ghost use Rattle.nichols_input.specs.Refusal.{refusal_of};
ghost use Rattle.nichols_input.specs.Shapes.{as_integers, as_pair, as_rows, as_scalars};
ghost use Rattle.nichols_input.specs.declared.faults.InputFault.TheVariants.{Memory};
ghost use Rattle.toml.specs.Data.{as_integer};
ghost use Rattle.toml.specs.View.{table_view, view};

use crate::faults::InputFault;
use crate::key::Key;
use crate::key_text::KeyText;
use crate::shapes::{as_integers, as_pair, as_rows, as_scalars, as_texts};
use nichols_braid::Scalars;
use std::alloc::{AllocError, Global};
use toml::{Table, Value};

/// Whether each key that a document has is there, and no other but the further one.
#[tactic(auto, unfolding(crate::specs::Document::keys_refusal))]
pub(crate) fn check_keys(
    alloc: Global,
    table: &Table,
    further: Option<&str>,
) -> Result<(), InputFault>
    ensures keys { MatchResult result
        (λ _. keys_refusal (option_copied further.entry) (table_view table.now) ≡ None)
        (λ fault. IfSome (refusal_of fault) (λ refusal. keys_refusal (option_copied further.entry) (table_view table.now) ≡ Some refusal)) }
    ensures memory { IfErr result (λ fault. refusal_of fault ≡ None → fault ≡ Memory) }
{
    if let Some(key) = missing_key(table) {
        return Err(InputFault::MissingKey(key));
    }
    if let Some(key) = unknown_key(table, further) {
        return Err(InputFault::UnknownKey(KeyText::new(alloc, key)?));
    }
    Ok(())
}

/// The first key that each document has and this one hasn't.
#[tactic(auto, unfolding(crate::specs::Document::missing_in))]
fn missing_key(table: &Table) -> Option<Key>
    ensures { result ≡ missing_in (table_view table.now) }
{
    if find(table, Key::Modulus).is_none() {
        return Some(Key::Modulus);
    }
    if find(table, Key::Rack).is_none() {
        return Some(Key::Rack);
    }
    if find(table, Key::Cocycle).is_none() {
        return Some(Key::Cocycle);
    }
    None
}

/// Whether a key is one of a document's.
fn is_known(key: &str) -> bool
    ensures { result ≡ is_known key.now }
{
    key == "modulus"
        || key == "extension"
        || key == "rack"
        || key == "cocycle"
        || key == "order"
        || key == "expressions"
}

/// Whether a key is one of a document's, or the further one.
fn is_allowed(further: Option<&str>, key: &str) -> bool
    ensures { result ≡ is_allowed (option_copied further.entry) key.now }
{
    match further {
        Some(name) => is_known(key) || key == name,
        None => is_known(key),
    }
}

/// The least key that is neither one of a document's nor the further one.
#[tactic(auto, unfolding(crate::specs::Document::unknown_in))]
fn unknown_key<'a>(table: &'a Table, further: Option<&str>) -> Option<&'a str>
    ensures { option_copied result ≡ unknown_in (option_copied further.entry) (table_view table.now) }
{
    for (key, _value) in table.iter() {
        if !is_allowed(further, key.as_str()) {
            return Some(key.as_str());
        }
    }
    None
}

/// The value at a key.
fn find(table: &Table, key: Key) -> Option<&Value>
    ensures { option_map (λ v. view v.now) result ≡ at_key key (table_view table.now) }
{
    table.get(key.name())
}

/// The integer at a key.
pub(crate) fn integer_at(table: &Table, key: Key) -> Option<i64>
    ensures { result ≡ option_and_then as_integer (at_key key (table_view table.now)) }
{
    match find(table, key) {
        Some(value) => value.as_integer(),
        None => None,
    }
}

/// The rows at a key.
pub(crate) fn rows_at(
    alloc: Global,
    table: &Table,
    key: Key,
) -> Result<Option<Vec<Vec<i64>>>, AllocError>
    ensures { IfOk result (λ r. option_map (λ rows. map (λ row. row.items) rows.items) r ≡ option_and_then as_rows (at_key key (table_view table.now))) }
{
    match find(table, key) {
        Some(value) => as_rows(alloc, value),
        None => Ok(None),
    }
}

/// Whether a document has an extension.
pub(crate) fn is_extended(table: &Table) -> bool
    ensures { result ≡ is_extended (table_view table.now) }
{
    find(table, Key::Extension).is_some()
}

/// The pair of integers at a key, which may be left out.
pub(crate) fn pair_at(
    alloc: Global,
    table: &Table,
    key: Key,
) -> Result<Option<Option<(i64, i64)>>, AllocError>
    ensures { IfOk result (λ r. r ≡ may_be as_pair (at_key key (table_view table.now))) }
{
    match find(table, key) {
        Some(value) => Ok(as_pair(alloc, value)?.map(Some)),
        None => Ok(Some(None)),
    }
}

/// The integers at a key, which may be left out.
pub(crate) fn integers_at(
    alloc: Global,
    table: &Table,
    key: Key,
) -> Result<Option<Option<Vec<i64>>>, AllocError>
    ensures { IfOk result (λ r. option_map (option_map (λ v. v.items)) r ≡ may_be as_integers (at_key key (table_view table.now))) }
{
    match find(table, key) {
        Some(value) => Ok(as_integers(alloc, value)?.map(Some)),
        None => Ok(Some(None)),
    }
}

/// The scalars at a key, with or without an extension.
pub(crate) fn scalars_at(
    alloc: Global,
    table: &Table,
    key: Key,
    extended: bool,
) -> Result<Option<Scalars>, AllocError>
    ensures { IfOk result (λ r. option_map given_scalars r ≡ option_and_then (as_scalars extended) (at_key key (table_view table.now))) }
{
    match find(table, key) {
        Some(value) => as_scalars(alloc, value, extended),
        None => Ok(None),
    }
}

/// The texts at a key, and none where it isn't there.
pub(crate) fn texts_at(
    alloc: Global,
    table: &Table,
    key: Key,
) -> Result<Option<Vec<&str>>, AllocError>
    ensures { IfOk result (λ r. option_map (λ texts. map (λ text. text.now) texts.items) r ≡ texts_of (at_key key (table_view table.now))) }
{
    match find(table, key) {
        Some(value) => as_texts(alloc, value),
        None => Ok(Some(Vec::new(alloc))),
    }
}
