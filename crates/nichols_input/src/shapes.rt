//! Values of a document, read by their shapes.

ghost use Rattle.std.specs.Prelude.{◌≡◌, IfOk, map, option_map};
ghost use Rattle.nichols_braid.specs.GivenScalars.{given_scalars};
ghost use Rattle.nichols_input.specs.Shapes.{as_entries, as_entry, as_entry_rows, as_integers, as_pair, as_rows, as_scalars, as_texts, two_of};
ghost use Rattle.toml.specs.View.{view};

use nichols_braid::{Entry, Scalars};
use std::alloc::{AllocError, Global};
use toml::Value;

/// An array of integers.
pub(crate) fn as_integers(alloc: Global, value: &Value) -> Result<Option<Vec<i64>>, AllocError>
    ensures { IfOk result (λ r. option_map (λ v. v.items) r ≡ as_integers (view value.now)) }
{
    let Some(items) = value.as_array() else {
        return Ok(None);
    };
    let mut out = Vec::new(alloc);
    for item in items {
        match item.as_integer() {
            Some(v) => out.push(v)?,
            None => return Ok(None),
        }
    }
    Ok(Some(out))
}

/// An array of arrays of integers.
pub(crate) fn as_rows(alloc: Global, value: &Value) -> Result<Option<Vec<Vec<i64>>>, AllocError>
    ensures { IfOk result (λ r. option_map (λ rows. map (λ row. row.items) rows.items) r ≡ as_rows (view value.now)) }
{
    let Some(items) = value.as_array() else {
        return Ok(None);
    };
    let mut out = Vec::new(alloc);
    for item in items {
        match as_integers(alloc, item)? {
            Some(row) => out.push(row)?,
            None => return Ok(None),
        }
    }
    Ok(Some(out))
}

/// Two integers, where there are exactly two.
fn two_of(values: &[i64]) -> Option<(i64, i64)>
    ensures { result ≡ two_of values.now }
{
    match values {
        [u, v] => Some((*u, *v)),
        _ => None,
    }
}

/// An array of exactly two integers.
pub(crate) fn as_pair(alloc: Global, value: &Value) -> Result<Option<(i64, i64)>, AllocError>
    ensures { IfOk result (λ r. r ≡ as_pair (view value.now)) }
{
    match as_integers(alloc, value)? {
        Some(values) => Ok(two_of(values.as_slice())),
        None => Ok(None),
    }
}

/// An integer, or with an extension also an array of exactly two.
fn as_entry(alloc: Global, value: &Value, extended: bool) -> Result<Option<Entry>, AllocError>
    ensures { IfOk result (λ r. r ≡ as_entry extended (view value.now)) }
{
    if let Some(v) = value.as_integer() {
        return Ok(Some(Entry::Whole(v)));
    }
    if !extended {
        return Ok(None);
    }
    match as_pair(alloc, value)? {
        Some((u, v)) => Ok(Some(Entry::Pair(u, v))),
        None => Ok(None),
    }
}

/// An array of entries.
fn as_entries(
    alloc: Global,
    value: &Value,
    extended: bool,
) -> Result<Option<Vec<Entry>>, AllocError>
    ensures { IfOk result (λ r. option_map (λ v. v.items) r ≡ as_entries extended (view value.now)) }
{
    let Some(items) = value.as_array() else {
        return Ok(None);
    };
    let mut out = Vec::new(alloc);
    for item in items {
        match as_entry(alloc, item, extended)? {
            Some(entry) => out.push(entry)?,
            None => return Ok(None),
        }
    }
    Ok(Some(out))
}

/// An array of arrays of entries.
fn as_entry_rows(
    alloc: Global,
    value: &Value,
    extended: bool,
) -> Result<Option<Vec<Vec<Entry>>>, AllocError>
    ensures { IfOk result (λ r. option_map (λ rows. map (λ row. row.items) rows.items) r ≡ as_entry_rows extended (view value.now)) }
{
    let Some(items) = value.as_array() else {
        return Ok(None);
    };
    let mut out = Vec::new(alloc);
    for item in items {
        match as_entries(alloc, item, extended)? {
            Some(row) => out.push(row)?,
            None => return Ok(None),
        }
    }
    Ok(Some(out))
}

/// An entry, which stands at every place, or else an array of arrays of entries.
pub(crate) fn as_scalars(
    alloc: Global,
    value: &Value,
    extended: bool,
) -> Result<Option<Scalars>, AllocError>
    ensures { IfOk result (λ r. option_map given_scalars r ≡ as_scalars extended (view value.now)) }
{
    if let Some(entry) = as_entry(alloc, value, extended)? {
        return Ok(Some(Scalars::Constant(entry)));
    }
    match as_entry_rows(alloc, value, extended)? {
        Some(rows) => Ok(Some(Scalars::Table(rows))),
        None => Ok(None),
    }
}

/// An array of strings.
pub(crate) fn as_texts(alloc: Global, value: &Value) -> Result<Option<Vec<&str>>, AllocError>
    ensures { IfOk result (λ r. option_map (λ texts. map (λ text. text.now) texts.items) r ≡ as_texts (view value.now)) }
{
    let Some(items) = value.as_array() else {
        return Ok(None);
    };
    let mut out = Vec::new(alloc);
    for item in items {
        match item.as_str() {
            Some(text) => out.push(text)?,
            None => return Ok(None),
        }
    }
    Ok(Some(out))
}
