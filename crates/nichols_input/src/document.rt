//! Documents.

ghost use Rattle.std.specs.Prelude.{◌≡◌, ◌≤◌, None, Some, Ok, Err, IsTrue, MatchResult, IfOk, IfErr, IfSome, is_some, length, map, option_copied, option_map};
ghost use Rattle.std.specs.List.{AllByRecursion};
ghost use Rattle.nichols_braid.specs.GivenScalars.{given_scalars};
ghost use Rattle.nichols_field.specs.Field.{is_extended};
ghost use Rattle.nichols_input.specs.Document.{document_in, document_of, document_of_table, document_with, field_of, order_of, table_in, value_in};
ghost use Rattle.nichols_input.specs.Tables.{AreEntriesIf, given_in};
ghost use Rattle.nichols_input.specs.Refusal.{not_toml, refusal_of};
ghost use Rattle.nichols_expression.specs.declared.TheConstants.{EXPRESSION_LIMIT};
ghost use Rattle.nichols_input.specs.declared.faults.InputFault.TheVariants.{Memory};
ghost use Rattle.nichols_tensor.specs.Combination.{AllElements};
ghost use Rattle.nichols_tensor.specs.Words.{IsOver};
ghost use Rattle.nichols_tensor.specs.declared.TheConstants.{LETTER_LIMIT};
ghost use Rattle.toml.specs.Data.{get_member};
ghost use Rattle.toml.specs.View.{table_view, view};

use crate::expressions::read_expressions;
use crate::faults::InputFault;
use crate::key::Key;
use crate::keys::{
    check_keys, integer_at, integers_at, is_extended, pair_at, rows_at, scalars_at, texts_at,
};
use nichols_braid::{Braid, Order, Scalars};
use nichols_field::{Field, FieldFault};
use nichols_words::Comb;
use std::alloc::Global;
use std::marker::Model;
use toml::{Table, Value};

/// An order of the letters, and in ranks a braid and combinations of words of its letters with elements of its field as coefficients.
#[derive(Drop)]
pub struct Document {
    /// The braid on ranks.
    pub braid: Braid,
    /// The letters of the document, from the least to the greatest.
    pub order: Order,
    /// The values of the expressions, in ranks.
    pub expressions: Vec<Comb>,
}

impl Model for Document {
    ghost use Rattle.nichols_input.specs.Document.{DocumentValue};

    ghost Value = { DocumentValue };

    ghost view = { λ d. record { braid = d.braid; order = d.order; expressions = d.expressions.items } };
}

/// The document that bytes are: TOML with the keys `modulus`, an integer, `rack`, an array of arrays of integers, and
/// `cocycle`, an entry or an array of arrays of entries, maybe with the keys `extension`, an array of exactly two integers,
/// `order`, an array of integers, and `expressions`, an array of strings, and with no others. An entry is an integer, or where
/// the key `extension` is there also an array of exactly two integers.
///
/// Row i of `rack` has the letter `i ▷ j` at place j, and row i of `cocycle` the scalar `q(i, j)`; an entry alone stands
/// at every place. `extension = [a, b]` adds an element t with t² = a t + b to the field, and the entry `[u, v]` is u + v t.
/// `order` lists the letters from the least to the greatest, and is 1 to n where it is left out. Each string is an expression
/// over the letters. The faults are told in the order of `InputFault`.
#[tactic(auto, using(crate::proofs::Found::read_plain, crate::proofs::Found::refused_plain))]
pub fn read_document(alloc: Global, bytes: &[u8]) -> Result<Document, InputFault>
    ensures document { MatchResult result
        (λ d. document_in bytes.now ≡ Ok d)
        (λ fault. IfSome (refusal_of fault) (λ refusal. document_in bytes.now ≡ Err refusal)) }
    ensures memory { IfErr result (λ fault. refusal_of fault ≡ None → fault ≡ Memory) }
    ensures order { IfOk result (λ d. length d.order ≡ d.braid.letters) }
    ensures letters { IfOk result (λ d. AllByRecursion (IsOver d.braid.letters) d.expressions) }
    ensures elements { IfOk result (λ d. AllByRecursion (AllElements d.braid.field) d.expressions) }
    ensures number { IfOk result (λ d. length d.expressions ≤ EXPRESSION_LIMIT) }
{
    let table = top_table(alloc, bytes)?;
    document_of_table(alloc, &table, None)
}

/// The document that bytes are where one further key is allowed, and the value at that key: `None` exactly where it isn't
/// there. All else is as `read_document` has it, and a fault comes exactly where it refuses the bytes for anything
/// but that key. A key that documents have anyway is read as it always is, and its value is handed out, too.
#[tactic(auto, using(crate::proofs::Found::read_with, crate::proofs::Found::refused_with, crate::proofs::Found::read_value))]
pub fn read_certified(
    alloc: Global,
    bytes: &[u8],
    extra: &str,
) -> Result<(Document, Option<Value>), InputFault>
    ensures document { MatchResult result
        (λ r. document_with (Some extra.now) bytes.now ≡ Ok r.0)
        (λ fault. IfSome (refusal_of fault) (λ refusal. document_with (Some extra.now) bytes.now ≡ Err refusal)) }
    ensures value { IfOk result (λ r. option_map view r.1 ≡ value_in extra.now bytes.now) }
    ensures memory { IfErr result (λ fault. refusal_of fault ≡ None → fault ≡ Memory) }
    ensures order { IfOk result (λ r. length r.0.order ≡ r.0.braid.letters) }
    ensures letters { IfOk result (λ r. AllByRecursion (IsOver r.0.braid.letters) r.0.expressions) }
    ensures elements { IfOk result (λ r. AllByRecursion (AllElements r.0.braid.field) r.0.expressions) }
    ensures number { IfOk result (λ r. length r.0.expressions ≤ EXPRESSION_LIMIT) }
{
    let table = top_table(alloc, bytes)?;
    let document = document_of_table(alloc, &table, Some(extra))?;
    Ok((document, taken(table, extra)))
}

/// The value at a key of a table that is given up.
fn taken(table: Table, key: &str) -> Option<Value>
    ensures { option_map view result ≡ get_member key.now (table_view table) }
{
    let mut rest = table;
    rest.remove(key)
}

/// The top table of bytes that are TOML.
#[tactic(auto, using(crate::proofs::Found::is_table, crate::proofs::Found::no_table))]
fn top_table(alloc: Global, bytes: &[u8]) -> Result<Table, InputFault>
    ensures table { MatchResult result
        (λ table. table_in bytes.now ≡ Some (table_view table))
        (λ fault. IfSome (refusal_of fault) (λ refusal. (refusal ≡ not_toml) × (table_in bytes.now ≡ None))) }
    ensures memory { IfErr result (λ fault. refusal_of fault ≡ None → fault ≡ Memory) }
{
    match toml::table_from_slice(alloc, bytes) {
        Ok(table) => Ok(table),
        Err(error) => {
            if error.is_memory() {
                return Err(InputFault::Memory);
            }
            Err(InputFault::NotToml)
        }
    }
}

/// The document of a top table, where a further key is allowed, if one is.
#[tactic(auto, using(crate::proofs::ReadKinds::wrong_modulus, crate::proofs::ReadKinds::wrong_extension, crate::proofs::ReadKinds::wrong_rack))]
fn document_of_table(
    alloc: Global,
    table: &Table,
    further: Option<&str>,
) -> Result<Document, InputFault>
    ensures document { MatchResult result
        (λ d. document_of_table (option_copied further.entry) (table_view table.now) ≡ Ok d)
        (λ fault. IfSome (refusal_of fault) (λ refusal. document_of_table (option_copied further.entry) (table_view table.now) ≡ Err refusal)) }
    ensures memory { IfErr result (λ fault. refusal_of fault ≡ None → fault ≡ Memory) }
    ensures order { IfOk result (λ d. length d.order ≡ d.braid.letters) }
    ensures letters { IfOk result (λ d. AllByRecursion (IsOver d.braid.letters) d.expressions) }
    ensures elements { IfOk result (λ d. AllByRecursion (AllElements d.braid.field) d.expressions) }
    ensures number { IfOk result (λ d. length d.expressions ≤ EXPRESSION_LIMIT) }
{
    check_keys(alloc, table, further)?;
    let extended = is_extended(table);
    let Some(modulus) = integer_at(table, Key::Modulus) else {
        return Err(InputFault::WrongKind(Key::Modulus));
    };
    let Some(extension) = pair_at(alloc, table, Key::Extension)? else {
        return Err(InputFault::WrongKind(Key::Extension));
    };
    let Some(rack) = rows_at(alloc, table, Key::Rack)? else {
        return Err(InputFault::WrongKind(Key::Rack));
    };
    let Some(scalars) = scalars_at(alloc, table, Key::Cocycle, extended)? else {
        return Err(InputFault::WrongKind(Key::Cocycle));
    };
    let Some(order) = integers_at(alloc, table, Key::Order)? else {
        return Err(InputFault::WrongKind(Key::Order));
    };
    let Some(texts) = texts_at(alloc, table, Key::Expressions)? else {
        return Err(InputFault::WrongKind(Key::Expressions));
    };
    let given = GivenTables {
        modulus,
        extension,
        rack,
        scalars,
        order,
    };
    document_of(alloc, &given, texts.as_slice())
}

/// What stands at the keys of a document but for its texts.
#[derive(Drop)]
struct GivenTables {
    modulus: i64,
    extension: Option<(i64, i64)>,
    rack: Vec<Vec<i64>>,
    scalars: Scalars,
    order: Option<Vec<i64>>,
}

/// The field of a modulus, with or without an extension.
#[tactic(auto, using(nichols_field::proofs::Given::extended_is_field))]
fn field_of(modulus: i64, extension: Option<(i64, i64)>) -> Result<Field, FieldFault>
    ensures value { result ≡ field_of modulus extension }
    ensures extended { IfOk result (λ field. IsTrue (is_some extension) → IsTrue (is_extended field)) }
{
    match extension {
        None => Field::new(modulus),
        Some((a, b)) => Field::extended(modulus, a, b),
    }
}

/// The order of so many letters that is given; it is 1 to n where none is.
fn order_of(letters: u8, given: &Option<Vec<i64>>) -> Result<Order, u32>
    requires least { 1 ≤ letters }
    requires most { letters ≤ LETTER_LIMIT }
    ensures value { MatchResult result
        (λ order. order_of letters (option_map (λ v. v.items) given.now) ≡ Ok order)
        (λ place. order_of letters (option_map (λ v. v.items) given.now) ≡ Err place) }
    ensures letters { IfOk result (λ order. length order ≡ letters) }
{
    match given {
        None => Ok(Order::plain(letters)),
        Some(list) => Order::new(letters, list.as_slice()),
    }
}

/// The document of what is given: its field, its braid, its order, and then its expressions.
#[tactic(auto, unfolding(crate::specs::Document::document_of))]
fn document_of(alloc: Global, given: &GivenTables, texts: &[&str]) -> Result<Document, InputFault>
    requires { AreEntriesIf (is_some given.now.extension) (given_scalars given.now.scalars) }
    ensures document { let due = document_of (given_in given.now (map (λ text. text.now) texts.now)) in MatchResult result
        (λ d. due ≡ Ok d)
        (λ fault. IfSome (refusal_of fault) (λ refusal. due ≡ Err refusal)) }
    ensures memory { IfErr result (λ fault. refusal_of fault ≡ None → fault ≡ Memory) }
    ensures order { IfOk result (λ d. length d.order ≡ d.braid.letters) }
    ensures letters { IfOk result (λ d. AllByRecursion (IsOver d.braid.letters) d.expressions) }
    ensures elements { IfOk result (λ d. AllByRecursion (AllElements d.braid.field) d.expressions) }
    ensures number { IfOk result (λ d. length d.expressions ≤ EXPRESSION_LIMIT) }
{
    let field = field_of(given.modulus, given.extension)?;
    let braid = Braid::new(alloc, field, given.rack.as_slice(), &given.scalars)?;
    let order = match order_of(braid.letters(), &given.order) {
        Ok(order) => order,
        Err(place) => return Err(InputFault::Order(place)),
    };
    let ranked = braid.relabel(alloc, &order)?;
    let expressions = read_expressions(alloc, &ranked, &order, texts)?;
    Ok(Document {
        braid: ranked,
        order,
        expressions,
    })
}
