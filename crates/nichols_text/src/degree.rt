//! The piece of a degree.

ghost use Rattle.std.specs.Prelude.{◌≡◌, ◌++◌, ℕ, List, IfOk, OnOk, true, length};
ghost use Rattle.std.specs.List.{flat_map};
ghost use Rattle.nichols_field.specs.Field.{FieldValue};
ghost use Rattle.nichols_tensor.specs.Relation.{PlainRelation};
ghost use Rattle.nichols_text.specs.Words.{relation_line};
ghost use Rattle.nichols_text.specs.Pieces.{degree_piece, dimension_line, basis_line};

use crate::number::push_number;
use crate::word::{push_relation, push_word};
use nichols_braid::Order;
use nichols_field::Field;
use nichols_words::{Relation, Word};
use std::alloc::{AllocError, Global};

/// The piece of degree m: its dimension and, unless brief, its basis and its relations, in the order given.
///
/// Words are in ranks, and are printed with the letters of these ranks.
#[tactic(auto, unfolding(crate::specs::Pieces::degree_piece))]
pub fn degree_text(
    alloc: Global,
    field: Field,
    order: &Order,
    m: u32,
    basis: &[Word],
    relations: &[Relation],
    brief: bool,
) -> Result<Vec<u8>, AllocError>
    ensures { IfOk result (λ r. r.items ≡ degree_piece field order.now m basis.now relations.now brief) }
{
    let mut out = Vec::new(alloc);
    push_dimension(&mut out, m, basis.len() as u64)?;
    if !brief {
        push_basis(&mut out, order, basis)?;
        push_relations(&mut out, field, order, relations)?;
    }
    Ok(out)
}

/// The piece of degree m in brief, from its dimension alone.
#[tactic(auto, unfolding(crate::specs::Pieces::degree_piece))]
pub fn brief_degree_text(alloc: Global, m: u32, dimension: u64) -> Result<Vec<u8>, AllocError>
    ensures { IfOk result (λ r. (field : FieldValue) (order : List ℕ) (basis : List (List ℕ)) (relations : List PlainRelation) → length basis ≡ dimension → r.items ≡ degree_piece field order m basis relations true) }
{
    let mut out = Vec::new(alloc);
    push_dimension(&mut out, m, dimension)?;
    Ok(out)
}

/// Puts the line of the dimension behind a text.
#[tactic(auto, unfolding(crate::specs::Pieces::dimension_line))]
fn push_dimension(out: &mut Vec<u8>, m: u32, dimension: u64) -> Result<(), AllocError>
    ensures { OnOk result (out.new.items ≡ out.old.items ++ dimension_line m dimension) }
{
    out.extend_from_slice(b"degree ")?;
    push_number(out, u64::from(m))?;
    out.extend_from_slice(b" dimension ")?;
    push_number(out, dimension)?;
    out.extend_from_slice(b"\n")?;
    Ok(())
}

/// Puts the line of the basis behind a text.
#[tactic(auto, unfolding(crate::specs::Pieces::basis_line))]
fn push_basis(out: &mut Vec<u8>, order: &Order, basis: &[Word]) -> Result<(), AllocError>
    ensures { OnOk result (out.new.items ≡ out.old.items ++ basis_line order.now basis.now) }
{
    out.extend_from_slice(b"basis")?;
    for word in basis {
        out.extend_from_slice(b" ")?;
        push_word(out, order, word)?;
    }
    out.extend_from_slice(b"\n")?;
    Ok(())
}

/// Puts the lines of the relations behind a text.
fn push_relations(
    out: &mut Vec<u8>,
    field: Field,
    order: &Order,
    relations: &[Relation],
) -> Result<(), AllocError>
    ensures { OnOk result (out.new.items ≡ out.old.items ++ flat_map (relation_line field order.now) relations.now) }
{
    for relation in relations {
        push_relation(out, field, order, relation)?;
    }
    Ok(())
}
