//! The normal forms of the words of a block with a letter behind or in front.

ghost use Rattle.std.specs.Prelude.{◌≡◌, ◌<◌, ◌≤◌, ◌+◌, ◌-◌, ◌++◌, ◌∷◌, ℕ, Some, None, [], IfOk, OnOk, MatchOption, drop, false, length, map, slice_index, slice_index_or, take, true};
ghost use Rattle.nichols_tensor.specs.Combination.{single};
ghost use Rattle.nichols_tensor.specs.Positions.{word_at};
ghost use Rattle.nichols_braid.specs.Braid.{IsLetter};
ghost use Rattle.nichols_braid.specs.Kernel.{is_killed};
ghost use Rattle.nichols_braid.specs.Least.{is_least, normal_form};
ghost use Rattle.nichols_braid.specs.Product.{product_before};
ghost use Rattle.nichols_echelon.specs.Cells.{AllBelow, AllElements, AllNonzero};
ghost use Rattle.nichols_echelon.specs.Combination.{AllRowsBelow, AllRowsElements, AreRows};
ghost use Rattle.nichols_echelon.specs.Sums.{IsZero};
ghost use Rattle.nichols_rows.specs.Places.{IsInside};
ghost use Rattle.nichols_value.specs.Block.{block_basis, left_lower_basis, lower_basis};
ghost use Rattle.nichols_value.specs.Kept.{AreCellsOf};
ghost use Rattle.nichols_value.specs.Rule.{rule_of};
ghost use Rattle.nichols_block.specs.Below.{AreSent};
ghost use Rattle.nichols_block.specs.Forms.{AreFormsOf};
ghost use Rattle.nichols_block.specs.Lower.{AreLowerRules, IsUpperBlock};
ghost use Rattle.nichols_block.specs.Pass.{IsOfBlock, IsPassing, IsSumPushed, IsSumPushedAt, least_more, new_cells, spots_more, with_row_of};
ghost use Rattle.nichols_block.specs.Places.{ArePlacesOf};
ghost use Rattle.nichols_block.specs.Rows.{AreRulesBelow, rows_by};
ghost use Rattle.nichols_block.specs.Words.{AreListed, IsBackPlace, IsFrontPlace, but_last};

use crate::MOST_PLACES;
use crate::derivatives::rule_at;
use crate::empty::empty_rows_by_letter;
use crate::lower::{all_sent, rules_below};
use crate::words::Listed;
use nichols_braid::Braid;
use nichols_echelon::{Cell, Place, Rows, Sums};
use nichols_field::Field;
use nichols_value::{BlockKey, BlockRule, LowerValue, Spot};
use nichols_words::Word;
use std::alloc::{AllocError, Global};

/// The rows of the normal forms of a block, by letter from letter 1 on, and where those of its relations stand.
#[derive(Drop)]
pub(crate) struct BlockForms {
    pub(crate) right: Vec<Rows>,
    pub(crate) left: Vec<Rows>,
    pub(crate) spots: Vec<Spot>,
}

/// The new words that a pass has met: the number of each, which is its place among the least words if it is one of them, and how
/// many least words there are. The cells are those of the last one.
#[derive(Drop)]
struct Numbers {
    columns: Vec<u32>,
    least: u32,
    cells: Vec<Cell>,
}

/// Closes the combination of rows with these coefficients, added up, as a row behind others. The sums are 0 before and after.
fn push_many(
    field: Field,
    cells: &[Cell],
    from: &Rows,
    sums: &mut Sums,
    into: &mut Rows,
) -> Result<(), AllocError>
    requires factors { AllElements field cells.now }
    requires places { AllBelow (length from.now.rows) cells.now }
    requires elements { AllRowsElements field from.now.rows }
    requires below { AllRowsBelow (length sums.old) from.now.rows }
    requires zero { IsZero field sums.old }
    requires begun { into.old.begun ≡ [] }
    ensures zero { OnOk result (IsZero field sums.new) }
    ensures width { OnOk result (length sums.new ≡ length sums.old) }
    ensures pushed { OnOk result (IsSumPushed field from.now.rows cells.now into.old into.new) }
{
    let _modulus = field.modulus();
    for cell in cells {
        sums.add_scaled(field, cell.coefficient, from.row(cell.column as usize));
    }
    sums.drain_into(field, into)
}

/// The same, where a combination of one row, or of none, is a multiple of that row with no sum.
fn push_sum(
    field: Field,
    cells: &[Cell],
    from: &Rows,
    sums: &mut Sums,
    into: &mut Rows,
) -> Result<(), AllocError>
    requires factors { AllElements field cells.now }
    requires nonzero { AllNonzero cells.now }
    requires places { AllBelow (length from.now.rows) cells.now }
    requires rows { AreRows from.now.rows }
    requires elements { AllRowsElements field from.now.rows }
    requires below { AllRowsBelow (length sums.old) from.now.rows }
    requires zero { IsZero field sums.old }
    requires begun { into.old.begun ≡ [] }
    ensures zero { OnOk result (IsZero field sums.new) }
    ensures width { OnOk result (length sums.new ≡ length sums.old) }
    ensures pushed { OnOk result (IsSumPushed field from.now.rows cells.now into.old into.new) }
{
    let _modulus = field.modulus();
    let Some((cell, rest)) = cells.split_first() else {
        return into.close();
    };
    if rest.is_empty() {
        return into.push_multiple(field, cell.coefficient, from.row(cell.column as usize));
    }
    push_many(field, cells, from, sums, into)
}

/// The same for the rows of a letter, behind those of a letter on the other side.
fn push_sum_at(
    field: Field,
    cells: &[Cell],
    from: &[Rows],
    letter: u8,
    sums: &mut Sums,
    into: &mut Vec<Rows>,
    behind: u8,
) -> Result<(), AllocError>
    requires letter { 1 ≤ letter }
    requires letters { letter ≤ length from.now }
    requires behind { 1 ≤ behind }
    requires behinds { behind ≤ length into.old.items }
    requires factors { AllElements field cells.now }
    requires nonzero { AllNonzero cells.now }
    requires places { AllBelow (length (rows_by from.now letter).rows) cells.now }
    requires rows { AreRows (rows_by from.now letter).rows }
    requires elements { AllRowsElements field (rows_by from.now letter).rows }
    requires below { AllRowsBelow (length sums.old) (rows_by from.now letter).rows }
    requires zero { IsZero field sums.old }
    requires begun { (rows_by into.old.items behind).begun ≡ [] }
    ensures zero { OnOk result (IsZero field sums.new) }
    ensures width { OnOk result (length sums.new ≡ length sums.old) }
    ensures pushed { OnOk result (IsSumPushedAt field (rows_by from.now letter).rows cells.now into.old.items behind into.new.items) }
{
    push_sum(
        field,
        cells,
        &from[usize::from(letter) - 1],
        sums,
        &mut into[usize::from(behind) - 1],
    )
}

/// Closes a row of these cells behind those of a letter.
fn push_row_at(lists: &mut Vec<Rows>, letter: u8, cells: &[Cell]) -> Result<(), AllocError>
    requires some { 1 ≤ letter }
    requires most { letter ≤ length lists.old.items }
    requires begun { (rows_by lists.old.items letter).begun ≡ [] }
    ensures { OnOk result (lists.new.items ≡ with_row_of lists.old.items letter cells.now) }
{
    lists[usize::from(letter) - 1].push_row(cells)
}

/// Puts down that the next row of a letter is that of a relation.
fn push_spot(spots: &mut Vec<Spot>, letter: u8, rows: &[Rows]) -> Result<(), AllocError>
    requires some { 1 ≤ letter }
    requires most { letter ≤ length rows.now }
    ensures { OnOk result (spots.new.items ≡ spots.old.items ++ record { letter = letter; place = length (rows_by rows.now letter).rows } ∷ []) }
{
    let place = rows[usize::from(letter) - 1].len();
    if place > MOST_PLACES {
        return Err(AllocError);
    }
    spots.push(Spot {
        letter,
        place: place as u32,
    })?;
    Ok(())
}

/// Puts the cells of a new word's row in place of the last ones: its own place among the least words, or those of the words that
/// it depends on.
fn put_cells(
    place: &Place,
    columns: &[u32],
    least: u32,
    cells: &mut Vec<Cell>,
) -> Result<(), AllocError>
    requires { IsInside (length columns.now) place.now }
    ensures { OnOk result (cells.new.items ≡ new_cells columns.now least place.now) }
{
    cells.clear();
    match place {
        Place::Independent => cells.push(Cell {
            column: least,
            coefficient: 1,
        })?,
        Place::Depends(row) => {
            for cell in row.cells() {
                cells.push(Cell {
                    column: columns[cell.column as usize],
                    coefficient: cell.coefficient,
                })?;
            }
        }
    }
    Ok(())
}

/// Gives the next new word its number, and puts its cells.
fn number(place: &Place, numbers: &mut Numbers) -> Result<(), AllocError>
    requires inside { IsInside (length numbers.old.columns.items) place.now }
    ensures cells { OnOk result (numbers.new.cells.items ≡ new_cells numbers.old.columns.items numbers.old.least place.now) }
    ensures columns { OnOk result (numbers.new.columns.items ≡ numbers.old.columns.items ++ numbers.old.least ∷ []) }
    ensures least { OnOk result (numbers.new.least ≡ least_more numbers.old.least place.now) }
{
    put_cells(
        place,
        numbers.columns.as_slice(),
        numbers.least,
        &mut numbers.cells,
    )?;
    numbers.columns.push(numbers.least)?;
    if let Place::Independent = place {
        if numbers.least == u32::MAX {
            return Err(AllocError);
        }
        numbers.least += 1;
    }
    Ok(())
}

/// Puts the rows of a new word on both sides, and its spot if it depends on others.
fn push_new(
    place: &Place,
    a: u8,
    b: u8,
    numbers: &mut Numbers,
    forms: &mut BlockForms,
) -> Result<(), AllocError>
    requires inside { IsInside (length numbers.old.columns.items) place.now }
    requires first { 1 ≤ a }
    requires first_most { a ≤ length forms.old.left.items }
    requires last { 1 ≤ b }
    requires last_most { b ≤ length forms.old.right.items }
    requires left_begun { (rows_by forms.old.left.items a).begun ≡ [] }
    requires right_begun { (rows_by forms.old.right.items b).begun ≡ [] }
    ensures columns { OnOk result (numbers.new.columns.items ≡ numbers.old.columns.items ++ numbers.old.least ∷ []) }
    ensures least { OnOk result (numbers.new.least ≡ least_more numbers.old.least place.now) }
    ensures right { OnOk result (forms.new.right.items ≡ with_row_of forms.old.right.items b (new_cells numbers.old.columns.items numbers.old.least place.now)) }
    ensures left { OnOk result (forms.new.left.items ≡ with_row_of forms.old.left.items a (new_cells numbers.old.columns.items numbers.old.least place.now)) }
    ensures spots { OnOk result (forms.new.spots.items ≡ spots_more forms.old.spots.items b (length (rows_by forms.old.right.items b).rows) place.now) }
{
    number(place, numbers)?;
    if let Place::Depends(_) = place {
        push_spot(&mut forms.spots, b, forms.right.as_slice())?;
    }
    push_row_at(&mut forms.right, b, numbers.cells.as_slice())?;
    push_row_at(&mut forms.left, a, numbers.cells.as_slice())
}

/// The letter that is sent to a letter, from a table.
fn sent_at(braid: &Braid, key: &BlockKey, sent: &[u8], letter: u8) -> u8
    requires sent { AreSent braid.now key.now.degree key.now.product sent.now }
    requires letter { IsLetter braid.now letter }
    ensures letter { IsLetter braid.now result }
    ensures sent { slice_index key.now.product (result - 1) ≡ letter }
    ensures words { left_lower_basis braid.now key.now.degree key.now.product letter ≡ lower_basis braid.now key.now.degree key.now.product result }
{
    sent[usize::from(letter) - 1]
}

/// Where a word of the block stands without its end letters, by its place without the last one: its place in the lower block by the
/// last letter of the one by c, c being sent to the first letter.
fn back_of(
    braid: &Braid,
    key: &BlockKey,
    rules: &[Option<&BlockRule>],
    c: u8,
    word: &Word,
    place: u32,
) -> usize
    requires block { IsUpperBlock braid.now key.now }
    requires rules { AreRulesBelow braid.now key.now.degree key.now.product rules.now }
    requires letter { IsLetter braid.now c }
    requires sent { slice_index key.now.product (c - 1) ≡ slice_index word.now 0 }
    requires word { IsOfBlock braid.now key.now.degree key.now.product word.now }
    requires long { 2 ≤ length word.now }
    requires place { IsFrontPlace (lower_basis braid.now key.now.degree key.now.product) word.now place }
    ensures below { result < length (lower_basis braid.now (key.now.degree - 1) (product_before braid.now c key.now.product) (slice_index word.now (length word.now - 1))) }
    ensures place { word_at (lower_basis braid.now (key.now.degree - 1) (product_before braid.now c key.now.product) (slice_index word.now (length word.now - 1))) result ≡ take (length word.now - 2) (drop 1 word.now) }
{
    let _field = braid.field();
    let b = word.letter(word.len() - 1);
    let Some(own) = rule_at(braid, key, rules, b) else {
        unreachable!()
    };
    own.ends(place as usize).back as usize
}

/// The same by its place without the first letter: its place in the left lower block by the first letter of the one by the last
/// letter.
fn front_of(
    braid: &Braid,
    key: &BlockKey,
    rules: &[Option<&BlockRule>],
    c: u8,
    word: &Word,
    place: u32,
) -> usize
    requires block { IsUpperBlock braid.now key.now }
    requires rules { AreRulesBelow braid.now key.now.degree key.now.product rules.now }
    requires letter { IsLetter braid.now c }
    requires sent { slice_index key.now.product (c - 1) ≡ slice_index word.now 0 }
    requires words { left_lower_basis braid.now key.now.degree key.now.product (slice_index word.now 0) ≡ lower_basis braid.now key.now.degree key.now.product c }
    requires word { IsOfBlock braid.now key.now.degree key.now.product word.now }
    requires long { 2 ≤ length word.now }
    requires place { IsBackPlace (left_lower_basis braid.now key.now.degree key.now.product) word.now place }
    ensures below { result < length (left_lower_basis braid.now (key.now.degree - 1) (product_before braid.now (slice_index word.now (length word.now - 1)) key.now.product) (slice_index word.now 0)) }
    ensures place { word_at (left_lower_basis braid.now (key.now.degree - 1) (product_before braid.now (slice_index word.now (length word.now - 1)) key.now.product) (slice_index word.now 0)) result ≡ take (length word.now - 2) (drop 1 word.now) }
{
    let _field = braid.field();
    let Some(own) = rule_at(braid, key, rules, c) else {
        unreachable!()
    };
    own.ends(place as usize).front as usize
}

/// The cells of the normal form of a word of the block without its first letter, where that isn't least, and the word without its
/// last letter is: over the words of the left lower block by its first letter, which is the lower block by c.
fn form_without_first<'t>(
    braid: &Braid,
    key: &BlockKey,
    c: u8,
    rule: Option<&'t BlockRule>,
    word: &Word,
    back: usize,
) -> &'t [Cell]
    requires block { IsUpperBlock braid.now key.now }
    requires letter { IsLetter braid.now c }
    requires sent { slice_index key.now.product (c - 1) ≡ slice_index word.now 0 }
    requires rule { MatchOption rule (lower_basis braid.now key.now.degree key.now.product c ≡ [])
        (λ r. r.now ≡ rule_of braid.now (key.now.degree - 1) (product_before braid.now c key.now.product)) }
    requires word { IsOfBlock braid.now key.now.degree key.now.product word.now }
    requires least { is_least is_killed braid.now (but_last word.now) ≡ true }
    requires other { is_least is_killed braid.now (drop 1 word.now) ≡ false }
    requires below { back < length (lower_basis braid.now (key.now.degree - 1) (product_before braid.now c key.now.product) (slice_index word.now (length word.now - 1))) }
    requires place { word_at (lower_basis braid.now (key.now.degree - 1) (product_before braid.now c key.now.product) (slice_index word.now (length word.now - 1))) back ≡ take (length word.now - 2) (drop 1 word.now) }
    ensures { AreCellsOf (left_lower_basis braid.now key.now.degree key.now.product (slice_index word.now 0)) (normal_form is_killed braid.now (key.now.degree - 1) (single (drop 1 word.now))) result.now }
{
    let _field = braid.field();
    let Some(rule) = rule else {
        return &[];
    };
    let b = word.letter(word.len() - 1);
    rule.right_row(b, back)
}

/// The cells of the normal form of a word of the block without its last letter, where that isn't least, and the word without its
/// first letter is: over the words of the lower block by its last letter.
fn form_without_last<'t>(
    braid: &Braid,
    key: &BlockKey,
    rule: Option<&'t BlockRule>,
    word: &Word,
    front: usize,
) -> &'t [Cell]
    requires block { IsUpperBlock braid.now key.now }
    requires rule { MatchOption rule (lower_basis braid.now key.now.degree key.now.product (slice_index word.now (length word.now - 1)) ≡ [])
        (λ r. r.now ≡ rule_of braid.now (key.now.degree - 1) (product_before braid.now (slice_index word.now (length word.now - 1)) key.now.product)) }
    requires word { IsOfBlock braid.now key.now.degree key.now.product word.now }
    requires least { is_least is_killed braid.now (drop 1 word.now) ≡ true }
    requires other { is_least is_killed braid.now (but_last word.now) ≡ false }
    requires below { front < length (left_lower_basis braid.now (key.now.degree - 1) (product_before braid.now (slice_index word.now (length word.now - 1)) key.now.product) (slice_index word.now 0)) }
    requires place { word_at (left_lower_basis braid.now (key.now.degree - 1) (product_before braid.now (slice_index word.now (length word.now - 1)) key.now.product) (slice_index word.now 0)) front ≡ take (length word.now - 2) (drop 1 word.now) }
    ensures { AreCellsOf (lower_basis braid.now key.now.degree key.now.product (slice_index word.now (length word.now - 1))) (normal_form is_killed braid.now (key.now.degree - 1) (single (but_last word.now))) result.now }
{
    let _field = braid.field();
    let Some(rule) = rule else {
        return &[];
    };
    let a = word.letter(0);
    rule.left_row(a, front)
}

/// Meets the k-th word: its row goes behind those of its last letter, if the word without it is least, and behind those of its first
/// letter, if the word without that is.
fn meet(
    braid: &Braid,
    key: &BlockKey,
    rules: &[Option<&BlockRule>],
    sent: &[u8],
    listed: &[Listed],
    k: usize,
    places: &[Place],
    numbers: &mut Numbers,
    sums: &mut Sums,
    forms: &mut BlockForms,
) -> Result<(), AllocError>
    requires block { IsUpperBlock braid.now key.now }
    requires count { length rules.now ≡ braid.now.letters }
    requires each { (b : ℕ) → IsLetter braid.now b → MatchOption (slice_index_or rules.now (b - 1) None) (lower_basis braid.now key.now.degree key.now.product b ≡ [])
        (λ s. s.now ≡ rule_of braid.now (key.now.degree - 1) (product_before braid.now b key.now.product)) }
    requires sent { AreSent braid.now key.now.degree key.now.product sent.now }
    requires listed { AreListed braid.now key.now.degree key.now.product listed.now }
    requires inside { k < length listed.now }
    requires places { ArePlacesOf braid.now key.now.degree key.now.product places.now }
    requires zero { IsZero braid.now.field sums.old }
    requires width { length (block_basis braid.now key.now.degree key.now.product) ≤ length sums.old }
    requires passing { IsPassing braid.now key.now.degree key.now.product places.now (drop k (map (λ l. l.word) listed.now)) forms.old.right.items forms.old.left.items forms.old.spots.items numbers.old.columns.items numbers.old.least }
    ensures zero { OnOk result (IsZero braid.now.field sums.new) }
    ensures width { OnOk result (length (block_basis braid.now key.now.degree key.now.product) ≤ length sums.new) }
    ensures passing { OnOk result (IsPassing braid.now key.now.degree key.now.product places.now (drop (k + 1) (map (λ l. l.word) listed.now)) forms.new.right.items forms.new.left.items forms.new.spots.items numbers.new.columns.items numbers.new.least) }
{
    let field = braid.field();
    let entry = listed[k];
    let word = entry.word;
    let a = word.letter(0);
    let b = word.letter(word.len() - 1);
    let c = sent_at(braid, key, sent, a);
    if let Some(place) = entry.right {
        if entry.left.is_some() {
            push_new(&places[numbers.columns.len()], a, b, numbers, forms)?;
            Ok(())
        } else {
            let back = back_of(braid, key, rules, c, &word, place);
            let cells = form_without_first(braid, key, c, rules[usize::from(c) - 1], &word, back);
            push_spot(&mut forms.spots, b, forms.right.as_slice())?;
            push_sum_at(
                field,
                cells,
                forms.left.as_slice(),
                a,
                sums,
                &mut forms.right,
                b,
            )?;
            Ok(())
        }
    } else {
        let Some(place) = entry.left else {
            unreachable!()
        };
        let front = front_of(braid, key, rules, c, &word, place);
        let cells = form_without_last(braid, key, rules[usize::from(b) - 1], &word, front);
        push_sum_at(
            field,
            cells,
            forms.right.as_slice(),
            b,
            sums,
            &mut forms.left,
            a,
        )?;
        Ok(())
    }
}

/// The normal forms of `u b` and of `a v`, for the least words u and v of the lower blocks, in one pass over these words in their order.
///
/// A new word is least, or has the normal form at its place. The normal form of another word `a v b` is read from the left, where
/// `v b` isn't least: the sum of c times the normal form of `a w` over the terms `c w` of that of `v b`; or else from the right. All
/// that is read stands before the word.
pub(crate) fn block_forms(
    alloc: Global,
    braid: &Braid,
    key: &BlockKey,
    lower: &[LowerValue],
    listed: &[Listed],
    places: &[Place],
    basis: &[Word],
) -> Result<BlockForms, AllocError>
    requires block { IsUpperBlock braid.now key.now }
    requires lower { AreLowerRules braid.now key.now lower.now }
    requires listed { AreListed braid.now key.now.degree key.now.product listed.now }
    requires places { ArePlacesOf braid.now key.now.degree key.now.product places.now }
    requires basis { basis.now ≡ block_basis braid.now key.now.degree key.now.product }
    ensures { IfOk result (λ r. AreFormsOf braid.now key.now.degree key.now.product r.right.items r.left.items r.spots.items) }
{
    if basis.len() > MOST_PLACES {
        return Err(AllocError);
    }
    let field = braid.field();
    let rules = rules_below(alloc, braid, key, lower)?;
    let sent = all_sent(alloc, braid, key)?;
    let mut sums = Sums::new(alloc, field, basis.len())?;
    let mut numbers = Numbers {
        columns: Vec::new(alloc),
        least: 0,
        cells: Vec::new(alloc),
    };
    let mut forms = BlockForms {
        right: empty_rows_by_letter(alloc, braid.letters(), 0)?,
        left: empty_rows_by_letter(alloc, braid.letters(), 0)?,
        spots: Vec::new(alloc),
    };
    for k in 0..listed.len() {
        meet(
            braid,
            key,
            rules.as_slice(),
            sent.as_slice(),
            listed,
            k,
            places,
            &mut numbers,
            &mut sums,
            &mut forms,
        )?;
    }
    Ok(forms)
}
