//! The words that a block has normal forms of.

ghost use Rattle.std.specs.Prelude.{◌≡◌, ◌<◌, ◌++◌, ◌∷◌, IfOk, length};
ghost use Rattle.std.specs.List.{AllByRecursion};
ghost use Rattle.std.specs.List.Sorted.{IsPermutation, IsSortedByKey};
ghost use Rattle.std.specs.Result.{OnOk};
ghost use Rattle.nichols_tensor.specs.declared.TheConstants.{LETTER_LIMIT, WORD_LIMIT};
ghost use Rattle.nichols_tensor.specs.WordOrder.{word_cmp};
ghost use Rattle.nichols_tensor.specs.Words.{IsLetterOf};
ghost use Rattle.nichols_block.specs.Lower.{AreLowerRules, IsUpperBlock};
ghost use Rattle.nichols_block.specs.Gathered.{gathered_all, together, word_in};
ghost use Rattle.nichols_block.specs.Words.{AreListed, AreNewWords, IsListedEntry, block_new_words, entries_from, left_entries, left_entry, new_word, right_entries, right_entry};

use crate::MOST_PLACES;
use crate::lower::{left_words_below, words_below};
use nichols_braid::Braid;
use nichols_value::{BlockKey, LowerValue, Spot};
use nichols_words::Word;
use std::alloc::{AllocError, Global};

/// A word of a block that is least without its last letter, or without its first one, or both.
#[derive(Clone, Copy)]
pub(crate) struct Listed {
    pub(crate) word: Word,
    /// Its place in the lower block by its last letter, if it is least without that letter.
    pub(crate) right: Option<u32>,
    /// Its place in the left lower block by its first letter, if it is least without that letter.
    pub(crate) left: Option<u32>,
}

/// The new words of a block, where each stands below, and its place in the left lower block by its first letter.
#[derive(Drop)]
pub(crate) struct NewWords {
    pub(crate) words: Vec<Word>,
    pub(crate) spots: Vec<Spot>,
    pub(crate) backs: Vec<u32>,
}

/// The word with a letter in front.
fn preceded_by(word: &Word, letter: u8) -> Word
    requires room { length word.now < WORD_LIMIT }
    requires letter { IsLetterOf LETTER_LIMIT letter }
    ensures { result ≡ letter ∷ word.now }
{
    let mut longer = Word::empty();
    let _room = longer.push(letter);
    for x in word.letters() {
        let _room = longer.push(*x);
    }
    longer
}

/// Puts each word of a list, with a letter behind, behind the words that are there.
fn put_followed(listed: &mut Vec<Listed>, words: &[Word], letter: u8) -> Result<(), AllocError>
    requires short { AllByRecursion (λ w. length w < WORD_LIMIT) words.now }
    requires letter { IsLetterOf LETTER_LIMIT letter }
    ensures { OnOk result (listed.new.items ≡ listed.old.items ++ entries_from (right_entry letter) 0 words.now) }
{
    if words.len() > MOST_PLACES {
        return Err(AllocError);
    }
    listed.reserve(words.len())?;
    for k in 0..words.len() {
        listed.push(Listed {
            word: words[k].followed_by(letter),
            right: Some(k as u32),
            left: None,
        })?;
    }
    Ok(())
}

/// Puts each word of a list, with a letter in front, behind the words that are there.
fn put_preceded(listed: &mut Vec<Listed>, words: &[Word], letter: u8) -> Result<(), AllocError>
    requires short { AllByRecursion (λ w. length w < WORD_LIMIT) words.now }
    requires letter { IsLetterOf LETTER_LIMIT letter }
    ensures { OnOk result (listed.new.items ≡ listed.old.items ++ entries_from (left_entry letter) 0 words.now) }
{
    if words.len() > MOST_PLACES {
        return Err(AllocError);
    }
    listed.reserve(words.len())?;
    for k in 0..words.len() {
        listed.push(Listed {
            word: preceded_by(&words[k], letter),
            right: None,
            left: Some(k as u32),
        })?;
    }
    Ok(())
}

/// The words `u b` of the block, u being least, by rising letter.
fn right_words(
    alloc: Global,
    braid: &Braid,
    key: &BlockKey,
    lower: &[LowerValue],
) -> Result<Vec<Listed>, AllocError>
    requires block { IsUpperBlock braid.now key.now }
    requires lower { AreLowerRules braid.now key.now lower.now }
    ensures { IfOk result (λ r. r.items ≡ right_entries braid.now key.now.degree key.now.product braid.now.letters) }
{
    let _field = braid.field();
    let mut listed = Vec::new(alloc);
    for b in 0..braid.letters() {
        put_followed(&mut listed, words_below(braid, key, lower, b + 1), b + 1)?;
    }
    Ok(listed)
}

/// Puts the words `a v` of the block, v being least, behind the words that are there.
fn put_left_words(
    braid: &Braid,
    key: &BlockKey,
    lower: &[LowerValue],
    listed: &mut Vec<Listed>,
) -> Result<(), AllocError>
    requires block { IsUpperBlock braid.now key.now }
    requires lower { AreLowerRules braid.now key.now lower.now }
    ensures { OnOk result (listed.new.items ≡ listed.old.items ++ left_entries braid.now key.now.degree key.now.product braid.now.letters) }
{
    let _field = braid.field();
    for a in 0..braid.letters() {
        put_preceded(listed, left_words_below(braid, key, lower, a + 1), a + 1)?;
    }
    Ok(())
}

/// Sorts by word. The words that are there rise in parts, one for each letter, so that a stable sort has few parts to merge.
fn sort_by_word(listed: &mut Vec<Listed>) -> Result<(), AllocError>
    ensures permutation { IsPermutation listed.old.items listed.new.items }
    ensures sorted { OnOk result (IsSortedByKey word_in word_cmp listed.new.items) }
{
    listed.sort_by(|x, y| x.word.cmp(&y.word))?;
    Ok(())
}

/// A word with what is known of it by either of two entries.
fn together(last: Listed, entry: &Listed) -> Listed
    ensures { result ≡ together last entry.now }
{
    Listed {
        word: last.word,
        right: last.right.or(entry.right),
        left: last.left.or(entry.left),
    }
}

/// The words of a sorted list, each once: what is known of a word is taken together.
fn gathered(alloc: Global, sorted: &[Listed]) -> Result<Vec<Listed>, AllocError>
    ensures { IfOk result (λ r. r.items ≡ gathered_all sorted.now) }
{
    let mut out = Vec::with_capacity(alloc, sorted.len())?;
    let Some((first, rest)) = sorted.split_first() else {
        return Ok(out);
    };
    let mut last = *first;
    for entry in rest {
        if entry.word == last.word {
            last = together(last, entry);
        } else {
            out.push(last)?;
            last = *entry;
        }
    }
    out.push(last)?;
    Ok(out)
}

/// The words of the block that are least without their last letter or without their first one, rising.
pub(crate) fn listed_words(
    alloc: Global,
    braid: &Braid,
    key: &BlockKey,
    lower: &[LowerValue],
) -> Result<Vec<Listed>, AllocError>
    requires block { IsUpperBlock braid.now key.now }
    requires lower { AreLowerRules braid.now key.now lower.now }
    ensures { IfOk result (λ r. AreListed braid.now key.now.degree key.now.product r.items) }
{
    let _field = braid.field();
    let mut all = right_words(alloc, braid, key, lower)?;
    put_left_words(braid, key, lower, &mut all)?;
    sort_by_word(&mut all)?;
    let listed = gathered(alloc, all.as_slice())?;
    Ok(listed)
}

/// Puts the word of an entry behind the new words, if it is least both ways.
fn put_new(
    braid: &Braid,
    key: &BlockKey,
    entry: &Listed,
    new: &mut NewWords,
) -> Result<(), AllocError>
    requires block { IsUpperBlock braid.now key.now }
    requires listed { IsListedEntry braid.now key.now.degree key.now.product entry.now }
    requires old { AreNewWords braid.now key.now.degree key.now.product new.old.words.items new.old.spots.items new.old.backs.items }
    ensures words { OnOk result (new.new.words.items ≡ new.old.words.items ++ new_word entry.now) }
    ensures new { OnOk result (AreNewWords braid.now key.now.degree key.now.product new.new.words.items new.new.spots.items new.new.backs.items) }
{
    let _field = braid.field();
    let _degree = key.degree;
    let (Some(front), Some(back)) = (entry.right, entry.left) else {
        return Ok(());
    };
    let letter = entry.word.letter(entry.word.len() - 1);
    new.words.push(entry.word)?;
    new.spots.push(Spot {
        letter,
        place: front,
    })?;
    new.backs.push(back)?;
    Ok(())
}

/// The new words among them: those that are least both ways.
pub(crate) fn new_words(
    alloc: Global,
    braid: &Braid,
    key: &BlockKey,
    listed: &[Listed],
) -> Result<NewWords, AllocError>
    requires block { IsUpperBlock braid.now key.now }
    requires listed { AreListed braid.now key.now.degree key.now.product listed.now }
    ensures words { IfOk result (λ r. r.words.items ≡ block_new_words braid.now key.now.degree key.now.product) }
    ensures new { IfOk result (λ r. AreNewWords braid.now key.now.degree key.now.product r.words.items r.spots.items r.backs.items) }
{
    let mut new = NewWords {
        words: Vec::new(alloc),
        spots: Vec::new(alloc),
        backs: Vec::new(alloc),
    };
    for entry in listed {
        put_new(braid, key, entry, &mut new)?;
    }
    Ok(new)
}
