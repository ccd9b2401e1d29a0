//! Lists of a degree, merged from those of its blocks.

ghost use Rattle.std.specs.Prelude.{◌≡◌, ◌≤◌, ◌++◌, IfOk, OnOk, IsPermutation, length};
ghost use Rattle.std.specs.List.Sorted.{IsSortedByKey};
ghost use Rattle.nichols_tensor.specs.Relation.{PlainRelation};
ghost use Rattle.nichols_tensor.specs.WordOrder.{word_cmp};
ghost use Rattle.nichols_braid.specs.Kernel.{is_killed};
ghost use Rattle.nichols_braid.specs.Least.{basis, relations};

use nichols_block::{BlockRule, Levels};
use nichols_words::{Relation, Word};
use std::alloc::{AllocError, Global};

/// The least words of a degree, rising.
pub(crate) fn least_words(alloc: Global, levels: &Levels, m: u32) -> Result<Vec<Word>, AllocError>
    requires { m ≤ levels.now.last }
    ensures { IfOk result (λ r. r.items ≡ basis is_killed levels.now.braid m) }
{
    let mut words = Vec::new(alloc);
    for k in 0..levels.products(m).len() {
        words.extend_from_slice(levels.rule(m, k).basis())?;
    }
    words.as_mut_slice().sort_unstable();
    Ok(words)
}

/// Puts the relations of a block behind others.
fn put_relations(
    alloc: Global,
    rule: &BlockRule,
    relations: &mut Vec<Relation>,
) -> Result<(), AllocError>
    ensures { OnOk result (relations.new.items ≡ relations.old.items ++ rule.now.table) }
{
    for k in 0..rule.relation_count() {
        let relation = rule.relation(k);
        let form = relation.form.copy(alloc)?;
        relations.push(Relation {
            candidate: relation.candidate,
            form,
        })?;
    }
    Ok(())
}

/// Sorts relations by their candidates.
fn sort_by_candidate(relations: &mut [Relation])
    ensures permutation { IsPermutation relations.old relations.new }
    ensures len { length relations.new ≡ length relations.old }
    ensures sorted { IsSortedByKey (λ (r : PlainRelation). r.candidate) word_cmp relations.new }
{
    relations.sort_unstable_by(|a, b| a.candidate.cmp(&b.candidate));
}

/// The relations of a degree, with rising candidates.
pub(crate) fn degree_relations(
    alloc: Global,
    levels: &Levels,
    m: u32,
) -> Result<Vec<Relation>, AllocError>
    requires { m ≤ levels.now.last }
    ensures { IfOk result (λ r. r.items ≡ relations is_killed levels.now.braid m) }
{
    let mut relations = Vec::new(alloc);
    for k in 0..levels.products(m).len() {
        put_relations(alloc, levels.rule(m, k), &mut relations)?;
    }
    sort_by_candidate(relations.as_mut_slice());
    Ok(relations)
}
