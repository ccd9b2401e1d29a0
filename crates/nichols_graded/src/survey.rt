//! What is known of the degrees of a wave once it is made.

ghost use Rattle.std.specs.Prelude.{◌≡◌, ◌<◌, ◌≤◌, ◌+◌, ◌⊎◌, IsSome, length, suc, vec_capacity};
ghost use Rattle.nichols_braid.specs.declared.TheConstants.{MOST_DEGREES, MOST_PRODUCTS};
ghost use Rattle.nichols_braid.specs.Kernel.{is_in_kernel};
ghost use Rattle.nichols_braid.specs.End.{is_empty_degree};
ghost use Rattle.nichols_layout.specs.Values.{AreRightLists};
ghost use Rattle.nichols_graded.specs.Ahead.{AreOpen, AreRulesOf, IsBehind, IsSurvey, end_after};
ghost use Rattle.nichols_graded.specs.Ends.{stops_at};
ghost use Rattle.nichols_graded.specs.Sizes.{AreSizes};

use crate::ahead::first_over;
use crate::blocks::are_rules;
use crate::counts::put_sizes;
use crate::ends::{Advance, End, Stop};
use nichols_block::Shared;
use nichols_braid::{Braid, Products};

/// Whether all blocks of a degree are empty, by their numbers of least words.
fn are_empty(braid: &Braid, _degree: u32, sizes: &[u64]) -> bool
    requires sizes { AreSizes braid.now _degree sizes.now }
    ensures { result ≡ is_empty_degree is_in_kernel braid.now _degree }
{
    let _field = braid.field();
    for k in 0..sizes.len() {
        if sizes[k] != 0 {
            return false;
        }
    }
    true
}

/// What stops the degree behind one of a wave, by the numbers of least words of that one's blocks.
fn stop_behind(
    braid: &Braid,
    first: u32,
    lists: &[Products],
    at: usize,
    sizes: &[u64],
    behind: Option<Stop>,
    limits: (u32, u32),
) -> Option<Stop>
    requires at { at < length lists.now }
    requires limit { limits.0 ≤ MOST_DEGREES }
    requires sizes { AreSizes braid.now (first + at) sizes.now }
    requires open { AreOpen braid.now limits.0 first lists.now }
    requires behind { IsBehind braid.now limits.0 (first + length lists.now) behind }
    requires told { (suc at < length lists.now) ⊎ IsSome behind }
    ensures { result ≡ stops_at braid.now limits.0 limits.1 (suc (first + at)) }
{
    if at + 1 >= lists.len() {
        return behind;
    }
    let _field = braid.field();
    let degree = first + at as u32;
    first_over(braid, degree, &lists[at], sizes, &lists[at + 1], limits.1)
}

/// The end after a degree of a wave that is finished, where it is reached. `sizes` is a list with room for the numbers of its blocks.
fn end_after(
    braid: &Braid,
    first: u32,
    lists: &[Products],
    at: usize,
    values: &[Shared],
    sizes: &mut Vec<u64>,
    behind: Option<Stop>,
    limits: (u32, u32),
) -> Option<End>
    requires at { at < length lists.now }
    requires limit { limits.0 ≤ MOST_DEGREES }
    requires open { AreOpen braid.now limits.0 first lists.now }
    requires behind { IsBehind braid.now limits.0 (first + length lists.now) behind }
    requires told { (suc at < length lists.now) ⊎ IsSome behind }
    requires rules { AreRulesOf braid.now (first + at) values.now }
    requires room { MOST_PRODUCTS ≤ vec_capacity sizes.old }
    ensures end { result ≡ end_after braid.now limits.0 limits.1 (first + at) }
    ensures room { MOST_PRODUCTS ≤ vec_capacity sizes.new }
{
    let degree = first + at as u32;
    put_sizes(sizes, values);
    if are_empty(braid, degree, sizes.as_slice()) {
        return Some(End::Closed);
    }
    match stop_behind(braid, first, lists, at, sizes.as_slice(), behind, limits) {
        Some(stop) => Some(End::Stopped(stop)),
        None => None,
    }
}

/// How many degrees of a wave are finished, and the end, where it is reached. The limits are that of degrees and that of rows, and
/// `sizes` is a list with room for the numbers of a degree's blocks: no memory is taken, so no wave is lost here.
pub(crate) fn survey(
    braid: &Braid,
    first: u32,
    lists: &[Products],
    behind: Option<Stop>,
    values: &[Vec<Shared>],
    mut sizes: Vec<u64>,
    limits: (u32, u32),
) -> Advance
    requires limit { limits.0 ≤ MOST_DEGREES }
    requires some { 1 ≤ length values.now }
    requires open { AreOpen braid.now limits.0 first lists.now }
    requires behind { IsBehind braid.now limits.0 (first + length lists.now) behind }
    requires listed { length values.now ≤ length lists.now }
    requires told { (length values.now < length lists.now) ⊎ IsSome behind }
    requires right { AreRightLists braid.now limits.1 first (length values.now) values.now }
    requires room { MOST_PRODUCTS ≤ vec_capacity sizes }
    ensures { IsSurvey braid.now limits.0 limits.1 first values.now result }
{
    for i in 0..values.len() {
        let finished = i as u32;
        if !are_rules(values[i].as_slice()) {
            return Advance {
                finished,
                end: Some(End::Starved),
            };
        }
        let end = end_after(
            braid,
            first,
            lists,
            i,
            values[i].as_slice(),
            &mut sizes,
            behind,
            limits,
        );
        if end.is_some() || i + 1 == values.len() {
            return Advance {
                finished: finished + 1,
                end,
            };
        }
    }
    unreachable!()
}
