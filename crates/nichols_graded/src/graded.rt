//! Graded algebras.

ghost use Rattle.std.specs.Prelude.{◌≡◌, ◌⊎◌, ◌≤◌, ◌<◌, ◌+◌, ◌^◌, IfOk, OnOk, OnErr, None, Some, false, true, suc, is_some, option_map, sum, ℕ, drop, length, slice_index_or};
ghost use Rattle.nichols_braid.specs.declared.TheConstants.{MOST_DEGREES, MOST_ROWS};
ghost use Rattle.nichols_braid.specs.Kernel.{is_in_kernel};
ghost use Rattle.nichols_braid.specs.Least.{basis, relations};
ghost use Rattle.nichols_braid.specs.End.{dimension, is_empty_degree};
ghost use Rattle.nichols_graded.specs.declared.TheConstants.{DIMENSION_BOUND};
ghost use Rattle.nichols_graded.specs.Ends.{dimensions_up_to};
ghost use Rattle.nichols_graded.specs.Factors.{factors_of};
ghost use Rattle.nichols_layout.specs.declared.TheConstants.{MOST_WINDOW};
ghost use Rattle.nichols_layout.specs.Keys.{AreLists};
ghost use Rattle.nichols_crew.specs.Counting.{HasCounted, block_count};
ghost use Rattle.nichols_graded.specs.declared.ends.End.TheVariants.{Starved};
ghost use Rattle.nichols_graded.specs.Ahead.{AreRulesOf};
ghost use Rattle.nichols_graded.specs.Graded.{first_degree, IsGraded, IsOpenWhereStarved, TellsEnd};

use crate::ahead::{Ahead, list_on};
use crate::blocks::degree_values;
use crate::ends::{Advance, End};
use crate::factors::factors_of;
use crate::merged::{degree_relations, least_words};
use crate::next::first_ahead;
use crate::survey::survey;
use nichols_block::{Levels, Shared};
use nichols_braid::{Braid, MOST_PRODUCTS, Products};
use nichols_crew::Gate;
use nichols_words::{Relation, Word};
use std::alloc::{AllocError, Global};
use std::marker::Model;
use std::thread::Threads;

/// The Nichols algebra of a braid, as far as its degrees are finished.
#[derive(Drop)]
pub struct Graded {
    levels: Levels,
    degree_limit: u32,
    rows_limit: u32,
    window: u32,
    ahead: Ahead,
    ended: bool,
}

impl Model for Graded {
    ghost use Rattle.std.specs.Prelude.{◌≡◌, ◌+◌, ◌≤◌, suc, false};
    ghost use Rattle.nichols_graded.specs.Ahead.{IsAhead};
    ghost use Rattle.nichols_graded.specs.Graded.{GradedValue, IsGraded, graded_value};

    ghost Value = { GradedValue };

    ghost view = { λ g. graded_value g.levels g.degree_limit g.rows_limit g.window g.ended };

    ghost invariant = { λ g. IsGraded (graded_value g.levels g.degree_limit g.rows_limit g.window g.ended)
        × (g.ended ≡ false → IsAhead g.levels.braid g.degree_limit g.rows_limit (suc g.levels.last) g.ahead)
        × (g.degree_limit ≤ g.levels.last + g.levels.spare) };
}

impl Graded {
    /// The algebra of a braid with degree 0 finished; the degree limit is at most [`nichols_braid::MOST_DEGREES`], the rows limit 1 to
    /// [`nichols_braid::MOST_ROWS`], and the window, the number of degrees that one call makes at once, 1 to
    /// [`nichols_layout::MOST_WINDOW`]. Room for all degrees is made here.
    pub fn start(
        alloc: Global,
        braid: Braid,
        degree_limit: u32,
        rows_limit: u32,
        window: u32,
    ) -> Result<Graded, AllocError>
        requires degrees { degree_limit ≤ MOST_DEGREES }
        requires some_rows { 1 ≤ rows_limit }
        requires few_rows { rows_limit ≤ MOST_ROWS }
        requires some_window { 1 ≤ window }
        requires few_window { window ≤ MOST_WINDOW }
        ensures { IfOk result (λ g. g ≡ first_degree braid degree_limit rows_limit window) }
    {
        let _field = braid.field();
        let mut levels = Levels::start(alloc, braid)?;
        levels.reserve(degree_limit)?;
        let ahead = first_ahead(alloc, &levels, degree_limit, rows_limit)?;
        Ok(Graded {
            levels,
            degree_limit,
            rows_limit,
            window,
            ahead,
            ended: false,
        })
    }

    /// Finishes the next degrees, as many as the window has where nothing stops one, and says whether the end is reached. Their blocks
    /// are made by so many workers, who share a shelf; the gate is told of them, and given the closed shelf.
    ///
    /// The end is given in the call in which the last degree is finished; where degree 1 is stopped, so that degree 0 is the only
    /// one, in the first call. What was made beyond the end is dropped. `Starved` is given where there was no memory for a block of
    /// the next degree, which isn't finished then, nor is any behind it; the blocks of that degree are published all the same. After an
    /// error the algebra is as it was, and the call may be made again. All that is needed after the last publication is made before the
    /// first take, so an error comes before any block is made, or where there is no memory to close the shelf; the gate is given no
    /// shelf then.
    pub fn advance<R: Threads + Sync, G: Gate + Sync>(
        &mut self,
        rt: &R,
        alloc: Global,
        workers: u32,
        gate: &mut G,
    ) -> Result<Advance, AllocError>
        requires going { self.old.ended ≡ false }
        requires some_workers { 1 ≤ workers }
        ensures braid { OnOk result (self.new.braid ≡ self.old.braid) }
        ensures limit { OnOk result (self.new.limit ≡ self.old.limit) }
        ensures rows { OnOk result (self.new.rows ≡ self.old.rows) }
        ensures finished { IfOk result (λ a. self.new.last ≡ self.old.last + a.finished) }
        ensures window { OnOk result (self.new.window ≡ self.old.window) }
        ensures most { IfOk result (λ a. a.finished ≤ self.old.window) }
        ensures further { IfOk result (λ a. a.end ≡ None → a.finished ≡ self.old.window) }
        ensures end { IfOk result (λ a. TellsEnd self.new a.end) }
        ensures unreached { IfOk result (λ a. IsOpenWhereStarved self.new a.end) }
        ensures ended { IfOk result (λ a. self.new.ended ≡ is_some a.end) }
        ensures counted { IfOk result (λ a. HasCounted (block_count self.old.braid (suc self.old.last) a.finished) (G.count gate.old) (G.count gate.new)) }
        ensures made { IfOk result (λ a. a.end ≡ Some Starved → HasCounted (block_count self.old.braid (suc self.old.last) (suc a.finished)) (G.count gate.old) (G.count gate.new)) }
        ensures kept { OnErr result (self.new ≡ self.old) }
        ensures uncounted { OnErr result (G.count gate.new ≡ G.count gate.old) }
    {
        let lists = match &mut self.ahead {
            Ahead::Open(lists) => lists,
            Ahead::Stopped(stop) => {
                let end = Some(End::Stopped(*stop));
                self.ended = true;
                return Ok(Advance { finished: 0, end });
            }
        };
        let first = self.levels.last() + 1;
        let behind = list_on(
            alloc,
            self.levels.braid(),
            first,
            lists,
            self.degree_limit,
            self.window + 1,
        )?;
        let sizes = Vec::with_capacity(alloc, MOST_PRODUCTS)?;
        let count = fewer(lists.len(), self.window);
        let values = degree_values(
            rt,
            alloc,
            &self.levels,
            &lists[..count],
            self.rows_limit,
            workers,
            gate,
        )?;
        let advance = survey(
            self.levels.braid(),
            first,
            lists.as_slice(),
            behind,
            values.as_slice(),
            sizes,
            (self.degree_limit, self.rows_limit),
        );
        put_on(&mut self.levels, lists, values, advance.finished);
        self.ended = advance.end.is_some();
        Ok(advance)
    }

    /// Whether the end was reached.
    pub fn ended(&self) -> bool
        ensures { result ≡ self.now.ended }
    {
        self.ended
    }

    /// Whether the last finished degree is empty, and with it all later ones.
    pub fn closed(&self) -> bool
        ensures { result ≡ is_empty_degree is_in_kernel self.now.braid self.now.last }
    {
        self.levels.closed()
    }

    /// The finished degrees.
    pub fn levels(&self) -> &Levels
        ensures braid { result.now.braid ≡ self.now.braid }
        ensures last { result.now.last ≡ self.now.last }
        ensures graded { IsGraded self.now }
    {
        &self.levels
    }

    /// The dimension of a finished degree.
    pub fn dimension(&self, m: u32) -> u64
        requires { m ≤ self.now.last }
        ensures value { result ≡ dimension is_in_kernel self.now.braid m }
        ensures small { result < DIMENSION_BOUND }
    {
        let _levels = self.levels();
        let mut words = 0;
        for k in 0..self.levels.products(m).len() {
            words += self.levels.rule(m, k).basis().len() as u64;
        }
        words
    }

    /// The dimensions of the finished degrees, from degree 0 on.
    pub fn dimensions(&self, alloc: Global) -> Result<Vec<u64>, AllocError>
        ensures dimensions { IfOk result (λ r. r.items ≡ dimensions_up_to self.now.braid self.now.last) }
        ensures sum { IfOk result (λ r. sum r.items < 2 ^ 64) }
    {
        let mut dimensions = Vec::new(alloc);
        for m in 0..self.levels.last() + 1 {
            dimensions.push(self.dimension(m))?;
        }
        Ok(dimensions)
    }

    /// The factors of a closed algebra, falling: numbers k such that the polynomials `1 + t + .. + t^(k-1)` multiply to the one
    /// that has the dimensions as coefficients. `None` where they are not found.
    pub fn factors(&self, alloc: Global) -> Result<Option<Vec<u32>>, AllocError>
        requires { is_empty_degree is_in_kernel self.now.braid self.now.last ≡ true }
        ensures { IfOk result (λ r. option_map (λ v. v.items) r ≡ factors_of (dimensions_up_to self.now.braid self.now.last)) }
    {
        let _levels = self.levels();
        let dimensions = self.dimensions(alloc)?;
        factors_of(alloc, dimensions.as_slice())
    }

    /// The least words of a finished degree, rising.
    pub fn basis(&self, alloc: Global, m: u32) -> Result<Vec<Word>, AllocError>
        requires { m ≤ self.now.last }
        ensures { IfOk result (λ r. r.items ≡ basis is_in_kernel self.now.braid m) }
    {
        least_words(alloc, &self.levels, m)
    }

    /// The relations of a finished degree, with rising candidates.
    pub fn relations(&self, alloc: Global, m: u32) -> Result<Vec<Relation>, AllocError>
        requires { m ≤ self.now.last }
        ensures { IfOk result (λ r. r.items ≡ relations is_in_kernel self.now.braid m) }
    {
        degree_relations(alloc, &self.levels, m)
    }
}

/// The lesser of two numbers.
fn fewer(count: usize, most: u32) -> usize
    ensures inside { result ≤ count }
    ensures few { result ≤ most }
    ensures one { (result ≡ most) ⊎ (result ≡ count) }
{
    if count < most as usize {
        count
    } else {
        most as usize
    }
}

/// Puts the first so many degrees of a wave on top, for which there is room.
fn put_on(levels: &mut Levels, lists: &mut Vec<Products>, mut values: Vec<Vec<Shared>>, count: u32)
    requires room { levels.old.last + count ≤ MOST_DEGREES }
    requires spare { count ≤ levels.old.spare }
    requires lists { AreLists levels.old.braid (suc levels.old.last) lists.old.items }
    requires listed { count ≤ length lists.old.items }
    requires valued { count ≤ length values.items }
    requires rules { (i : ℕ) (d : _) → i < count → AreRulesOf levels.old.braid (suc levels.old.last + i) (slice_index_or values.items i d).items }
    ensures braid { levels.new.braid ≡ levels.old.braid }
    ensures last { levels.new.last ≡ levels.old.last + count }
    ensures spare { levels.new.spare + count ≡ levels.old.spare }
    ensures lists { lists.new.items ≡ drop count lists.old.items }
{
    for _ in 0..count {
        let products = lists.remove(0);
        let rules = values.remove(0);
        let Ok(()) = levels.push(products, rules) else {
            unreachable!()
        };
    }
}
