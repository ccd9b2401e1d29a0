//! The lists that a state is kept in, and what each event does to them. The six laws are no matter here.

ghost use Rattle.std.specs.Prelude.{◌≡◌, ℕ, ◌+◌, ◌*◌, ◌^◌, ◌<◌, ◌≤◌, List, length, nat_lt, IfOk};
ghost use Rattle.nichols_core.specs.Machine.{stage_after_publication};
ghost use Rattle.nichols_core.specs.Runs.{start};
ghost use Rattle.nichols_core.specs.States.{machine_in, marks_value, mark_at, stage_at, place_of, AreOver, FitEdges, HavePlace, Applies, worker_of, block_of};
ghost use Rattle.nichols_core.specs.declared.edge.Edge.{Edge};
ghost use Rattle.nichols_core.specs.declared.event.Event.TheVariants.{Take, Ask, Pick, Lay, Publish, Release};

use crate::around::{all_laid, all_picked, none_picked};
use crate::event::Event;
use crate::layout::Layout;
use crate::stage::Stage;
use std::alloc::{AllocError, Global};

/// The stage of each block, what each worker owes (a row of blocks for each worker), and which edges are laid
/// and picked.
#[derive(Drop)]
pub(crate) struct Marks {
    pub stages: Vec<Stage>,
    pub owed: Vec<bool>,
    pub laid: Vec<bool>,
    pub picked: Vec<bool>,
}

impl Marks {
    /// Every block is ready and owed by worker 0, and no edge is laid or picked.
    pub fn start(alloc: Global, layout: &Layout, workers: u32) -> Result<Marks, AllocError>
        requires { 1 ≤ workers }
        ensures over { IfOk result (λ m. AreOver layout.now workers (marks_value m)) }
        ensures start { IfOk result (λ m. machine_in (marks_value m) ≡ start (length layout.now.degrees)) }
    {
        let blocks = layout.degrees.len();
        let edges = layout.edges.len();
        let stages = Vec::from_elem(alloc, Stage::Ready, blocks)?;
        let owed = first_owes_all(alloc, blocks, workers)?;
        let laid = Vec::from_elem(alloc, false, edges)?;
        let picked = Vec::from_elem(alloc, false, edges)?;
        Ok(Marks {
            stages,
            owed,
            laid,
            picked,
        })
    }

    /// Where the block stands.
    pub fn stage(&self, block: u32) -> Stage
        requires { block < length self.now.stages.items }
        ensures { result ≡ stage_at self.now.stages.items block }
    {
        self.stages[block as usize]
    }

    /// Whether the worker owes the block.
    pub fn owes(&self, worker: u32, block: u32) -> bool
        requires { HavePlace (marks_value self.now) worker block }
        ensures { result ≡ mark_at self.now.owed.items (place_of (length self.now.stages.items) worker block) }
    {
        self.owed[place_of(self.stages.len(), worker, block)]
    }

    /// Applies the event where its condition holds, and says whether it does.
    pub fn apply(&mut self, layout: &Layout, event: Event) -> bool
        requires edges { FitEdges layout.now (marks_value self.old) }
        requires place { HavePlace (marks_value self.old) (worker_of event) (block_of event) }
        ensures { Applies layout.now.edges event (marks_value self.old) (marks_value self.new) result }
    {
        match event {
            Event::Take { worker, block } => self.take(worker, block),
            Event::Ask {
                worker,
                block,
                letter,
            } => self.ask(layout, worker, block, letter),
            Event::Pick {
                worker,
                block,
                letter,
            } => self.pick(layout, worker, block, letter),
            Event::Lay {
                worker,
                block,
                letter,
            } => self.lay(layout, worker, block, letter),
            Event::Publish { worker, block } => self.publish(layout, worker, block),
            Event::Release { worker, block } => self.release(worker, block),
        }
    }

    fn take(&mut self, worker: u32, block: u32) -> bool
        requires { HavePlace (marks_value self.old) worker block }
        ensures { (es : List Edge) → Applies es (Take worker block) (marks_value self.old) (marks_value self.new) result }
    {
        let place = place_of(self.stages.len(), worker, block);
        self.owed[place] = false;
        self.stages[block as usize] = self.stage(block).after_take(worker);
        true
    }

    fn ask(&mut self, layout: &Layout, worker: u32, block: u32, letter: u8) -> bool
        requires edges { FitEdges layout.now (marks_value self.old) }
        requires place { HavePlace (marks_value self.old) worker block }
        ensures { Applies layout.now.edges (Ask worker block letter) (marks_value self.old) (marks_value self.new) result }
    {
        let Some(number) = layout.edge_into(block, letter) else {
            return false;
        };
        if !self.stage(block).is_held_by(worker) || !none_picked(layout, &self.picked, block) {
            return false;
        }
        let lower = layout.edge(number).lower;
        if !self.stage(lower).is_published() {
            self.stages[block as usize] = Stage::Parked(lower);
        }
        true
    }

    fn pick(&mut self, layout: &Layout, worker: u32, block: u32, letter: u8) -> bool
        requires edges { FitEdges layout.now (marks_value self.old) }
        requires place { HavePlace (marks_value self.old) worker block }
        ensures { Applies layout.now.edges (Pick worker block letter) (marks_value self.old) (marks_value self.new) result }
    {
        let Some(number) = layout.edge_into(block, letter) else {
            return false;
        };
        if !self.stage(block).is_held_by(worker) {
            return false;
        }
        let lower = layout.edge(number).lower;
        if !self.stage(lower).is_published() || !self.laid[number] || self.picked[number] {
            return false;
        }
        self.picked[number] = true;
        true
    }

    fn lay(&mut self, layout: &Layout, worker: u32, block: u32, letter: u8) -> bool
        requires edges { FitEdges layout.now (marks_value self.old) }
        requires place { HavePlace (marks_value self.old) worker block }
        ensures { Applies layout.now.edges (Lay worker block letter) (marks_value self.old) (marks_value self.new) result }
    {
        let Some(number) = layout.edge_out(block, letter) else {
            return false;
        };
        if !self.stage(block).is_held_by(worker) || !all_picked(layout, &self.picked, block) {
            return false;
        }
        if self.laid[number] {
            return false;
        }
        self.laid[number] = true;
        true
    }

    fn publish(&mut self, layout: &Layout, worker: u32, block: u32) -> bool
        requires edges { FitEdges layout.now (marks_value self.old) }
        requires place { HavePlace (marks_value self.old) worker block }
        ensures { Applies layout.now.edges (Publish worker block) (marks_value self.old) (marks_value self.new) result }
    {
        if !self.stage(block).is_held_by(worker)
            || !all_picked(layout, &self.picked, block)
            || !all_laid(&layout.edges, &self.laid, block)
        {
            return false;
        }
        resume(&mut self.stages, worker, block);
        self.stages[block as usize] = Stage::Published;
        true
    }

    fn release(&mut self, worker: u32, block: u32) -> bool
        requires { HavePlace (marks_value self.old) worker block }
        ensures { (es : List Edge) → Applies es (Release worker block) (marks_value self.old) (marks_value self.new) result }
    {
        if !self.stage(block).is_resumed_by(worker) {
            return false;
        }
        let place = place_of(self.stages.len(), worker, block);
        self.owed[place] = true;
        self.stages[block as usize] = Stage::Ready;
        true
    }
}

/// Resumes each block that is parked on the one that the worker published.
fn resume(stages: &mut Vec<Stage>, worker: u32, published: u32)
    ensures len { length stages.new.items ≡ length stages.old.items }
    ensures resumed { (b : ℕ) → stage_at stages.new.items b ≡ stage_after_publication worker published (stage_at stages.old.items b) }
{
    for i in 0..stages.len() {
        stages[i] = stages[i].after_publication(worker, published);
    }
}

/// A row of marks for each worker, of which worker 0's are set.
fn first_owes_all(alloc: Global, blocks: usize, workers: u32) -> Result<Vec<bool>, AllocError>
    requires { 1 ≤ workers }
    ensures len { IfOk result (λ v. length v.items ≡ workers * blocks) }
    ensures marks { IfOk result (λ v. (k : ℕ) → mark_at v.items k ≡ nat_lt k blocks) }
{
    let Some(marks) = blocks.checked_mul(workers as usize) else {
        return Err(AllocError);
    };
    let mut owed = Vec::from_elem(alloc, false, marks)?;
    for block in 0..blocks {
        owed[block] = true;
    }
    Ok(owed)
}

/// The number of the mark that the worker owes the block, in rows of that many blocks.
fn place_of(blocks: usize, worker: u32, block: u32) -> usize
    requires { place_of blocks worker block < 2 ^ 64 }
    ensures { result ≡ place_of blocks worker block }
{
    worker as usize * blocks + block as usize
}
