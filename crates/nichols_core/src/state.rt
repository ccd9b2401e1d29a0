//! A state of the machine over a layout.

ghost use Rattle.std.specs.Prelude.{◌≡◌, ◌<◌, ◌≤◌, false, length, IfOk};
ghost use Rattle.nichols_core.specs.Layout.{IsLayout};
ghost use Rattle.nichols_core.specs.Machine.{can, after};
ghost use Rattle.nichols_core.specs.SixLaws.{SixLaws};
ghost use Rattle.nichols_core.specs.Runs.{start};
ghost use Rattle.nichols_core.specs.States.{machine_of, IsWithin, IsInRange};

use crate::event::Event;
use crate::layout::Layout;
use crate::marks::Marks;
use crate::stage::Stage;
use std::alloc::{AllocError, Global};
use std::marker::Model;

/// A state of the machine over a layout, which it keeps a copy of. It always meets the six laws.
#[derive(Drop)]
pub struct State {
    layout: Layout,
    workers: u32,
    marks: Marks,
}

impl Model for State {
    ghost use Rattle.nichols_core.specs.States.{StateValue, IsState, marks_value};

    ghost Value = { StateValue };

    ghost view = { λ s. record { layout = s.layout; workers = s.workers; marks = marks_value s.marks } };

    ghost invariant = { λ s. IsState (record { layout = s.layout; workers = s.workers; marks = marks_value s.marks }) };
}

impl State {
    /// Every block is ready and owed by worker 0, and no edge is laid or picked.
    pub fn start(alloc: Global, layout: &Layout, workers: u32) -> Result<State, AllocError>
        requires { 1 ≤ workers }
        ensures layout { IfOk result (λ s. s.layout ≡ layout.now) }
        ensures workers { IfOk result (λ s. s.workers ≡ workers) }
        ensures state { IfOk result (λ s. machine_of s ≡ start (length layout.now.degrees)) }
    {
        let kept = layout.copy(alloc)?;
        let marks = Marks::start(alloc, layout, workers)?;
        Ok(State {
            layout: kept,
            workers,
            marks,
        })
    }

    /// Tells a caller that the state is one of a layout and meets the six laws.
    pub fn meets_the_six_laws(&self)
        ensures layout { IsLayout self.now.layout }
        ensures laws { SixLaws self.now.layout.edges (machine_of self.now) }
    {
        let _ = &self.marks;
    }

    /// Where the block stands.
    pub fn stage(&self, block: u32) -> Stage
        requires { block < length self.now.layout.degrees }
        ensures { result ≡ (machine_of self.now).stage block }
    {
        self.marks.stage(block)
    }

    /// Whether the worker owes the block.
    pub fn owes(&self, worker: u32, block: u32) -> bool
        requires { IsWithin self.now worker block }
        ensures { result ≡ (machine_of self.now).owes worker block }
    {
        self.marks.owes(worker, block)
    }

    /// Whether the edge with this number is laid.
    pub fn laid(&self, edge: usize) -> bool
        requires { edge < length self.now.layout.edges }
        ensures { result ≡ (machine_of self.now).laid edge }
    {
        self.marks.laid[edge]
    }

    /// Whether the edge with this number is picked.
    pub fn picked(&self, edge: usize) -> bool
        requires { edge < length self.now.layout.edges }
        ensures { result ≡ (machine_of self.now).picked edge }
    {
        self.marks.picked[edge]
    }

    /// Applies the event, and says whether its condition holds. Where it doesn't, the state stays. The layout
    /// is the state's own.
    pub fn apply(&mut self, layout: &Layout, event: Event) -> bool
        requires layout { layout.now ≡ self.old.layout }
        requires in_range { IsInRange self.old event }
        ensures answer { result ≡ can self.old.layout.edges event (machine_of self.old) }
        ensures state { machine_of self.new ≡ after self.old.layout.edges event (machine_of self.old) }
        ensures layout { self.new.layout ≡ self.old.layout }
        ensures workers { self.new.workers ≡ self.old.workers }
        ensures stays { result ≡ false → self.new ≡ self.old }
    {
        self.marks.apply(layout, event)
    }
}
