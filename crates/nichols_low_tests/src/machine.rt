//! The shelf machine of `nichols_core`.

ghost use Rattle.std.specs.Prelude.{◌≡◌, ◌^◌, ◌<◌, IfOk, IfSome, length};
ghost use Rattle.nichols_core.specs.States.{IsInRange};
ghost use Rattle.nichols_core.specs.declared.event.Event.TheVariants.{Take, Ask, Pick, Lay, Publish, Release};

use nichols_core::{Edge, Event, Layout, Stage, State};
use std::alloc::{AllocError, Global};
use std::test::Fail;
use std::thread::join;

/// The layout with these degrees and these two edges, each as its lower block, letter and upper block.
fn two_edges(
    alloc: Global,
    degrees: &[u32],
    edges: [(u32, u8, u32); 2],
) -> Result<Option<Layout>, AllocError>
    requires { length degrees.now < 2 ^ 32 }
{
    let blocks = Vec::from_slice(alloc, degrees)?;
    let mut list = Vec::new(alloc);
    for (lower, letter, upper) in edges {
        list.push(Edge {
            lower,
            letter,
            upper,
        })?;
    }
    Ok(Layout::new(blocks, list))
}

#[test]
fn layouts_by_their_rules(rt: HostRuntime) -> Result<(), Fail> {
    let table = [
        ("rising", [(0, 1, 1), (0, 2, 2)], true),
        ("in falling order", [(0, 2, 2), (0, 1, 1)], true),
        (
            "two letters between two blocks",
            [(0, 1, 1), (0, 2, 1)],
            true,
        ),
        ("the last letter", [(1, 24, 3), (0, 24, 1)], true),
        ("no such lower block", [(4, 1, 1), (0, 2, 2)], false),
        ("no such upper block", [(0, 1, 4), (0, 2, 2)], false),
        ("letter 0", [(0, 0, 1), (0, 2, 2)], false),
        ("letter 25", [(0, 25, 1), (0, 2, 2)], false),
        ("within a degree", [(1, 1, 2), (0, 2, 2)], false),
        ("to the degree before", [(1, 1, 0), (0, 2, 2)], false),
        ("over a degree", [(0, 1, 3), (0, 2, 2)], false),
        (
            "a letter twice out of a block",
            [(0, 1, 1), (0, 1, 2)],
            false,
        ),
        ("a letter twice into a block", [(1, 1, 3), (2, 1, 3)], false),
        ("an edge twice", [(0, 1, 1), (0, 1, 1)], false),
    ];
    for (name, edges, good) in table {
        let layout = two_edges(rt.alloc(), &[1, 2, 2, 3], edges)?;
        assert_eq!(rt; layout.is_some(), good, "{name}");
    }
    let from_last = two_edges(rt.alloc(), &[u32::MAX, 0], [(0, 1, 1), (0, 2, 1)])?;
    assert!(rt; from_last.is_none());
    assert!(rt; Layout::new(Vec::new(rt.alloc()), Vec::new(rt.alloc())).is_some());
    Ok(())
}

#[test]
fn edges_rise_by_upper_block_and_letter(rt: HostRuntime) -> Result<(), Fail> {
    let Some(layout) = two_edges(rt.alloc(), &[1, 2, 2, 3], [(0, 1, 2), (0, 2, 1)])? else {
        panic!(rt; "no layout");
    };
    let rising = [
        Edge {
            lower: 0,
            letter: 2,
            upper: 1,
        },
        Edge {
            lower: 0,
            letter: 1,
            upper: 2,
        },
    ];
    let copy = layout.copy(rt.alloc())?;
    assert_eq!(rt; layout.edges.as_slice(), rising.as_slice());
    assert_eq!(rt; copy.edges.as_slice(), rising.as_slice());
    assert_eq!(rt; copy.degrees.as_slice(), [1, 2, 2, 3].as_slice());
    assert!(rt; layout.edge_into(2, 1) == Some(1) && layout.edge_into(2, 2).is_none());
    assert!(rt; layout.edge_out(0, 2) == Some(0) && layout.edge_out(1, 2).is_none());
    assert!(rt; layout.entries(0) == (0, 0) && layout.entries(2) == (1, 2));
    Ok(())
}

/// Blocks 0 and 1 of degrees 1 and 2, and an edge of letter 1 between them.
fn two_blocks(alloc: Global) -> Result<Option<Layout>, AllocError>
    ensures { IfOk result (λ o. IfSome o (λ l. length l.degrees ≡ 2)) }
{
    let degrees = Vec::from_slice(alloc, &[1, 2])?;
    let edges = Vec::from_slice(
        alloc,
        &[Edge {
            lower: 0,
            letter: 1,
            upper: 1,
        }],
    )?;
    Ok(Layout::new(degrees, edges))
}

fn take(worker: u32, block: u32) -> Event
    ensures { result ≡ Take worker block }
{
    Event::Take { worker, block }
}

fn ask(worker: u32, block: u32, letter: u8) -> Event
    ensures { result ≡ Ask worker block letter }
{
    Event::Ask {
        worker,
        block,
        letter,
    }
}

fn pick(worker: u32, block: u32, letter: u8) -> Event
    ensures { result ≡ Pick worker block letter }
{
    Event::Pick {
        worker,
        block,
        letter,
    }
}

fn lay(worker: u32, block: u32, letter: u8) -> Event
    ensures { result ≡ Lay worker block letter }
{
    Event::Lay {
        worker,
        block,
        letter,
    }
}

fn publish(worker: u32, block: u32) -> Event
    ensures { result ≡ Publish worker block }
{
    Event::Publish { worker, block }
}

fn release(worker: u32, block: u32) -> Event
    ensures { result ≡ Release worker block }
{
    Event::Release { worker, block }
}

/// Applies the event, and leaves to the run what the contract says of the state.
fn step(state: &mut State, layout: &Layout, event: Event) -> bool
    requires layout { layout.now ≡ state.old.layout }
    requires in_range { IsInRange state.old event }
    ensures layout { state.new.layout ≡ state.old.layout }
    ensures workers { state.new.workers ≡ state.old.workers }
{
    state.apply(layout, event)
}

#[test]
fn at_the_start_worker_0_owes_all(rt: HostRuntime) -> Result<(), Fail> {
    let Some(layout) = two_blocks(rt.alloc())? else {
        panic!(rt; "no layout");
    };
    let state = State::start(rt.alloc(), &layout, 2)?;
    for block in 0..2 {
        assert!(rt; state.stage(block) == Stage::Ready, "block {block}");
        assert!(rt;
            state.owes(0, block) && !state.owes(1, block),
            "block {block}"
        );
    }
    assert!(rt; layout.edges.len() == 1);
    assert!(rt; !state.laid(0) && !state.picked(0));
    Ok(())
}

#[test]
fn a_parked_block_is_resumed(rt: HostRuntime) -> Result<(), Fail> {
    let Some(layout) = two_blocks(rt.alloc())? else {
        panic!(rt; "no layout");
    };
    let mut state = State::start(rt.alloc(), &layout, 2)?;
    assert!(rt; step(&mut state, &layout, take(0, 1)));
    assert!(rt; step(&mut state, &layout, ask(0, 1, 1)));
    assert!(rt; state.stage(1) == Stage::Parked(0));
    assert!(rt; step(&mut state, &layout, take(1, 0)));
    assert!(rt; step(&mut state, &layout, lay(1, 0, 1)));
    assert!(rt; step(&mut state, &layout, publish(1, 0)));
    assert!(rt; step(&mut state, &layout, release(1, 1)));
    assert!(rt; state.stage(1) == Stage::Ready && state.owes(1, 1) && !state.owes(0, 1));
    assert!(rt; !step(&mut state, &layout, publish(1, 0)));
    Ok(())
}

/// A take of a block that is resumed holds nothing: the block has to be released first.
#[test]
fn one_worker_publishes_both(rt: HostRuntime) -> Result<(), Fail> {
    let Some(layout) = two_blocks(rt.alloc())? else {
        panic!(rt; "no layout");
    };
    let mut state = State::start(rt.alloc(), &layout, 1)?;
    assert!(rt; step(&mut state, &layout, take(0, 1)));
    assert!(rt; step(&mut state, &layout, ask(0, 1, 1)));
    assert!(rt; state.stage(1) == Stage::Parked(0));
    assert!(rt; step(&mut state, &layout, take(0, 0)));
    assert!(rt; step(&mut state, &layout, lay(0, 0, 1)));
    assert!(rt; step(&mut state, &layout, publish(0, 0)));
    assert!(rt; state.stage(1) == Stage::Resumed(0));
    assert!(rt; step(&mut state, &layout, take(0, 1)));
    assert!(rt; state.stage(1) == Stage::Resumed(0) && !state.owes(0, 1));
    assert!(rt; step(&mut state, &layout, release(0, 1)));
    assert!(rt; step(&mut state, &layout, take(0, 1)));
    assert!(rt; step(&mut state, &layout, ask(0, 1, 1)));
    assert!(rt; state.stage(1) == Stage::Held(0));
    assert!(rt; step(&mut state, &layout, pick(0, 1, 1)));
    assert!(rt; step(&mut state, &layout, publish(0, 1)));
    assert!(rt; state.stage(0) == Stage::Published && state.stage(1) == Stage::Published);
    assert!(rt; !state.owes(0, 0) && !state.owes(0, 1));
    assert!(rt; layout.edges.len() == 1);
    assert!(rt; state.laid(0) && state.picked(0));
    Ok(())
}

fn crosses_threads<T: Send + Sync + Drop>(_value: T) {}

#[test]
fn all_types_cross_threads(rt: HostRuntime) -> Result<(), Fail> {
    let Some(layout) = two_blocks(rt.alloc())? else {
        panic!(rt; "no layout");
    };
    let state = State::start(rt.alloc(), &layout, 1)?;
    let (into, out) = join(&rt, || layout.edge_into(1, 1), || layout.edge_out(0, 1));
    assert!(rt; into == Some(0) && out == Some(0));
    crosses_threads(state);
    crosses_threads(layout);
    crosses_threads(Stage::Ready);
    crosses_threads(take(0, 0));
    crosses_threads(Edge {
        lower: 0,
        letter: 1,
        upper: 1,
    });
    Ok(())
}
