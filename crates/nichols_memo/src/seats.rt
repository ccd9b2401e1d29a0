//! How a memo is started, and how seats are split off and joined.

ghost use Rattle.std.specs.Prelude.{◌≡◌, ◌≤◌, None, IfOk};
ghost use Rattle.nichols_memo.specs.declared.TheConstants.{MOST_SLOTS};
ghost use Rattle.nichols_memo.specs.Seats.{IsOf, braid_of, slots_of, view_of, hits_of};
ghost use Rattle.nichols_memo.specs.Views.{first_view, newcomer};

use crate::MOST_SLOTS;
use crate::board::{Board, Newcomer, Place, Return};
use crate::memo::{Memo, MemoSeat};
use atomic_table::Table;
use nichols_braid::Braid;
use std::alloc::{AllocError, Global};

impl Memo {
    /// A memo with so many slots, all of them empty, for normal forms in a braid, and the first seat at it.
    pub fn start(alloc: Global, braid: &Braid, slots: u32) -> Result<(Memo, MemoSeat), AllocError>
        requires some { 1 ≤ slots }
        requires most { slots ≤ MOST_SLOTS }
        ensures seat { IfOk result (λ r. IsOf r.0 r.1) }
        ensures braid { IfOk result (λ r. braid_of r.0 ≡ braid.now) }
        ensures slots { IfOk result (λ r. slots_of r.0 ≡ slots) }
        ensures view { IfOk result (λ r. view_of r.1 ≡ first_view braid.now) }
        ensures hits { IfOk result (λ r. hits_of r.1 ≡ 0) }
    {
        let words = Vec::from_elem(alloc, 0u64, slots as usize)?;
        let (board, place): (Board, Place) = Table::vacant(
            alloc,
            words.as_slice(),
            slots as usize,
            braid,
        )?;
        Ok((Memo { board, slots }, MemoSeat { place, hits: 0 }))
    }

    /// Another seat, which has no hits.
    pub fn split(&self, _alloc: Global, seat: &mut MemoSeat) -> Result<MemoSeat, AllocError>
        requires seat { IsOf self.now seat.old }
        ensures seat { IsOf self.now seat.new }
        ensures view { view_of seat.new ≡ view_of seat.old }
        ensures hits { hits_of seat.new ≡ hits_of seat.old }
        ensures given { IfOk result (λ s. IsOf self.now s × (view_of s ≡ newcomer (view_of seat.old)) × (hits_of s ≡ 0)) }
    {
        let place = self.board.shared.split_seat::<Newcomer>(&mut seat.place);
        Ok(MemoSeat { place, hits: 0 })
    }

    /// Joins another seat into this one, which keeps its own number of hits.
    pub fn join(&self, seat: &mut MemoSeat, other: MemoSeat)
        requires seat { IsOf self.now seat.old }
        requires other { IsOf self.now other }
        ensures seat { IsOf self.now seat.new }
        ensures view { view_of seat.new ≡ view_of seat.old }
        ensures hits { hits_of seat.new ≡ hits_of seat.old }
    {
        let MemoSeat { place, hits: _ } = other;
        self.board
            .shared
            .join_seat::<Return>(&mut seat.place, place);
    }

    /// How many hits the seat had.
    pub fn hits(&self, seat: &MemoSeat) -> u64
        requires { IsOf self.now seat.now }
        ensures { result ≡ hits_of seat.now }
    {
        let _ = self;
        seat.hits
    }
}

impl MemoSeat {
    /// Tells a caller that between two calls no turn is held.
    pub fn holds_no_turn(&self)
        ensures { (view_of self.now).out ≡ None }
    {
        let _ = &self.place;
    }
}
