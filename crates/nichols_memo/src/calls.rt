//! How forms are looked up and kept.

ghost use Rattle.std.specs.Prelude.{◌≡◌, ℕ, ◌<◌, IfOk, MatchBool, MatchOption, Some, None, [], ◌∷◌, true};
ghost use Rattle.nichols_braid.specs.Braid.{BraidValue};
ghost use Rattle.nichols_memo.specs.Calls.{IsHitOf, IsLost, IsExchanged, Looks, Tells, hits_after};
ghost use Rattle.nichols_memo.specs.Forms.{form_of, IsRight};
ghost use Rattle.nichols_memo.specs.Hash.{slot_of};
ghost use Rattle.nichols_memo.specs.Seats.{IsOf, braid_of, slots_of, view_of, hits_of};
ghost use Rattle.nichols_memo.specs.Views.{won_view, back_view};

use crate::board::{Back, Place, Slot, Try};
use crate::hash::slot_of;
use crate::memo::{Memo, MemoSeat};
use crate::{Entry, Memoized};
use nichols_words::{Comb, Word};
use std::alloc::{AllocError, Global};

const FREE: u64 = 0;

const HELD: u64 = 1;

impl Memo {
    /// The form that is kept for a word, in a copy. Want of memory is that of the copy.
    ///
    /// It is a miss where the slot of the word is empty, has another word, or is in another seat's turn. What was in the slot is in it
    /// again afterwards.
    pub fn look(
        &self,
        alloc: Global,
        seat: &mut MemoSeat,
        word: &Word,
    ) -> Result<Memoized, AllocError>
        requires seat { IsOf self.now seat.old }
        ensures seat { IsOf self.now seat.new }
        ensures hit { IfOk result (IsHitOf (braid_of self.now) word.now) }
        ensures steps { Looks (slot_of (slots_of self.now) word.now) word.now (view_of seat.old) (view_of seat.new) result }
        ensures hits { hits_of seat.new ≡ hits_after result (hits_of seat.old) }
    {
        let slot = slot_of(self.slots, word);
        let Some(entry) = self.take_out(&mut seat.place, slot) else {
            return Ok(Memoized::Miss);
        };
        let answer = answer(alloc, &entry, word);
        self.put_back(&mut seat.place, slot, entry);
        if let Ok(Memoized::Hit(_)) = &answer {
            seat.hits = seat.hits.saturating_add(1);
        }
        answer
    }

    /// Keeps the normal form of a word, in place of what its slot had, unless the slot is in another seat's turn.
    pub fn keep(&self, seat: &mut MemoSeat, word: Word, form: Comb) -> bool
        requires seat { IsOf self.now seat.old }
        requires form { form ≡ form_of (braid_of self.now) word }
        ensures seat { IsOf self.now seat.new }
        ensures steps { MatchBool result
            ((x : _) × IsExchanged (slot_of (slots_of self.now) word) x (Some (record { word = word; form = form })) (view_of seat.old) (view_of seat.new))
            (IsLost (slot_of (slots_of self.now) word) (view_of seat.old) (view_of seat.new)) }
        ensures hits { hits_of seat.new ≡ hits_of seat.old }
    {
        let slot = slot_of(self.slots, &word);
        let Some(_) = self.take_out(&mut seat.place, slot) else {
            return false;
        };
        self.put_back(&mut seat.place, slot, Some(Entry { word, form }));
        true
    }

    /// What is in the slot, where its turn is free.
    fn take_out(&self, place: &mut Place, slot: u32) -> Option<Slot>
        requires table { place.old.table_id ≡ self.now.board.shared.table_id }
        requires live { place.old.me.0.live ≡ true }
        requires turn { place.old.me.0.out ≡ None }
        requires none { place.old.me.1 ≡ [] }
        requires slot { slot < self.now.slots }
        ensures table { place.new.table_id ≡ place.old.table_id }
        ensures found { MatchOption result
            (IsLost slot place.old.me.0 place.new.me.0 × (place.new.me.1 ≡ []))
            (λ x. IsRight place.old.me.0.braid x × (place.new.me ≡ (won_view slot x place.old.me.0, (slot, None) ∷ []))) }
    {
        let shared = &self.board.shared;
        if shared.compare_exchange::<Try>(place, slot as usize, FREE, HELD) == FREE {
            Some(shared.exchange(place, slot as usize, None))
        } else {
            None
        }
    }

    /// Puts an entry into the slot, whose turn is then free.
    fn put_back(&self, place: &mut Place, slot: u32, entry: Slot)
        requires table { place.old.table_id ≡ self.now.board.shared.table_id }
        requires live { place.old.me.0.live ≡ true }
        requires turn { place.old.me.0.out ≡ Some slot }
        requires out { place.old.me.1 ≡ (slot, None) ∷ [] }
        requires entry { IsRight place.old.me.0.braid entry }
        requires slot { slot < self.now.slots }
        ensures table { place.new.table_id ≡ place.old.table_id }
        ensures me { (found : ℕ) × (place.new.me ≡ (back_view slot entry found place.old.me.0, [])) }
    {
        let shared = &self.board.shared;
        drop(shared.exchange(place, slot as usize, entry));
        shared.swap::<Back>(place, slot as usize, FREE);
    }
}

/// What an entry tells of a word.
fn answer(alloc: Global, entry: &Slot, word: &Word) -> Result<Memoized, AllocError>
    ensures tells { Tells word.now entry.now result }
    ensures hit { (braid : BraidValue) → IsRight braid entry.now → IfOk result (IsHitOf braid word.now) }
{
    let Some(entry) = entry else {
        return Ok(Memoized::Miss);
    };
    if entry.word == *word {
        Ok(Memoized::Hit(entry.form.copy(alloc)?))
    } else {
        Ok(Memoized::Miss)
    }
}
