//! The steps on a pair. One with a condition looks at marks and is made only where they allow it; each answers whether it found what
//! it should.

ghost use Rattle.std.specs.Prelude.{◌≡◌, ◌==◌, ◌<◌, ◌≤◌, ◌+◌, ◌-◌, ◌*◌, ◌||◌};
ghost use Rattle.std.specs.Int.{bit_at};
ghost use Rattle.nichols_tensor.specs.declared.TheConstants.{LETTER_LIMIT};
ghost use Rattle.nichols_shelf.specs.Passes.{IsOf};
ghost use Rattle.nichols_shelf.specs.Played.{StaysOf};

use crate::hand::Hand;
use crate::pairs::{LETTER, Pairs};
use nichols_shelf::Asked;
use nichols_value::Shared;

impl Pairs {
    /// The upper block of a pair.
    fn upper(&self, pair: u32) -> u32
        requires { pair < self.now.count }
        ensures { result ≡ self.now.count + pair }
    {
        self.count + pair
    }
}

impl Hand {
    /// Takes a block.
    pub fn take(&mut self, pairs: &Pairs, block: u32) -> bool
        requires pass { IsOf pairs.now.shelf self.old.pass }
        requires block { block < 2 * pairs.now.count }
        ensures { StaysOf pairs.now.shelf self.old.pass self.new.pass }
    {
        let taken = pairs.shelf.take(&mut self.pass, block);
        let b = block as usize;
        self.held[b] = taken || self.held[b];
        taken
    }

    /// Takes the lower block.
    pub fn take_lower(&mut self, pairs: &Pairs, pair: u32) -> bool
        requires pass { IsOf pairs.now.shelf self.old.pass }
        requires pair { pair < pairs.now.count }
        ensures { StaysOf pairs.now.shelf self.old.pass self.new.pass }
    {
        self.take(pairs, pair)
    }

    /// Takes the upper block.
    pub fn take_upper(&mut self, pairs: &Pairs, pair: u32) -> bool
        requires pass { IsOf pairs.now.shelf self.old.pass }
        requires pair { pair < pairs.now.count }
        ensures { StaysOf pairs.now.shelf self.old.pass self.new.pass }
    {
        self.take(pairs, pairs.upper(pair))
    }

    /// Asks for the lower block.
    pub fn ask(&mut self, pairs: &Pairs, pair: u32) -> Option<Asked>
        requires pass { IsOf pairs.now.shelf self.old.pass }
        requires pair { pair < pairs.now.count }
        ensures { StaysOf pairs.now.shelf self.old.pass self.new.pass }
    {
        let upper = pairs.upper(pair);
        if !self.held[upper as usize] || self.picked[pair as usize] {
            return None;
        }
        let asked = pairs.shelf.ask(&mut self.pass, upper, LETTER);
        let published = asked.is_published();
        self.held[upper as usize] = published;
        let knew = self.known[pair as usize];
        self.known[pair as usize] = either(published, knew);
        Some(asked)
    }

    /// Lays want of memory at the edge.
    pub fn lay(&mut self, pairs: &Pairs, pair: u32) -> bool
        requires pass { IsOf pairs.now.shelf self.old.pass }
        requires pair { pair < pairs.now.count }
        ensures { StaysOf pairs.now.shelf self.old.pass self.new.pass }
    {
        if !self.held[pair as usize] || self.laid[pair as usize] {
            return false;
        }
        pairs
            .shelf
            .lay(&mut self.pass, pair, LETTER, Shared::Starved);
        self.laid[pair as usize] = true;
        true
    }

    /// Publishes the lower block, and answers whether the upper one was parked on it.
    pub fn publish_lower(&mut self, pairs: &Pairs, pair: u32) -> bool
        requires pass { IsOf pairs.now.shelf self.old.pass }
        requires pair { pair < pairs.now.count }
        ensures { StaysOf pairs.now.shelf self.old.pass self.new.pass }
    {
        if !self.held[pair as usize] || !self.laid[pair as usize] {
            return false;
        }
        let bits = pairs.shelf.publish(&mut self.pass, pair);
        self.held[pair as usize] = false;
        let upper = pairs.upper(pair) as usize;
        let parked = has_letter(bits, LETTER);
        let was = self.resumed[upper];
        self.resumed[upper] = either(was, parked);
        parked
    }

    /// Makes the upper block ready again.
    pub fn release(&mut self, pairs: &Pairs, pair: u32) -> bool
        requires pass { IsOf pairs.now.shelf self.old.pass }
        requires pair { pair < pairs.now.count }
        ensures { StaysOf pairs.now.shelf self.old.pass self.new.pass }
    {
        let upper = pairs.upper(pair);
        if !self.resumed[upper as usize] {
            return false;
        }
        pairs.shelf.release(&mut self.pass, upper);
        self.resumed[upper as usize] = false;
        true
    }

    /// Picks the value of the lower block.
    pub fn pick(&mut self, pairs: &Pairs, pair: u32) -> bool
        requires pass { IsOf pairs.now.shelf self.old.pass }
        requires pair { pair < pairs.now.count }
        ensures { StaysOf pairs.now.shelf self.old.pass self.new.pass }
    {
        let upper = pairs.upper(pair);
        if !self.held[upper as usize] || !self.known[pair as usize] || self.picked[pair as usize] {
            return false;
        }
        let _value = pairs.shelf.pick(&mut self.pass, upper, LETTER);
        self.picked[pair as usize] = true;
        true
    }

    /// Publishes the upper block, on which nothing is parked.
    pub fn publish_upper(&mut self, pairs: &Pairs, pair: u32) -> bool
        requires pass { IsOf pairs.now.shelf self.old.pass }
        requires pair { pair < pairs.now.count }
        ensures { StaysOf pairs.now.shelf self.old.pass self.new.pass }
    {
        let upper = pairs.upper(pair);
        if !self.held[upper as usize] || !self.picked[pair as usize] {
            return false;
        }
        let _none = pairs.shelf.publish(&mut self.pass, upper);
        self.held[upper as usize] = false;
        true
    }
}

/// Whether the bits have that of the letter.
fn has_letter(bits: u32, letter: u8) -> bool
    requires from { 1 ≤ letter }
    requires to { letter ≤ LETTER_LIMIT }
    ensures { result ≡ (bit_at bits (letter - 1) == 1) }
{
    (bits >> (letter - 1)) % 2 == 1
}

fn either(left: bool, right: bool) -> bool
    ensures { result ≡ (left || right) }
{
    left || right
}
