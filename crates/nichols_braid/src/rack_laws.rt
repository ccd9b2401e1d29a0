//! The first fault of a table against the laws of a rack.

ghost use Rattle.nichols_braid.specs.FaultAnswers.{IsFault};
ghost use Rattle.nichols_braid.specs.Faults.{first_answer, first_pair};
ghost use Rattle.nichols_braid.specs.RackLaws.{law_fault_at, law_fault};
ghost use Rattle.nichols_tensor.specs.Words.{up_to, IsLetterOf};

use crate::faults::BraidFault;
use crate::tables::RackTable;

/// The laws of a rack that speak of three letters.
#[derive(Clone, Copy)]
pub(crate) enum RackLaw {
    /// `i ▷ j` isn't `i ▷ k` where j is less than k.
    Bijective,
    /// `i ▷ (j ▷ k)` is `(i ▷ j) ▷ (i ▷ k)`.
    Distributive,
}

impl RackTable {
    /// The first fault against a law.
    #[tactic(auto, unfolding(crate::specs::RackLaws::law_fault))]
    pub(crate) fn fault(&self, law: RackLaw) -> Option<BraidFault>
        ensures { IsFault result (law_fault self.now law) }
    {
        for i in 0..self.letters {
            let fault = self.fault_from(law, i + 1);
            if fault.is_some() {
                return fault;
            }
        }
        None
    }

    /// The first fault at letter i and two more.
    fn fault_from(&self, law: RackLaw, i: u8) -> Option<BraidFault>
        requires { IsLetterOf self.now.letters i }
        ensures { IsFault result (first_pair self.now.letters (law_fault_at self.now law i)) }
    {
        for j in 0..self.letters {
            let fault = self.fault_from_pair(law, i, j + 1);
            if fault.is_some() {
                return fault;
            }
        }
        None
    }

    /// The first fault at letters i, j and one more.
    fn fault_from_pair(&self, law: RackLaw, i: u8, j: u8) -> Option<BraidFault>
        requires first { IsLetterOf self.now.letters i }
        requires second { IsLetterOf self.now.letters j }
        ensures { IsFault result (first_answer (law_fault_at self.now law i j) (up_to self.now.letters)) }
    {
        for k in 0..self.letters {
            let fault = self.fault_at(law, i, j, k + 1);
            if fault.is_some() {
                return fault;
            }
        }
        None
    }

    /// The fault at three letters, where the law is broken there.
    fn fault_at(&self, law: RackLaw, i: u8, j: u8, k: u8) -> Option<BraidFault>
        requires first { IsLetterOf self.now.letters i }
        requires second { IsLetterOf self.now.letters j }
        requires third { IsLetterOf self.now.letters k }
        ensures { IsFault result (law_fault_at self.now law i j k) }
    {
        match law {
            RackLaw::Bijective => {
                let letter = self.entry(i, j);
                if j < k && letter == self.entry(i, k) {
                    Some(BraidFault::NotBijective(i, j, k, letter))
                } else {
                    None
                }
            }
            RackLaw::Distributive => {
                let left = self.entry(i, self.entry(j, k));
                let right = self.entry(self.entry(i, j), self.entry(i, k));
                if left == right {
                    None
                } else {
                    Some(BraidFault::NotDistributive(i, j, k, left, right))
                }
            }
        }
    }
}
