//! The first fault of a table of scalars against the laws of a 2-cocycle.

ghost use Rattle.std.specs.Prelude.{◌≡◌};
ghost use Rattle.nichols_field.specs.Field.{IsElement};
ghost use Rattle.nichols_tensor.specs.Words.{up_to, IsLetterOf};
ghost use Rattle.nichols_braid.specs.Braid.{entry};
ghost use Rattle.nichols_braid.specs.FaultAnswers.{IsFault};
ghost use Rattle.nichols_braid.specs.Faults.{first_answer, first_pair, zero_fault_at, zero_fault, cocycle_fault_at, cocycle_fault};
ghost use Rattle.nichols_braid.specs.Tables.{IsCocycleTable, with_scalars};

use crate::faults::{BraidFault, Shown};
use crate::tables::RackTable;
use nichols_field::Field;

/// The first scalar that is 0.
#[tactic(auto, unfolding(crate::specs::Faults::zero_fault))]
pub(crate) fn zero_fault(field: Field, rack: &RackTable, scalars: &[u32]) -> Option<BraidFault>
    requires { IsCocycleTable field rack.now.letters scalars.now }
    ensures { IsFault result (zero_fault (with_scalars field rack.now scalars.now)) }
{
    for i in 0..rack.letters {
        let fault = zero_fault_from(field, rack, scalars, i + 1);
        if fault.is_some() {
            return fault;
        }
    }
    None
}

/// The first scalar of row i that is 0.
fn zero_fault_from(field: Field, rack: &RackTable, scalars: &[u32], i: u8) -> Option<BraidFault>
    requires table { IsCocycleTable field rack.now.letters scalars.now }
    requires row { IsLetterOf rack.now.letters i }
    ensures { IsFault result (first_answer (zero_fault_at (with_scalars field rack.now scalars.now) i) (up_to rack.now.letters)) }
{
    for j in 0..rack.letters {
        if scalar(field, rack.letters, scalars, i, j + 1) == 0 {
            return Some(BraidFault::CocycleZero(i, j + 1));
        }
    }
    None
}

/// The first fault against the law of three letters.
#[tactic(auto, unfolding(crate::specs::Faults::cocycle_fault))]
pub(crate) fn cocycle_fault(field: Field, rack: &RackTable, scalars: &[u32]) -> Option<BraidFault>
    requires { IsCocycleTable field rack.now.letters scalars.now }
    ensures { IsFault result (cocycle_fault (with_scalars field rack.now scalars.now)) }
{
    for i in 0..rack.letters {
        let fault = cocycle_fault_from(field, rack, scalars, i + 1);
        if fault.is_some() {
            return fault;
        }
    }
    None
}

/// The first fault at letter i and two more.
fn cocycle_fault_from(field: Field, rack: &RackTable, scalars: &[u32], i: u8) -> Option<BraidFault>
    requires table { IsCocycleTable field rack.now.letters scalars.now }
    requires first { IsLetterOf rack.now.letters i }
    ensures { IsFault result (first_pair rack.now.letters (cocycle_fault_at (with_scalars field rack.now scalars.now) i)) }
{
    for j in 0..rack.letters {
        let fault = cocycle_fault_from_pair(field, rack, scalars, i, j + 1);
        if fault.is_some() {
            return fault;
        }
    }
    None
}

/// The first fault at letters i, j and one more.
fn cocycle_fault_from_pair(
    field: Field,
    rack: &RackTable,
    scalars: &[u32],
    i: u8,
    j: u8,
) -> Option<BraidFault>
    requires table { IsCocycleTable field rack.now.letters scalars.now }
    requires first { IsLetterOf rack.now.letters i }
    requires second { IsLetterOf rack.now.letters j }
    ensures { IsFault result (first_answer (cocycle_fault_at (with_scalars field rack.now scalars.now) i j) (up_to rack.now.letters)) }
{
    for k in 0..rack.letters {
        let fault = cocycle_fault_at(field, rack, scalars, i, j, k + 1);
        if fault.is_some() {
            return fault;
        }
    }
    None
}

/// The fault at three letters, where the law is broken there.
fn cocycle_fault_at(
    field: Field,
    rack: &RackTable,
    scalars: &[u32],
    i: u8,
    j: u8,
    k: u8,
) -> Option<BraidFault>
    requires table { IsCocycleTable field rack.now.letters scalars.now }
    requires first { IsLetterOf rack.now.letters i }
    requires second { IsLetterOf rack.now.letters j }
    requires third { IsLetterOf rack.now.letters k }
    ensures { IsFault result (cocycle_fault_at (with_scalars field rack.now scalars.now) i j k) }
{
    let n = rack.letters;
    let left = field.mul(
        scalar(field, n, scalars, i, rack.entry(j, k)),
        scalar(field, n, scalars, j, k),
    );
    let right = field.mul(
        scalar(field, n, scalars, rack.entry(i, j), rack.entry(i, k)),
        scalar(field, n, scalars, i, k),
    );
    if left == right {
        None
    } else {
        Some(BraidFault::NotCocycle(i, j, k, Shown::of(field, left), Shown::of(field, right)))
    }
}

/// The scalar of row i and column j.
#[tactic(auto, unfolding(crate::specs::Braid::entry))]
fn scalar(_field: Field, letters: u8, scalars: &[u32], i: u8, j: u8) -> u32
    requires table { IsCocycleTable _field letters scalars.now }
    requires row { IsLetterOf letters i }
    requires column { IsLetterOf letters j }
    ensures value { result ≡ entry letters scalars.now i j }
    ensures element { IsElement _field result }
{
    let n = usize::from(letters);
    scalars[(usize::from(i) - 1) * n + (usize::from(j) - 1)]
}
