//! Laws of the report that is due, for all words and documents.

ghost use Rattle.nichols_top.specs.Laws.{LongExpressionsAreFirst, WorkersAndWindowLeaveTheReport};

/// Two command lines that are commands, and differ in the values of `--workers` and `--window` alone, have one report for each
/// document: its pieces and its status.
#[tactic(auto, using(crate::proofs::ReportLaws::workers_and_window_leave_the_report))]
pub fn workers_and_window_leave_the_report()
    ensures { WorkersAndWindowLeaveTheReport }
{}

/// The expression that is refused as too long for the sum over all permutations is the first that has a word of more letters than
/// [`nichols_lift::PLACE_LIMIT`]; none is refused so exactly where no expression has.
pub fn long_expressions_are_first()
    ensures { LongExpressionsAreFirst }
{}
