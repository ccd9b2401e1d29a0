//! What ties the reading of expressions to their grammar.

ghost use Rattle.nichols_expression.specs.Laws.{GrammarIsAccepted, ATextHasOneValue, FaultsHavePlaces, FaultsAreFinal, FaultsAreFirst, PrintedCombinationsAreReadAgain};

/// Exactly the texts of the grammar are accepted, each with its value.
pub fn grammar_is_accepted()
    ensures { GrammarIsAccepted }
{}

/// A text has one value at most.
pub fn a_text_has_one_value()
    ensures { ATextHasOneValue }
{}

/// Places count from 1 and lie in the text, but that of a text which ends too early, which is the one behind its last byte.
///
/// `Surplus` is the fault of no text.
pub fn faults_have_places()
    ensures { FaultsHavePlaces }
{}

/// A text with a fault is no expression, and no other that begins with the same bytes is one.
///
/// These bytes are those up to and with the place of a wrong byte, of a long word's letter or of a term too many; up to and with the
/// first digit too many of a number; and of a run that is no letter the whole run, the spaces behind it and one byte more: over three
/// letters `7` is no expression, and `7*1` is one. Where a text ends with such a run or too early, only the text itself is known to
/// be none.
pub fn faults_are_final()
    ensures { FaultsAreFinal }
{}

/// The first fault is told no later than it could be: each front of the text that ends before its place can be completed to an
/// expression, unless it ends with the dot behind the last letter that a word may have or, but for spaces, with the sign behind the
/// last term that an expression may have.
///
/// A run of digits that is no letter, or too long a number, has its place at the first of its digits: of a front that ends in such a
/// run nothing is said.
#[tactic(auto, using(crate::proofs::Firsts::faults_are_first))]
pub fn faults_are_first()
    ensures { FaultsAreFirst }
{}

/// A printed combination of at most `TERM_LIMIT` terms over the braid on ranks is an expression with that value, and is read again as itself in
/// the order in which it was printed, over fields with an extension too.
pub fn printed_combinations_are_read_again()
    ensures { PrintedCombinationsAreReadAgain }
{}
