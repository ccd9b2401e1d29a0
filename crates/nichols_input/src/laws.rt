//! What holds of documents, whatever their bytes.

ghost use Rattle.nichols_input.specs.Laws.{DocumentIsDue, DocumentWithKeyIsDue};

/// Each document has exactly one answer: it is read with the braid and the values that stand in it, or refused for the first
/// cause, in the order of `InputFault`, that holds of it. The unknown key that is named is the least by its bytes.
#[tactic(auto, using(crate::proofs::DueLaws::document_is_due))]
pub fn document_is_due()
    ensures { DocumentIsDue }
{}

/// With a further key each document has exactly one answer, too, in the same order; the key is never named as unknown.
#[tactic(auto, using(crate::proofs::DueLaws::document_with_key_is_due))]
pub fn document_with_key_is_due()
    ensures { DocumentWithKeyIsDue }
{}
