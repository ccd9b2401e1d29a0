//! What a rule says of a word.

ghost use Rattle.nichols_value.specs.Looked.{IsFormBelow, IsLooked};

use crate::form::{Form, Looked};
use crate::rule::BlockRule;
use crate::words::place_of;
use nichols_words::Word;

impl BlockRule {
    /// The normal form of a word `u b`, where u is in the lower block by b.
    fn form_below(&self, word: &Word) -> Option<Form<'_>>
        ensures { IsFormBelow self.now word.now result }
    {
        let front = word.len().checked_sub(1)?;
        let last = word.letter(front);
        if last > self.letters() {
            return None;
        }
        let place = place_of(self.below(last), &word.prefix(front))?;
        Some(Form::of(self.basis(), self.right_row(last, place)))
    }

    /// What the rule says of a word: a search by the word order, which takes no memory.
    ///
    /// It is in the basis, or it isn't and is the candidate of a relation, with the relation's form, or neither.
    pub fn look(&self, word: &Word) -> Looked<'_>
        ensures { IsLooked self.now word.now result }
    {
        let _block = &self.key;
        if place_of(self.basis(), word).is_some() {
            return Looked::Basis;
        }
        match self.form_below(word) {
            Some(form) => Looked::Form(form),
            None => Looked::NotHere,
        }
    }
}
