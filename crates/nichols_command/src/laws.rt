//! Laws of command lines.

ghost use Rattle.nichols_command.specs.DecimalForm.{NumbersAreDecimal, OptionsAreDecimal};
ghost use Rattle.nichols_command.specs.PlainForm.{PlainLinesAreTaken, PlainLinesAreCommands};

/// A command line of the plain form is taken, with its values as they are written: the command's word, for some the word
/// behind it, and then options, each at most once, in any order, with their values as the next word or joined by `=`.
pub fn plain_lines_are_taken()
    ensures { PlainLinesAreTaken }
{}

/// So the command that a line of the plain form is depends on its values alone, and not on their order and form.
pub fn plain_lines_are_commands()
    ensures { PlainLinesAreCommands }
{}

/// A text has a number exactly where it is the decimal text of that number, with zeros in front or none, and has no more digits
/// than a number may have. So a text has one number at most, and no sign, blank or other byte stands in it.
pub fn numbers_are_decimal()
    ensures { NumbersAreDecimal }
{}

/// An option that is there has a number exactly where its text is that number's so, and the number is in the option's range.
pub fn options_are_decimal()
    ensures { OptionsAreDecimal }
{}
