//! Laws of certificates, for every braid and every degree.

ghost use Rattle.nichols_check.specs.Laws.{CertifiedDegreesAreRight, DerivedFormsTellZero, PassingTablesAreRight, RightTablesAreUnrefused, UnrefusedTablesPass};

/// A combination is zero in the algebra exactly where the same combination of the derivatives of its words is zero, for each letter.
pub fn derived_forms_tell_zero()
    ensures { DerivedFormsTellZero }
{}

/// A table that passes has the least words and the relations of its degree.
pub fn passing_tables_are_right()
    ensures { PassingTablesAreRight }
{}

/// A table that nothing refuses passes.
pub fn unrefused_tables_pass()
    ensures { UnrefusedTablesPass }
{}

/// What a certificate certifies is right: each degree has the least words and the relations that the quantum symmetrizer gives.
pub fn certified_degrees_are_right()
    ensures { CertifiedDegreesAreRight }
{}

/// The right table of a degree isn't refused where its arrays are tests.
pub fn right_tables_are_unrefused()
    ensures { RightTablesAreUnrefused }
{}
