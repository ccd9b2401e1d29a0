//! The degrees of some algebras by the plain program.

use nichols_braid::Braid;
use nichols_crew::OpenGate;
use nichols_graded::Graded;
use nichols_lift::PLACE_LIMIT;
use nichols_plain::plain_degree;
use nichols_testing::{
    one_letter, tetrahedron, three_transpositions, twisted_transpositions, two_letters,
};
use nichols_words::Relation;
use std::alloc::Global;
use std::test::Fail;
use std::thread::Threads;

fn are_same(left: &[Relation], right: &[Relation]) -> bool {
    left.len() == right.len()
        && left.iter().zip(right).all(|(one, other)| {
            one.candidate == other.candidate && one.form.terms() == other.form.terms()
        })
}

/// Whether a finished degree has the basis and the relations that the plain program gives.
fn is_plain(alloc: Global, graded: &Graded, m: u32) -> Result<bool, Fail> {
    let braid = graded.levels().braid();
    if m > PLACE_LIMIT as u32
        || m > graded.levels().last()
        || u32::from(braid.letters()).checked_pow(m).is_none()
    {
        return Err("not within the limits".into());
    }
    let plain = plain_degree(alloc, braid, m)?;
    let basis = graded.basis(alloc, m)?;
    let relations = graded.relations(alloc, m)?;
    Ok(
        basis.as_slice() == plain.basis.as_slice()
            && are_same(relations.as_slice(), plain.relations.as_slice()),
    )
}

/// Whether so many degrees, from 0 on, are those of the plain program.
fn are_plain<R: Threads + Sync>(
    rt: &R,
    alloc: Global,
    braid: Braid,
    degrees: u32,
) -> Result<bool, Fail> {
    let mut gate = OpenGate::new();
    let mut graded = Graded::start(alloc, braid, 12, 1024, 1)?;
    for m in 0..degrees {
        if m > 0 {
            if graded.ended() {
                return Err("ended early".into());
            }
            graded.advance(rt, alloc, 3, &mut gate)?;
        }
        if !is_plain(alloc, &graded, m)? {
            return Ok(false);
        }
    }
    Ok(true)
}

#[test]
fn degrees_of_the_plain_program(rt: HostRuntime) -> Result<(), Fail> {
    let alloc = rt.alloc();
    let rows = [
        (one_letter(alloc)?, 4),
        (three_transpositions(alloc)?, 5),
        (tetrahedron(alloc)?, 4),
        (two_letters(alloc)?, 6),
        (twisted_transpositions(alloc)?, 5),
    ];
    for (braid, degrees) in rows {
        let letters = braid.letters();
        assert!(rt;
            are_plain(&rt, alloc, braid, degrees)?,
            "{degrees} degrees of {letters} letters"
        );
    }
    Ok(())
}
