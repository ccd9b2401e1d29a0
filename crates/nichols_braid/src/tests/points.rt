use crate::{Braid, POINTS_LEAST, POINTS_MOST};
use std::alloc::{AllocError, Global};
use std::test::Fail;

/// The letters `i ▷ j`, row by row.
fn table(alloc: Global, braid: &Braid) -> Result<Vec<u8>, AllocError> {
    let letters = braid.letters();
    let mut out = Vec::new(alloc);
    for i in 0..letters {
        for j in 0..letters {
            out.push(braid.act(i + 1, j + 1))?;
        }
    }
    Ok(out)
}

const OF_THREE: [u8; 9] = [1, 3, 2, 3, 2, 1, 2, 1, 3];

const OF_FOUR: [u8; 36] = [
    1, 4, 5, 2, 3, 6, 4, 2, 6, 1, 5, 3, 5, 6, 3, 4, 1, 2, 2, 1, 3, 4, 6, 5, 3, 2, 1, 6, 5, 4, 1, 3,
    2, 5, 4, 6,
];

#[test]
fn conjugates_of_few_transpositions(rt: HostRuntime) -> Result<(), Fail> {
    let alloc = rt.alloc();
    let tables: [(u32, &[u8]); 2] = [(3, &OF_THREE), (4, &OF_FOUR)];
    for (k, want) in tables {
        let braid = Braid::points(alloc, k)?;
        assert_eq!(rt; table(alloc, &braid)?.as_slice(), want, "of {k} points");
    }
    Ok(())
}

#[test]
fn letters_of_points(rt: HostRuntime) -> Result<(), Fail> {
    let alloc = rt.alloc();
    let counts: [(u32, u8); 5] = [
        (POINTS_LEAST, 3),
        (4, 6),
        (5, 10),
        (6, 15),
        (POINTS_MOST, 21),
    ];
    for (k, want) in counts {
        let braid = Braid::points(alloc, k)?;
        assert_eq!(rt; braid.letters(), want, "of {k} points");
        assert_eq!(rt; braid.field().modulus(), 101);
        assert_eq!(rt; braid.scalar(1, braid.letters()), 100);
    }
    Ok(())
}

/// The letter `i ▷ j`, or 0 where i or j is no letter.
fn act_at(braid: &Braid, i: u8, j: u8) -> u8 {
    let letters = braid.letters();
    if 1 <= i && i <= letters && 1 <= j && j <= letters {
        braid.act(i, j)
    } else {
        0
    }
}

/// The letters (12), (13), (17), (23), (27), (67) of seven points are 1, 2, 6, 7, 11 and 21.
#[test]
fn conjugates_of_many_transpositions(rt: HostRuntime) -> Result<(), Fail> {
    let braid = Braid::points(rt.alloc(), 7)?;
    let acts: [(u8, u8, u8); 10] = [
        (1, 2, 7),
        (1, 7, 2),
        (6, 7, 7),
        (7, 6, 6),
        (21, 11, 10),
        (11, 21, 10),
        (20, 2, 2),
        (8, 15, 15),
        (15, 8, 8),
        (21, 1, 1),
    ];
    for (i, j, want) in acts {
        assert_eq!(rt; act_at(&braid, i, j), want, "{i} on {j}");
    }
    Ok(())
}
