ghost use Rattle.nichols_field.specs.Field.{IsElement};

use super::*;
use nichols_braid::{Braid, BraidFault, Order, Shown};
use nichols_field::{Field, FieldFault};
use nichols_input::{Cause, InputFault, Key, KeyText};
use nichols_testing::{braid_with_constant, word};
use nichols_words::{Comb, Relation, Term, Word};
use std::alloc::{AllocError, Global};
use std::test::Fail;

/// `100*1.2 + 2*2.3`.
fn form(alloc: Global, field: Field) -> Result<Comb, AllocError> {
    let mut terms = [
        Term {
            word: word("1.2"),
            coefficient: field.from_i64(-1),
        },
        Term {
            word: word("2.3"),
            coefficient: field.from_i64(2),
        },
    ];
    Comb::sum_of(alloc, field, &mut terms)
}

/// A form over nine elements with t² = t + 1: `2*1.2 + (0,1)*2.3`.
fn form_over_nine(alloc: Global, field: Field) -> Result<Comb, AllocError> {
    let mut terms = [
        Term {
            word: word("1.2"),
            coefficient: field.from_i64(-1),
        },
        Term {
            word: word("2.3"),
            coefficient: element(field, 0, 1),
        },
    ];
    Comb::sum_of(alloc, field, &mut terms)
}

/// The element u + v t, or 0 where the field has none.
fn element(field: Field, u: i64, v: i64) -> u32
    ensures { IsElement field result }
{
    if field.is_extended() {
        field.joined(u, v)
    } else {
        field.from_i64(0)
    }
}

#[test]
fn degrees(rt: HostRuntime) -> Result<(), Fail> {
    let alloc = rt.alloc();
    let field = Field::new(101).map_err(|_| "no field")?;
    let plain = Order::plain(24);
    let basis = [Word::empty(), word("24.1")];
    let mut relations = Vec::new(alloc);
    relations.push(Relation {
        candidate: word("3.1"),
        form: form(alloc, field)?,
    })?;
    relations.push(Relation {
        candidate: word("3.3"),
        form: Comb::zero(alloc),
    })?;
    let whole = degree_text(alloc, field, &plain, 2, &basis, relations.as_slice(), false)?;
    assert!(rt;
        whole.as_slice()
            == b"degree 2 dimension 2\nbasis e 24.1\nrelation 3.1 = 100*1.2 + 2*2.3\nrelation 3.3 = 0\n".as_slice()
    );
    let brief = degree_text(alloc, field, &plain, 2, &basis, relations.as_slice(), true)?;
    assert!(rt; brief.as_slice() == b"degree 2 dimension 2\n".as_slice());
    let empty = degree_text(alloc, field, &plain, 60, &[], &[], false)?;
    assert!(rt; empty.as_slice() == b"degree 60 dimension 0\nbasis\n".as_slice());
    Ok(())
}

/// Ranks are printed as the letters that have them, and elements by their two numbers.
#[test]
fn degrees_in_an_order(rt: HostRuntime) -> Result<(), Fail> {
    let alloc = rt.alloc();
    let field = Field::extended(3, 1, 1).map_err(|_| "no field")?;
    let order = Order::new(3, &[3, 1, 2]).map_err(|_| "no order")?;
    let basis = [word("1.2"), word("2.3")];
    let mut relations = Vec::new(alloc);
    relations.push(Relation {
        candidate: word("3.1"),
        form: form_over_nine(alloc, field)?,
    })?;
    let text = degree_text(alloc, field, &order, 2, &basis, relations.as_slice(), false)?;
    assert!(rt;
        text.as_slice()
            == b"degree 2 dimension 2\nbasis 3.1 1.2\nrelation 2.3 = 2*3.1 + (0,1)*1.2\n".as_slice()
    );
    Ok(())
}

#[test]
fn headers(rt: HostRuntime) -> Result<(), Fail> {
    let alloc = rt.alloc();
    let braid = braid_with_constant(alloc, 65521, &[&[1]], -1)?;
    let plain = Order::plain(1);
    if u32::from(braid.letters()) != 1 {
        return Ok(assert!(rt; false));
    }
    let header = header_text(alloc, &braid, &plain, 12, 1024)?;
    assert!(rt; header.as_slice() == b"nichols p 65521 letters 1 degree 12 rows 1024\n".as_slice());
    let symmetrize = symmetrize_header(alloc, &braid, &plain)?;
    assert!(rt; symmetrize.as_slice() == b"nichols symmetrize p 65521 letters 1\n".as_slice());
    Ok(())
}

#[test]
fn ends(rt: HostRuntime) -> Result<(), Fail> {
    let closed = EndLine::Closed {
        top: 4,
        dimension: 12,
    };
    let rows = EndLine::Rows {
        degree: 1,
        product: 1,
        count: 2,
    };
    let ends: [(EndLine, &[u64], Option<&[u32]>, &str); 8] = [
        (
            closed,
            &[1, 3, 4, 3, 1, 0],
            Some(&[3, 2, 2]),
            "closed top 4 dimension 12\nhilbert 1 3 4 3 1 0\nfactors 3 2 2\n",
        ),
        (
            closed,
            &[1, 3, 4, 3, 1, 0],
            None,
            "closed top 4 dimension 12\nhilbert 1 3 4 3 1 0\nfactors none\n",
        ),
        (
            EndLine::Closed {
                top: 0,
                dimension: 1,
            },
            &[1, 0],
            Some(&[]),
            "closed top 0 dimension 1\nhilbert 1 0\nfactors\n",
        ),
        (
            EndLine::DegreeLimit { last: 0 },
            &[1],
            None,
            "stopped degree limit last 0\nhilbert 1\n",
        ),
        (
            EndLine::DegreeLimit { last: 1 },
            &[1, 3],
            Some(&[2]),
            "stopped degree limit last 1\nhilbert 1 3\n",
        ),
        (
            EndLine::Wide { degree: 4 },
            &[1, 24, 284, 2208],
            None,
            "stopped wide degree 4 last 3\nhilbert 1 24 284 2208\n",
        ),
        (
            rows,
            &[1],
            None,
            "stopped rows degree 1 product 1 count 2 last 0\nhilbert 1\n",
        ),
        (
            EndLine::Rows {
                degree: 60,
                product: 5040,
                count: 18446744073709551615,
            },
            &[],
            None,
            "stopped rows degree 60 product 5040 count 18446744073709551615 last 59\nhilbert\n",
        ),
    ];
    for (line, dimensions, factors, expected) in ends {
        let text = end_text(rt.alloc(), &line, dimensions, factors)?;
        assert_eq!(rt; text.as_slice(), expected.as_bytes());
    }
    Ok(())
}

#[test]
fn expressions(rt: HostRuntime) -> Result<(), Fail> {
    let alloc = rt.alloc();
    let field = Field::new(101).map_err(|_| "no field")?;
    let comb = form(alloc, field)?;
    let plain = Order::plain(3);
    let image = image_text(alloc, field, &plain, 12, &comb)?;
    assert!(rt; image.as_slice() == b"image 12 = 100*1.2 + 2*2.3\n".as_slice());
    let zero = image_text(alloc, field, &plain, 1, &Comb::zero(alloc))?;
    assert!(rt; zero.as_slice() == b"image 1 = 0\n".as_slice());
    let order = Order::new(3, &[3, 2, 1]).map_err(|_| "no order")?;
    let normal = form_text(alloc, field, &order, 1000, &comb)?;
    assert!(rt; normal.as_slice() == b"form 1000 = 100*3.2 + 2*2.1\n".as_slice());
    let beyond = beyond_text(alloc, 2, 60)?;
    assert!(rt; beyond.as_slice() == b"form 2 beyond 60\n".as_slice());
    Ok(())
}

/// The faults of rows and scalars with their lines.
const TABLES: [(BraidFault, &str); 8] = [
    (
        BraidFault::Letters(25),
        "refused: 25 letters outside 1 to 24\n",
    ),
    (
        BraidFault::RackShape(2),
        "refused: rack row 2 has a wrong length\n",
    ),
    (
        BraidFault::RackEntry(1, 24, -3),
        "refused: rack entry 1 24 is -3\n",
    ),
    (
        BraidFault::NotBijective(3, 1, 2, 9),
        "refused: rack row 3 has 9 at places 1 and 2\n",
    ),
    (
        BraidFault::NotDistributive(2, 1, 24, 10, 9),
        "refused: not distributive at 2 1 24: 10 and 9\n",
    ),
    (
        BraidFault::CocycleShape(4),
        "refused: cocycle row 4 is missing, surplus or of a wrong length\n",
    ),
    (
        BraidFault::CocycleZero(1, 2),
        "refused: cocycle entry 1 2 is zero\n",
    ),
    (
        BraidFault::NotCocycle(
            1,
            3,
            1,
            Shown { low: 2, high: 0 },
            Shown {
                low: 0,
                high: 65520,
            },
        ),
        "refused: not a cocycle at 1 3 1: 2 and (0,65520)\n",
    ),
];

/// The causes of faulty expressions with their lines, each at place 17 of expression 9.
const CAUSES: [(Cause, &str); 7] = [
    (
        Cause::Early,
        "refused: expression 9 at byte 17: text ends too early\n",
    ),
    (
        Cause::Byte,
        "refused: expression 9 at byte 17: unexpected byte\n",
    ),
    (
        Cause::Letter,
        "refused: expression 9 at byte 17: letter outside the rack\n",
    ),
    (
        Cause::LongNumber,
        "refused: expression 9 at byte 17: number longer than 9 digits\n",
    ),
    (
        Cause::LongWord,
        "refused: expression 9 at byte 17: word longer than 60 letters\n",
    ),
    (
        Cause::Terms,
        "refused: expression 9 at byte 17: more than 1000 terms\n",
    ),
    (
        Cause::Surplus,
        "refused: expression 9 at byte 17: more than 1000 expressions\n",
    ),
];

/// Keys that no document has, and what is printed of them.
const UNKNOWN: [(&str, &str); 5] = [
    ("colour", "colour"),
    ("", ""),
    ("a b~!\t\u{7F}", "a?b~!??"),
    ("\u{e9}", "??"),
    (
        "123456789012345678901234567890123456789012345678901234567890x",
        "123456789012345678901234567890123456789012345678901234567890",
    ),
];

/// Whether a refusal has this line.
fn has_line(alloc: Global, refusal: &Refusal, line: &str) -> Result<bool, AllocError> {
    let text = refusal_text(alloc, refusal)?;
    Ok(text.as_slice() == line.as_bytes())
}

#[test]
fn refusals_of_documents(rt: HostRuntime) -> Result<(), Fail> {
    let alloc = rt.alloc();
    let cases = [
        (
            Refusal::TooLong,
            "refused: document longer than 1048576 bytes\n",
        ),
        (Refusal::Input(InputFault::NotToml), "refused: not TOML\n"),
        (
            Refusal::Input(InputFault::MissingKey(Key::Cocycle)),
            "refused: missing key cocycle\n",
        ),
        (
            Refusal::Input(InputFault::WrongKind(Key::Expressions)),
            "refused: wrong kind at key expressions\n",
        ),
        (
            Refusal::Input(InputFault::Modulus(FieldFault::OutsideList(-7))),
            "refused: modulus -7 not in the list\n",
        ),
        (
            Refusal::Input(InputFault::Modulus(FieldFault::Root(65520))),
            "refused: extension has root 65520\n",
        ),
        (
            Refusal::Input(InputFault::Order(25)),
            "refused: order wrong at place 25\n",
        ),
        (
            Refusal::Input(InputFault::WrongKind(Key::Extension)),
            "refused: wrong kind at key extension\n",
        ),
        (
            Refusal::Input(InputFault::WrongKind(Key::Order)),
            "refused: wrong kind at key order\n",
        ),
        (
            Refusal::LongExpression(3),
            "refused: expression 3 longer than 7 letters\n",
        ),
    ];
    for (refusal, line) in &cases {
        assert!(rt; has_line(alloc, refusal, line)?, "{line}");
    }
    Ok(())
}

#[test]
fn refusals_of_tables_and_texts(rt: HostRuntime) -> Result<(), Fail> {
    let alloc = rt.alloc();
    for (fault, line) in TABLES {
        let refusal = Refusal::Input(InputFault::Braid(fault));
        assert!(rt; has_line(alloc, &refusal, line)?, "{line}");
    }
    for (cause, line) in CAUSES {
        let refusal = Refusal::Input(InputFault::Expression(9, 17, cause));
        assert!(rt; has_line(alloc, &refusal, line)?, "{line}");
    }
    for (key, shown) in UNKNOWN {
        let refusal = Refusal::Input(InputFault::UnknownKey(KeyText::new(alloc, key)?));
        let line = format!(in alloc; "refused: unknown key {shown}\n")?;
        assert!(rt; has_line(alloc, &refusal, line.as_str())?, "{key}");
    }
    Ok(())
}

#[test]
fn single_lines(rt: HostRuntime) {
    assert!(rt; memory_line(None).bytes() == b"memory last none\n".as_slice());
    assert!(rt; memory_line(Some(60)).bytes() == b"memory last 60\n".as_slice());
    assert!(rt; read_fault_line() == b"read fault\n".as_slice());
    assert!(rt;
        usage_line()
            == b"usage: nichols algebra or reduce or symmetrize or points K or product or table or cover [--degree N] [--rows N] [--workers N] [--window N] [--brief]\n".as_slice()
    );
}
