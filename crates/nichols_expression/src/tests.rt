use super::*;
use nichols_braid::{Braid, Entry, Order, Scalars};
use nichols_field::Field;
use nichols_testing::{braid_with_constant, has_terms, word};
use nichols_words::Comb;
use std::alloc::{AllocError, Global};
use std::test::Fail;

/// The braid of three letters with `i ▷ j = j` and the scalar -1, over 101 elements.
fn three_letters(alloc: Global) -> Result<Braid, Fail> {
    braid_with_constant(alloc, 101, &[&[1, 2, 3], &[1, 2, 3], &[1, 2, 3]], -1)
}

/// What is read of a text, where the order has as many letters as the braid.
fn read(
    alloc: Global,
    braid: &Braid,
    order: &Order,
    text: &str,
) -> Result<Result<Comb, ExpressionFault>, Fail> {
    if order.list().len() != usize::from(braid.letters()) {
        return Err("another number of letters".into());
    }
    Ok(read_expression(alloc, braid, order, text))
}

/// A text, then so many times another, then a third.
fn repeated(
    alloc: Global,
    first: &str,
    count: usize,
    middle: &str,
    last: &str,
) -> Result<String, AllocError> {
    let mut text = String::new(alloc);
    text.push_str(first)?;
    for _ in 0..count {
        text.push_str(middle)?;
    }
    text.push_str(last)?;
    Ok(text)
}

/// Expressions with the terms of their values.
const VALUES: [(&str, &[(&str, u32)]); 15] = [
    ("2*1.2 - 1.2", &[("1.2", 1)]),
    (" 0 ", &[]),
    ("102*1", &[("1", 1)]),
    ("e", &[("", 1)]),
    ("-e", &[("", 100)]),
    ("+ 3", &[("3", 1)]),
    ("0*1", &[]),
    ("0*e + 2", &[("2", 1)]),
    ("1.2 - 1.2", &[]),
    ("999999999*3", &[("3", 9)]),
    ("007*3", &[("3", 7)]),
    (" - 1.2 +3.1", &[("1.2", 100), ("3.1", 1)]),
    ("2  *  3.1+3.1", &[("3.1", 3)]),
    (
        "  - 5 * 2.1+e -3*1  +  2*e ",
        &[("", 3), ("1", 98), ("2.1", 96)],
    ),
    ("3.1 - 100*1.2 + 2.2", &[("1.2", 1), ("2.2", 1), ("3.1", 1)]),
];

/// Texts that are no expressions, with the place and the cause of the first fault.
const FAULTS: [(&str, usize, Cause); 31] = [
    ("", 1, Cause::Early),
    ("   ", 4, Cause::Early),
    ("1.", 3, Cause::Early),
    ("1 - ", 5, Cause::Early),
    ("7 *  ", 6, Cause::Early),
    ("+", 2, Cause::Early),
    ("1.4", 3, Cause::Letter),
    ("1 + 4", 5, Cause::Letter),
    ("-0", 2, Cause::Letter),
    ("0 + 1", 1, Cause::Letter),
    ("00", 1, Cause::Letter),
    ("1 + 0", 5, Cause::Letter),
    ("1.01", 3, Cause::Letter),
    ("12345678901", 1, Cause::Letter),
    ("2 + 1234567890 x", 5, Cause::Letter),
    ("1,2", 2, Cause::Byte),
    ("1 .2", 3, Cause::Byte),
    ("1.e", 3, Cause::Byte),
    ("1..2", 3, Cause::Byte),
    ("e*1", 2, Cause::Byte),
    ("2*(1)", 3, Cause::Byte),
    ("2*3*1", 4, Cause::Byte),
    ("1 +- 2", 4, Cause::Byte),
    ("*1", 1, Cause::Byte),
    ("ee", 2, Cause::Byte),
    ("1 é", 3, Cause::Byte),
    ("1\t+ 2", 2, Cause::Byte),
    ("(1,1)*1", 1, Cause::Byte),
    ("1234567890*1", 1, Cause::LongNumber),
    ("e + 0000000001 *4", 5, Cause::LongNumber),
    ("4.x", 1, Cause::Letter),
];

#[test]
fn values(rt: HostRuntime) -> Result<(), Fail> {
    let braid = three_letters(rt.alloc())?;
    for (text, expected) in VALUES {
        let comb = read(rt.alloc(), &braid, &Order::plain(3), text)?.map_err(|_| "a fault")?;
        assert!(rt; has_terms(&comb, expected));
    }
    Ok(())
}

#[test]
fn faults(rt: HostRuntime) -> Result<(), Fail> {
    let braid = three_letters(rt.alloc())?;
    for (text, place, cause) in FAULTS {
        let fault = read(rt.alloc(), &braid, &Order::plain(3), text)?.err();
        assert!(rt; fault == Some(ExpressionFault::At(place, cause)));
    }
    Ok(())
}

#[test]
fn limits(rt: HostRuntime) -> Result<(), Fail> {
    let alloc = rt.alloc();
    let braid = three_letters(alloc)?;
    let order = Order::plain(3);
    let sixty = repeated(alloc, "2*1", 59, ".1", "")?;
    let comb = read(alloc, &braid, &order, &sixty)?.map_err(|_| "60 letters are refused")?;
    assert!(rt; comb.terms().len() == 1 && comb.terms().iter().all(|term| term.word.len() == 60));
    let thousand = repeated(alloc, "1", 999, "+1", " ")?;
    let comb = read(alloc, &braid, &order, &thousand)?.map_err(|_| "1,000 terms are refused")?;
    assert!(rt; has_terms(&comb, &[("1", 91)]));
    let long = [
        (repeated(alloc, "2*1", 60, ".1", "")?, 123, Cause::LongWord),
        (repeated(alloc, "e+1", 59, ".1", ".4")?, 123, Cause::Letter),
        (repeated(alloc, "1", 1000, "+1", "")?, 2001, Cause::Terms),
        (repeated(alloc, "1", 999, "+1", "+ x")?, 2002, Cause::Terms),
        (repeated(alloc, "1", 999, "+1", "+ ")?, 2002, Cause::Early),
        (repeated(alloc, "", 100000, " ", "x")?, 100001, Cause::Byte),
    ];
    for (text, place, cause) in &long {
        let fault = read(alloc, &braid, &order, text)?.err();
        assert!(rt; fault == Some(ExpressionFault::At(*place, *cause)));
    }
    Ok(())
}

/// Expressions over two letters and the field of four elements by t² = t + 1, with the terms of their values; (u, v) is u + 2 v.
const PAIRS: [(&str, &[(&str, u32)]); 7] = [
    ("(0,1)*2.1", &[("2.1", 2)]),
    ("(1,1)*1 + (0,1)*1", &[("1", 1)]),
    (" - ( 3 , 5 ) * e", &[("", 3)]),
    ("(0,0)*1", &[]),
    ("(4,000000003)*1.2 - 2", &[("2", 1), ("1.2", 2)]),
    ("3*1", &[("1", 1)]),
    ("0", &[]),
];

/// Texts that are none of them, with the place and the cause of the first fault.
const PAIR_FAULTS: [(&str, usize, Cause); 16] = [
    ("(1,1*1", 5, Cause::Byte),
    ("(", 2, Cause::Early),
    ("( ", 3, Cause::Early),
    ("(1", 3, Cause::Early),
    ("(1, ", 5, Cause::Early),
    ("(1,1", 5, Cause::Early),
    ("(1,1) ", 7, Cause::Early),
    ("(1,1)*", 7, Cause::Early),
    ("(1,1) 2", 7, Cause::Byte),
    ("(x,1)*1", 2, Cause::Byte),
    ("(1;1)*1", 3, Cause::Byte),
    ("(1,-1)*1", 4, Cause::Byte),
    ("(1234567890,x", 2, Cause::LongNumber),
    ("e + (1, 0000000001", 9, Cause::LongNumber),
    ("(1,1)*(1,1)*1", 7, Cause::Byte),
    ("(1,1)*3", 7, Cause::Letter),
];

#[test]
fn pairs(rt: HostRuntime) -> Result<(), Fail> {
    let alloc = rt.alloc();
    let field = Field::extended(2, 1, 1).map_err(|_| "no field")?;
    let mut rack = Vec::new(alloc);
    for _ in 0..2 {
        rack.push([1_i64, 2].to_vec(alloc)?)?;
    }
    let scalars = Scalars::Constant(Entry::Whole(1));
    let braid = Braid::new(alloc, field, rack.as_slice(), &scalars).map_err(|_| "no braid")?;
    let order = Order::plain(2);
    for (text, expected) in PAIRS {
        let comb = read(alloc, &braid, &order, text)?.map_err(|_| "a fault")?;
        assert!(rt; has_terms(&comb, expected));
    }
    for (text, place, cause) in PAIR_FAULTS {
        let fault = read(alloc, &braid, &order, text)?.err();
        assert!(rt; fault == Some(ExpressionFault::At(place, cause)));
    }
    Ok(())
}

/// Letters 3, 1, 2 have the ranks 1, 2, 3.
#[test]
fn ranks(rt: HostRuntime) -> Result<(), Fail> {
    let braid = three_letters(rt.alloc())?;
    let order = Order::new(3, &[3, 1, 2]).map_err(|_| "no order")?;
    let comb = read(rt.alloc(), &braid, &order, "1.2 - 2*3.3.1")?.map_err(|_| "a fault")?;
    assert!(rt; has_terms(&comb, &[("2.3", 1), ("1.1.2", 99)]));
    Ok(())
}
