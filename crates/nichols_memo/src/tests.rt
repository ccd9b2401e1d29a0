mod threads;

ghost use Rattle.std.specs.Prelude.{◌≡◌, IfOk};
ghost use Rattle.nichols_memo.specs.Forms.{form_of};
ghost use Rattle.nichols_memo.specs.Seats.{IsOf, braid_of};

use crate::hash::slot_of;
use crate::{MOST_SLOTS, Memo, MemoSeat, Memoized, SLOTS_DEFAULT};
use nichols_braid::Braid;
use nichols_plain::plain_degree;
use nichols_testing::{has_terms, three_transpositions, word};
use nichols_words::{Comb, Term, Word};
use std::alloc::Global;
use std::test::Fail;

/// The normal form of a least word of two letters, which is the word itself.
fn form_of_least(alloc: Global, braid: &Braid, word: &Word) -> Result<Comb, Fail>
    ensures { IfOk result (λ f. f ≡ form_of braid.now word.now) }
{
    let _field = braid.field();
    if braid.letters() != 3 || word.len() != 2 {
        return Err("not two of three letters".into());
    }
    let degree = plain_degree(alloc, braid, 2)?;
    if !degree.basis.as_slice().contains(word) {
        return Err("no least word".into());
    }
    let mut form = Comb::zero(alloc);
    form.push(Term {
        word: *word,
        coefficient: 1,
    })?;
    Ok(form)
}

#[derive(Clone, Copy)]
enum Call {
    Keep,
    Look,
}

/// Whether a word was kept, or found with its own form. It is a least word of two letters.
fn answer(
    alloc: Global,
    braid: &Braid,
    memo: &Memo,
    seat: &mut MemoSeat,
    call: Call,
    text: &str,
) -> Result<bool, Fail>
    requires braid { braid_of memo.now ≡ braid.now }
    requires seat { IsOf memo.now seat.old }
    ensures { IsOf memo.now seat.new }
{
    let word = word(text);
    match call {
        Call::Keep => {
            let form = form_of_least(alloc, braid, &word)?;
            Ok(memo.keep(seat, word, form))
        }
        Call::Look => match memo.look(alloc, seat, &word)? {
            Memoized::Hit(form) => Ok(has_terms(&form, &[(text, 1)])),
            Memoized::Miss => Ok(false),
        },
    }
}

/// Whether each call in turn has the answer that stands beside it.
fn has_answers(
    alloc: Global,
    braid: &Braid,
    memo: &Memo,
    seat: &mut MemoSeat,
    rows: &[(Call, &str, bool)],
) -> Result<bool, Fail>
    requires braid { braid_of memo.now ≡ braid.now }
    requires seat { IsOf memo.now seat.old }
    ensures { IfOk result (λ _. IsOf memo.now seat.new) }
{
    for (call, text, wanted) in rows {
        if answer(alloc, braid, memo, seat, *call, text)? != *wanted {
            return Ok(false);
        }
    }
    Ok(true)
}

#[test]
fn one_slot(rt: HostRuntime) -> Result<(), Fail> {
    let alloc = rt.alloc();
    let braid = three_transpositions(alloc)?;
    let (memo, mut seat) = Memo::start(alloc, &braid, 1)?;
    let rows = [
        (Call::Look, "1.2", false),
        (Call::Keep, "1.2", true),
        (Call::Look, "1.2", true),
        (Call::Look, "1.3", false),
        (Call::Look, "1.2", true),
        (Call::Keep, "1.3", true),
        (Call::Look, "1.2", false),
        (Call::Look, "1.3", true),
    ];
    assert!(rt; has_answers(alloc, &braid, &memo, &mut seat, &rows)?);
    assert_eq!(rt; memo.hits(&seat), 3);
    let mut other = memo.split(alloc, &mut seat)?;
    assert!(rt; answer(alloc, &braid, &memo, &mut other, Call::Look, "1.3")?);
    assert_eq!(rt; memo.hits(&other), 1);
    memo.join(&mut seat, other);
    assert_eq!(rt; memo.hits(&seat), 3);
    Ok(())
}

/// Each letter once: a word whose number is taken modulo 2^32 many times.
const LONG: &str = "1.2.3.4.5.6.7.8.9.10.11.12.13.14.15.16.17.18.19.20.21.22.23.24";

#[test]
fn slots_of_words(rt: HostRuntime) -> Result<(), Fail> {
    let alloc = rt.alloc();
    assert_eq!(rt; MOST_SLOTS, 65_536);
    assert_eq!(rt; SLOTS_DEFAULT, 4_096);
    let braid = three_transpositions(alloc)?;
    let _least = Memo::start(alloc, &braid, 1)?;
    let _most = Memo::start(alloc, &braid, MOST_SLOTS)?;
    let rows = [
        ("", 0, 0),
        ("24", 3, 24),
        ("1.2", 5, 33),
        ("3.1.2", 4, 2_916),
        (LONG, 6, 2_444),
    ];
    for (text, of_seven, of_all) in rows {
        assert_eq!(rt; slot_of(7, &word(text)), of_seven, "the slot of {text}");
        assert_eq!(rt;
            slot_of(SLOTS_DEFAULT, &word(text)),
            of_all,
            "the slot of {text}"
        );
    }
    Ok(())
}

fn may_be_shared<T: Send + Sync + Drop>(_value: T) {}

fn may_be_sent<T: Send + Drop>(_value: T) {}

#[test]
fn memos_are_shared_and_seats_are_sent(rt: HostRuntime) -> Result<(), Fail> {
    let braid = three_transpositions(rt.alloc())?;
    let (memo, seat) = Memo::start(rt.alloc(), &braid, 1)?;
    assert_eq!(rt; memo.hits(&seat), 0);
    may_be_shared(memo);
    may_be_sent(seat);
    may_be_sent(Memoized::Miss);
    Ok(())
}
