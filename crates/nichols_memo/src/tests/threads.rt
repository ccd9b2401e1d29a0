//! Seats on threads of their own.

ghost use Rattle.std.specs.Prelude.{◌≡◌, IfOk};
ghost use Rattle.nichols_memo.specs.Forms.{form_of};
ghost use Rattle.nichols_memo.specs.Seats.{IsOf, braid_of};

use crate::tests::form_of_least;
use crate::{Entry, Memo, MemoSeat, Memoized};
use nichols_braid::Braid;
use nichols_testing::{three_transpositions, word};
use std::alloc::{AllocError, Global};
use std::test::Fail;
use std::thread;

/// A seat, and whether its looks and its number of hits were as they should be.
#[derive(Drop)]
struct Hand {
    seat: MemoSeat,
    fits: bool,
}

/// Whether the memo tells the entry's own form of its word; nothing where it misses.
fn told(
    alloc: Global,
    memo: &Memo,
    seat: &mut MemoSeat,
    entry: &Entry,
) -> Result<Option<bool>, AllocError>
    requires seat { IsOf memo.now seat.old }
    ensures { IsOf memo.now seat.new }
{
    match memo.look(alloc, seat, &entry.word)? {
        Memoized::Hit(form) => Ok(Some(form.terms() == entry.form.terms())),
        Memoized::Miss => Ok(None),
    }
}

/// Keeps the first entry and looks for both, again and again. The answer is false where a look told another form, or the seat's
/// number of hits isn't that of the looks that told one.
fn play(
    alloc: Global,
    memo: &Memo,
    seat: &mut MemoSeat,
    entry: &Entry,
    other: &Entry,
) -> Result<bool, AllocError>
    requires seat { IsOf memo.now seat.old }
    requires form { entry.now.form ≡ form_of (braid_of memo.now) entry.now.word }
{
    let mut hits = 0u64;
    for _turn in 0..500 {
        memo.keep(seat, entry.word, entry.form.copy(alloc)?);
        for wanted in [entry, other] {
            match told(alloc, memo, seat, wanted)? {
                Some(true) => hits = hits.saturating_add(1),
                Some(false) => return Ok(false),
                None => {}
            }
        }
    }
    Ok(memo.hits(seat) == hits)
}

fn play_as(alloc: Global, memo: &Memo, hand: &mut Hand, one: &Entry, other: &Entry, turned: bool)
    requires seat { IsOf memo.now hand.old.seat }
    requires one { one.now.form ≡ form_of (braid_of memo.now) one.now.word }
    requires other { other.now.form ≡ form_of (braid_of memo.now) other.now.word }
{
    let (first, second) = if turned { (other, one) } else { (one, other) };
    hand.fits = matches!(play(alloc, memo, &mut hand.seat, first, second), Ok(true));
}

fn entry_of(alloc: Global, braid: &Braid, text: &str) -> Result<Entry, Fail>
    ensures { IfOk result (λ e. e.form ≡ form_of braid.now e.word) }
{
    let word = word(text);
    let form = form_of_least(alloc, braid, &word)?;
    Ok(Entry { word, form })
}

/// Two seats on threads of their own keep two words in the one slot.
#[test]
fn seats_on_threads(rt: HostRuntime) -> Result<(), Fail> {
    let alloc = rt.alloc();
    let braid = three_transpositions(alloc)?;
    let one = entry_of(alloc, &braid, "1.2")?;
    let other = entry_of(alloc, &braid, "1.3")?;
    let (memo, mut seat) = Memo::start(alloc, &braid, 1)?;
    let left = memo.split(alloc, &mut seat)?;
    let right = memo.split(alloc, &mut seat)?;
    let mut hands = Vec::new(alloc);
    hands.push(Hand {
        seat: left,
        fits: false,
    })?;
    hands.push(Hand {
        seat: right,
        fits: false,
    })?;
    thread::for_each_mut(
        &rt,
        hands.as_mut_slice(),
        2,
        &|k, hand| { play_as(alloc, &memo, hand, &one, &other, k == 0) },
    );
    assert!(rt; hands.iter().all(|hand| hand.fits));
    Ok(())
}
