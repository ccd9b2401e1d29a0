//! At which words the memo is asked.

/// At so many words in a row the memo isn't asked, at most.
const LONGEST_PAUSE: usize = 31;

/// The memo is asked at each word while it knows what it is asked for. After a word of which it knows nothing it isn't asked at the
/// next one, after one more not at the next three, then seven and so on up to [`LONGEST_PAUSE`]: so words that share nothing cost
/// little.
#[derive(Drop)]
pub(crate) struct Pace {
    /// At so many words in a row it isn't asked next.
    left: usize,
    /// At so many it wasn't asked the last time.
    pause: usize,
}

impl Pace {
    /// It is asked at the first word.
    pub(crate) fn new() -> Pace {
        Pace { left: 0, pause: 0 }
    }

    /// Whether the memo is asked at the next word.
    pub(crate) fn is_due(&mut self) -> bool {
        let due = self.left == 0;
        self.left = self.left.saturating_sub(1);
        due
    }

    /// After a word at which the memo was asked: whether it knew something.
    pub(crate) fn note(&mut self, known: bool) {
        self.pause = if known {
            0
        } else {
            usize::min(
                self.pause.saturating_mul(2).saturating_add(1),
                LONGEST_PAUSE,
            )
        };
        self.left = self.pause;
    }
}
