//! Lines that take no memory.

ghost use Rattle.std.specs.Prelude.{◌≡◌, ◌+◌, ◌≤◌, ◌++◌, length};
ghost use Rattle.nichols_text.specs.Lines.{usage_text, read_fault_text, memory_text};

use itoa::Buffer;
use std::marker::Model;

/// The most bytes of a line that is kept inline.
const ROOM: usize = 32;

/// A short line, kept inline.
#[derive(Drop)]
pub struct Line {
    len: usize,
    bytes: [u8; ROOM],
}

impl Model for Line {
    ghost use Rattle.std.specs.Prelude.{◌≡◌, ◌≤◌, ℕ, List, length, take};
    ghost use Rattle.nichols_text.specs.declared.line.TheConstants.{ROOM};

    ghost Value = { List ℕ };

    ghost view = { λ l. take l.len l.bytes };

    ghost invariant = { λ l. l.len ≤ ROOM };
}

impl Line {
    /// The empty line.
    fn empty() -> Line
        ensures { length result ≡ 0 }
    {
        Line {
            len: 0,
            bytes: [0; ROOM],
        }
    }

    /// Puts a text behind.
    fn push(&mut self, text: &[u8])
        requires { length self.old + length text.now ≤ ROOM }
        ensures { self.new ≡ self.old ++ text.now }
    {
        let end = self.len + text.len();
        self.bytes[self.len..end].copy_from_slice(text);
        self.len = end;
    }

    /// The bytes.
    pub fn bytes(&self) -> &[u8]
        ensures { result.now ≡ self.now }
    {
        &self.bytes[..self.len]
    }
}

/// `memory last <m>` with the last degree that was printed, or `memory last none`.
#[tactic(auto, unfolding(crate::specs::Lines::memory_text))]
pub fn memory_line(last: Option<u32>) -> Line
    ensures { result ≡ memory_text last }
{
    let mut line = Line::empty();
    line.push(b"memory last ");
    match last {
        Some(m) => {
            let mut buffer = Buffer::new();
            line.push(buffer.format(m).as_bytes());
        }
        None => line.push(b"none"),
    }
    line.push(b"\n");
    line
}

/// The usage line.
#[tactic(auto, unfolding(crate::specs::Lines::usage_text))]
pub fn usage_line() -> &'static [u8]
    ensures { result.now ≡ usage_text }
{
    b"usage: nichols algebra or reduce or symmetrize or points K or product or table or cover [--degree N] [--rows N] [--workers N] [--window N] [--brief]\n"
}

/// The line for a source that failed.
#[tactic(auto, unfolding(crate::specs::Lines::read_fault_text))]
pub fn read_fault_line() -> &'static [u8]
    ensures { result.now ≡ read_fault_text }
{
    b"read fault\n"
}
