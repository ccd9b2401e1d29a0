//! The line of a key that no document has.

ghost use Rattle.std.specs.Prelude.{◌≡◌, ◌++◌, IfOk, OnOk, map, take};
ghost use Rattle.nichols_text.specs.Refusals.{printed_byte, unknown_key_text};

use nichols_input::KeyText;
use std::alloc::{AllocError, Global};

/// The most bytes of a key that are printed.
const KEY_LIMIT: usize = 60;

/// The line of a key that no document has.
#[tactic(auto, unfolding(crate::specs::Refusals::printed_key, crate::specs::Refusals::unknown_key_text))]
pub(crate) fn unknown_key_text(alloc: Global, key: &KeyText) -> Result<Vec<u8>, AllocError>
    ensures { IfOk result (λ r. r.items ≡ unknown_key_text key.now) }
{
    let mut out = Vec::from_slice(alloc, b"refused: unknown key ")?;
    push_printed(&mut out, front(key.as_str().as_bytes()))?;
    out.extend_from_slice(b"\n")?;
    Ok(out)
}

/// The bytes of a key that are printed.
fn front(key: &[u8]) -> &[u8]
    ensures { result.now ≡ take KEY_LIMIT key.now }
{
    if key.len() > KEY_LIMIT {
        &key[..KEY_LIMIT]
    } else {
        key
    }
}

/// Puts bytes behind a text, with a question mark for each that can't be seen.
fn push_printed(out: &mut Vec<u8>, bytes: &[u8]) -> Result<(), AllocError>
    ensures { OnOk result (out.new.items ≡ out.old.items ++ map printed_byte bytes.now) }
{
    for byte in bytes {
        out.push(printed_byte(*byte))?;
    }
    Ok(())
}

/// The byte, or a question mark where it can't be seen.
fn printed_byte(byte: u8) -> u8
    ensures { result ≡ printed_byte byte }
{
    if byte.is_ascii_graphic() { byte } else { b'?' }
}
