//! Numbers in decimal.

ghost use Rattle.std.specs.Prelude.{◌≡◌, ◌++◌, decimal, IfOk, OnOk};
ghost use Rattle.std.specs.Fmt.{signed_decimal};

use itoa::Buffer;
use std::alloc::{AllocError, Global};

/// Puts a number behind a text, in decimal.
pub fn push_number(out: &mut Vec<u8>, n: u64) -> Result<(), AllocError>
    ensures { OnOk result (out.new.items ≡ out.old.items ++ decimal n) }
{
    let mut buffer = Buffer::new();
    out.extend_from_slice(buffer.format(n).as_bytes())?;
    Ok(())
}

/// Puts an integer behind a text, with its sign where it is negative.
pub(crate) fn push_integer(out: &mut Vec<u8>, n: i64) -> Result<(), AllocError>
    ensures { OnOk result (out.new.items ≡ out.old.items ++ signed_decimal n) }
{
    let mut buffer = Buffer::new();
    out.extend_from_slice(buffer.format(n).as_bytes())?;
    Ok(())
}

/// Puts a number between two texts behind a text.
pub fn push_numbered(out: &mut Vec<u8>, before: &str, n: u64, after: &str) -> Result<(), AllocError>
    ensures { OnOk result (out.new.items ≡ out.old.items ++ (before.now ++ decimal n ++ after.now)) }
{
    out.extend_from_slice(before.as_bytes())?;
    push_number(out, n)?;
    out.extend_from_slice(after.as_bytes())?;
    Ok(())
}

/// A number between two texts.
pub(crate) fn numbered_text(
    alloc: Global,
    before: &str,
    n: u64,
    after: &str,
) -> Result<Vec<u8>, AllocError>
    ensures { IfOk result (λ r. r.items ≡ before.now ++ decimal n ++ after.now) }
{
    let mut out = Vec::new(alloc);
    push_numbered(&mut out, before, n, after)?;
    Ok(out)
}
