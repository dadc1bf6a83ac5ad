//! What the tests of this crate share.

ghost use Rattle.std.specs.Prelude.{◌<◌};

use std::alloc::AllocError;

/// How many bytes a call moves at most. Sources and sinks move at least one.
pub(crate) fn at_least_one(step: usize) -> usize
    ensures { 0 < result }
{
    if step > 0 { step } else { 1 }
}

/// Adds bytes, which are all ASCII, to a text.
pub(crate) fn push_bytes(text: &mut String, bytes: &[u8]) -> Result<(), AllocError> {
    for byte in bytes {
        text.push(char::from(*byte))?;
    }
    Ok(())
}
