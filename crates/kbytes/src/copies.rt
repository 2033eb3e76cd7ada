//! Copies of bytes.

ghost use Rattle.std.specs.Prelude.{◌≡◌, IfOk};
ghost use Rattle.std.specs.Option.{option_copied};

use crate::bytes::Bytes;
use crate::no_memory::NoMemory;
use std::alloc::Global;

/// A copy of these bytes.
pub fn copied(alloc: Global, part: &[u8]) -> Result<Bytes, NoMemory>
    ensures { IfOk result (λ bytes. bytes ≡ part.now) }
{
    let mut bytes = Bytes::new(alloc);
    bytes.extend(part)?;
    Ok(bytes)
}

/// The same, or `None` for null.
pub fn copied_or_null(alloc: Global, part: Option<&[u8]>) -> Result<Option<Bytes>, NoMemory>
    ensures { IfOk result (λ bytes. bytes ≡ option_copied part.entry) }
{
    match part {
        None => Ok(None),
        Some(part) => Ok(Some(copied(alloc, part)?)),
    }
}
