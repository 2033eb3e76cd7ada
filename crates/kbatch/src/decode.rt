//! Records, read with copies of their keys, values and headers: what `Batch::records` hands out. `walk` finds the places.

ghost use Rattle.std.specs.Prelude.{◌≡◌, IfOk};
ghost use Rattle.kbatch.specs.Walk.{header_at};
ghost use Rattle.kbatch.specs.Decode.{Decodes, list_at, body_at, record_at};

use crate::record::{Header, Record};
use crate::walk::{header_at, key_at, parts_at};
use kbytes::{List, NoMemory as Memory, copied, copied_or_null};
use std::alloc::Global;

/// Why no record is read.
#[derive(Clone, Copy, Drop)]
pub(crate) enum Stop {
    /// The bytes are no record.
    Unread,
    /// Out of memory.
    NoMemory,
}

impl From<Memory> for Stop {
    ghost use Rattle.kbatch.specs.declared.decode.Stop.TheVariants.{NoMemory};

    ghost from_gives = { λ _ stop. stop ≡ NoMemory };

    fn from(_refused: Memory) -> Stop {
        Stop::NoMemory
    }
}

// That many headers.
fn headers(alloc: Global, count: u32, bytes: &[u8]) -> Result<List<Header>, Stop>
    ensures { Decodes result (list_at header_at count bytes.now) }
{
    let mut headers = List::new(alloc);
    let mut rest = bytes;
    for _ in 0..count {
        let Some((key, value, after)) = header_at(rest) else {
            return Err(Stop::Unread);
        };
        headers.push(Header {
            key: copied(alloc, key)?,
            value: copied_or_null(alloc, value)?,
        })?;
        rest = after;
    }
    Ok(headers)
}

// The fields after a record's length.
#[tactic(auto, unfolding(crate::specs::Decode::body_at))]
fn record(alloc: Global, bytes: &[u8]) -> Result<Record, Stop>
    ensures { Decodes result (body_at bytes.now) }
{
    let Some(parts) = parts_at(bytes) else {
        return Err(Stop::Unread);
    };
    Ok(Record {
        attributes: parts.attributes,
        time: parts.time,
        key: copied_or_null(alloc, parts.key)?,
        value: copied_or_null(alloc, parts.value)?,
        headers: headers(alloc, parts.count, parts.headers)?,
    })
}

// That many records.
pub(crate) fn records(alloc: Global, count: u32, bytes: &[u8]) -> Result<List<Record>, Stop>
    ensures { Decodes result (list_at record_at count bytes.now) }
{
    let mut records = List::new(alloc);
    let mut rest = bytes;
    for _ in 0..count {
        let Some((body, after)) = key_at(rest) else {
            return Err(Stop::Unread);
        };
        records.push(record(alloc, body)?)?;
        rest = after;
    }
    Ok(records)
}
