//! The header of a request, which `body` reads first.

ghost use Rattle.kwire.specs.Apis.{head_layout};
ghost use Rattle.kwire.specs.IsRequest.{head};
ghost use Rattle.kwire.specs.Reading.{Reads, fields_at};

use crate::frame::WireFault;
use kbytes::Reader;

/// The first fields of a request's body: the api's key, the version, which decides what the other fields are, and the
/// correlation id.
#[derive(Clone, Copy)]
pub struct Head {
    pub key: i16,
    pub version: i16,
    pub correlation: i32,
}

/// The header, from the front of a body.
#[tactic(auto, unfolding(crate::specs::Reading::layout_at))]
pub fn read_head(reader: &mut Reader<'_>) -> Result<Head, WireFault>
    ensures { Reads (λ found. head found.key found.version found.correlation) reader.new result (fields_at head_layout reader.old) }
{
    let key = reader.i16()?;
    let version = reader.i16()?;
    let correlation = reader.i32()?;
    Ok(Head {
        key,
        version,
        correlation,
    })
}
