//! Writing the topics of a reply to a produce, for `put_reply`.

ghost use Rattle.std.specs.Prelude.{◌≡◌, ◌++◌, [], ◌∷◌, Some, length, OnOk};
ghost use Rattle.std.specs.List.{flat_map};
ghost use Rattle.kbytes.specs.Field.{fields, Array, Int64};
ghost use Rattle.kwire.specs.Apis.{has_log_start};
ghost use Rattle.kwire.specs.IsRequest.{only_field};
ghost use Rattle.kwire.specs.Spelling.{produced_part_fields, produced_topic_fields};
ghost use Rattle.kwire.specs.IsSpellable.{AreInRange};

use crate::api::has_log_start;
use crate::put_items::{Written, put_items};
use crate::reply::{ProducedPart, ProducedTopic};
use kbytes::{Bytes, NoMemory, put_array, put_i16, put_i32, put_i64, put_string};

/// Where a log starts, in a version that tells it.
pub fn put_start(out: &mut Bytes, version: i16, start: i64) -> Result<(), NoMemory>
    ensures { OnOk result (out.new ≡ out.old ++ fields (only_field (has_log_start version) (Int64 start) [])) }
{
    if has_log_start(version) {
        return put_i64(out, start);
    }
    Ok(())
}

/// What is told of one partition. The append time is always -1.
pub fn put_produced_part(out: &mut Bytes, version: i16, part: &ProducedPart) -> Result<(), NoMemory>
    ensures { OnOk result (out.new ≡ out.old ++ fields (produced_part_fields version part.now)) }
{
    put_i32(out, part.index)?;
    put_i16(out, part.code)?;
    put_i64(out, part.base)?;
    put_i64(out, -1)?;
    put_start(out, version, part.start)
}

impl Written for ProducedPart {
    ghost written = { produced_part_fields };

    fn put(&self, out: &mut Bytes, version: i16) -> Result<(), NoMemory> {
        put_produced_part(out, version, self)
    }
}

impl Written for ProducedTopic {
    ghost written = { produced_topic_fields };

    fn put(&self, out: &mut Bytes, version: i16) -> Result<(), NoMemory> {
        put_string(out, self.name.as_slice())?;
        put_array(out, Some(self.parts.len() as u32))?;
        put_items(out, version, self.parts.as_slice())
    }
}

/// The topics, after their count.
pub fn put_produced(out: &mut Bytes, version: i16, topics: &[ProducedTopic]) -> Result<(), NoMemory>
    requires { AreInRange (Array (Some (length topics.now)) ∷ flat_map (produced_topic_fields version) topics.now) }
    ensures { OnOk result (out.new ≡ out.old
        ++ fields (Array (Some (length topics.now)) ∷ flat_map (produced_topic_fields version) topics.now)) }
{
    put_array(out, Some(topics.len() as u32))?;
    put_items(out, version, topics)
}
