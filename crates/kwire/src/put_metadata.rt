//! Writing what the broker says about itself, for `put_reply`: its address and topics, and the versions of its apis.

ghost use Rattle.std.specs.Prelude.{◌≡◌, ◌+◌, ◌<◌, ◌^◌, ◌++◌, ◌∷◌, Some, length, OnOk};
ghost use Rattle.std.specs.List.{flat_map, range_with_len};
ghost use Rattle.kbytes.specs.Field.{fields};
ghost use Rattle.kwire.specs.declared.reply.Told.TheVariants.{Metadata, Versions};
ghost use Rattle.kwire.specs.Spelling.{replica_fields, partition_fields, topic_info_fields, broker_fields, api_fields, told_fields};
ghost use Rattle.kwire.specs.IsSpellable.{AreInRange};

use crate::api::{Api, key_of, versions_of};
use crate::put_items::{Written, put_items};
use crate::reply::TopicInfo;
use kbytes::{
    Bytes, NoMemory, put_array, put_i8, put_i16, put_i32, put_nullable_string, put_string,
};

// The replicas of a partition: 0, and one for each follower.
fn put_replicas(out: &mut Bytes, followers: u32) -> Result<(), NoMemory>
    requires { followers + 1 < 2 ^ 31 }
    ensures { OnOk result (out.new ≡ out.old ++ fields (replica_fields followers)) }
{
    put_array(out, Some(followers + 1))?;
    for replica in 0..followers + 1 {
        put_i32(out, replica as i32)?;
    }
    Ok(())
}

// A partition: this broker leads it, and all replicas are in sync.
fn put_partition(out: &mut Bytes, followers: u32, index: u32) -> Result<(), NoMemory>
    requires replicas { followers + 1 < 2 ^ 31 }
    requires index { index < 2 ^ 31 }
    ensures { OnOk result (out.new ≡ out.old ++ fields (partition_fields followers index)) }
{
    put_i16(out, 0)?;
    put_i32(out, index as i32)?;
    put_i32(out, 0)?;
    put_replicas(out, followers)?;
    put_replicas(out, followers)
}

fn put_partitions(out: &mut Bytes, followers: u32, count: u32) -> Result<(), NoMemory>
    requires count { count < 2 ^ 31 }
    requires in_range { AreInRange (flat_map (partition_fields followers) (range_with_len 0 count)) }
    ensures { OnOk result (out.new ≡ out.old
        ++ fields (flat_map (partition_fields followers) (range_with_len 0 count))) }
{
    for index in 0..count {
        put_partition(out, followers, index)?;
    }
    Ok(())
}

impl Written for TopicInfo {
    ghost written = { λ _. topic_info_fields };

    // No topic is internal.
    fn put(&self, out: &mut Bytes, _version: i16) -> Result<(), NoMemory> {
        put_i16(out, self.code)?;
        put_string(out, self.name.as_slice())?;
        put_i8(out, 0)?;
        put_array(out, Some(self.partitions))?;
        put_partitions(out, self.followers, self.partitions)
    }
}

// This broker: node 0, without a rack.
fn put_broker(out: &mut Bytes, port: u16) -> Result<(), NoMemory>
    ensures { OnOk result (out.new ≡ out.old ++ fields (broker_fields port)) }
{
    put_i32(out, 0)?;
    put_string(out, b"localhost".as_slice())?;
    put_i32(out, i32::from(port))?;
    put_nullable_string(out, None)
}

/// The one broker, which is the controller, and the topics.
pub fn put_metadata(out: &mut Bytes, port: u16, topics: &[TopicInfo]) -> Result<(), NoMemory>
    requires { AreInRange (told_fields (Metadata port topics.now)) }
    ensures { OnOk result (out.new ≡ out.old ++ fields (told_fields (Metadata port topics.now))) }
{
    put_array(out, Some(1))?;
    put_broker(out, port)?;
    put_i32(out, 0)?;
    put_array(out, Some(topics.len() as u32))?;
    put_items(out, versions_of(Api::Metadata).greatest, topics)
}

// An api, with its lowest and its highest version.
fn put_api(out: &mut Bytes, api: Api) -> Result<(), NoMemory>
    ensures { OnOk result (out.new ≡ out.old ++ fields (api_fields api)) }
{
    let versions = versions_of(api);
    put_i16(out, key_of(api))?;
    put_i16(out, versions.least)?;
    put_i16(out, versions.greatest)
}

/// The apis, after the code.
pub fn put_versions(out: &mut Bytes, code: i16) -> Result<(), NoMemory>
    ensures { OnOk result (out.new ≡ out.old ++ fields (told_fields (Versions code))) }
{
    put_i16(out, code)?;
    put_array(out, Some(4))?;
    put_api(out, Api::Produce)?;
    put_api(out, Api::Fetch)?;
    put_api(out, Api::Metadata)?;
    put_api(out, Api::Versions)
}
