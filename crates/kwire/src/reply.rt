//! A reply as data: `kanswer` builds it, `put_reply` writes it as bytes.

use kbytes::{Bytes, List};
use std::marker::Model;

/// What a produce is told of one partition. `start` is where its log starts, or -1 where nothing was appended; it is written
/// in the versions that tell it.
#[derive(Drop)]
pub struct ProducedPart {
    pub index: i32,
    pub code: i16,
    pub base: i64,
    pub start: i64,
}

#[derive(Drop)]
pub struct ProducedTopic {
    pub name: Bytes,
    pub parts: List<ProducedPart>,
}

/// What a fetch is told of one partition. `start` is where its log starts, or -1 after an error; it is written in the versions
/// that tell it.
#[derive(Drop)]
pub struct FetchedPart {
    pub index: i32,
    pub code: i16,
    pub high: i64,
    pub start: i64,
    pub records: Bytes,
}

/// A `FetchedPart` with borrowed records: what `put_fetched_part` writes without a copy of them.
#[derive(Drop)]
pub struct FetchedPartView<'a> {
    pub index: i32,
    pub code: i16,
    pub high: i64,
    pub start: i64,
    pub records: &'a [u8],
}

impl<'a> Model for FetchedPartView<'a> {
    ghost use Rattle.kwire.specs.declared.reply.FetchedPart.{FetchedPart};

    ghost Value = { FetchedPart };

    ghost view = { λ p. record { index = p.index; code = p.code; high = p.high; start = p.start; records = p.records.now } };
}

#[derive(Drop)]
pub struct FetchedTopic {
    pub name: Bytes,
    pub parts: List<FetchedPart>,
}

#[derive(Drop)]
pub struct TopicInfo {
    pub code: i16,
    pub name: Bytes,
    pub partitions: u32,
    pub followers: u32,
}

/// The fields of a reply, by the kind of its request, and in the request's version.
#[derive(Drop)]
pub enum Told {
    Produced {
        version: i16,
        topics: List<ProducedTopic>,
    },
    Fetched {
        version: i16,
        isolation: i8,
        topics: List<FetchedTopic>,
    },
    Metadata {
        port: u16,
        topics: List<TopicInfo>,
    },
    Versions {
        code: i16,
    },
}

#[derive(Drop)]
pub struct Reply {
    pub correlation: i32,
    pub told: Told,
}
