//! A request as data that borrows names and records from the body of its frame: what `view_request` gives, and what a broker
//! works on while it has the frame.

use crate::request::FetchPart;
use kbytes::List;
use std::marker::Model;

/// What a produce brings for one partition: a `ProducePart` with borrowed bytes.
#[derive(Drop)]
pub struct ProducePartView<'a> {
    pub index: i32,
    pub records: Option<&'a [u8]>,
}

impl<'a> Model for ProducePartView<'a> {
    ghost use Rattle.std.specs.Option.{option_copied};
    ghost use Rattle.kwire.specs.declared.request.ProducePart.{ProducePart};

    ghost Value = { ProducePart };

    ghost view = { λ p. record { index = p.index; records = option_copied p.records } };
}

/// A `ProduceTopic` with borrowed bytes.
#[derive(Drop)]
pub struct ProduceTopicView<'a> {
    pub name: &'a [u8],
    pub parts: List<ProducePartView<'a>>,
}

impl<'a> Model for ProduceTopicView<'a> {
    ghost use Rattle.kwire.specs.declared.request.ProduceTopic.{ProduceTopic};

    ghost Value = { ProduceTopic };

    ghost view = { λ t. record { name = t.name.now; parts = t.parts } };
}

/// A `FetchTopic` with borrowed bytes.
#[derive(Drop)]
pub struct FetchTopicView<'a> {
    pub name: &'a [u8],
    pub parts: List<FetchPart>,
}

impl<'a> Model for FetchTopicView<'a> {
    ghost use Rattle.kwire.specs.declared.request.FetchTopic.{FetchTopic};

    ghost Value = { FetchTopic };

    ghost view = { λ t. record { name = t.name.now; parts = t.parts } };
}

/// An `Ask` with borrowed bytes.
#[derive(Drop)]
pub enum AskView<'a> {
    Produce {
        version: i16,
        transactional: Option<&'a [u8]>,
        acks: i16,
        timeout: i32,
        topics: List<ProduceTopicView<'a>>,
    },
    Fetch {
        version: i16,
        replica: i32,
        max_wait: i32,
        min_bytes: i32,
        max_bytes: i32,
        isolation: i8,
        topics: List<FetchTopicView<'a>>,
    },
    /// The named topics, or all of them.
    Metadata {
        topics: Option<List<&'a [u8]>>,
    },
    /// Asks for the api versions, in this version of that request.
    Versions {
        version: i16,
    },
}

/// A `Request` with borrowed bytes. A contract sees that request.
#[derive(Drop)]
pub struct RequestView<'a> {
    pub correlation: i32,
    pub client: Option<&'a [u8]>,
    pub ask: AskView<'a>,
}

impl<'a> Model for RequestView<'a> {
    ghost use Rattle.std.specs.Option.{option_copied};
    ghost use Rattle.kwire.specs.declared.request.Request.{Request};
    ghost use Rattle.kwire.specs.Views.{ask_of};

    ghost Value = { Request };

    ghost view = { λ r. record { correlation = r.correlation; client = option_copied r.client; ask = ask_of r.ask } };
}
