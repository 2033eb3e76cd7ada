//! Copying a borrowed request into an owned one, for `read_request`.

ghost use Rattle.std.specs.Prelude.{◌≡◌, map, option_map, IfOk};
ghost use Rattle.kwire.specs.Views.{ask_of};

use crate::request::{Ask, FetchPart, FetchTopic, ProducePart, ProduceTopic, Request};
use crate::view::{AskView, FetchTopicView, ProducePartView, ProduceTopicView, RequestView};
use kbytes::{Bytes, List, NoMemory, copied, copied_or_null};
use std::alloc::Global;

/// A part of a request that can be copied into an owned one.
pub trait Borrowed {
    type Owned: Drop;

    ghost owned: { Self → Self.Owned };

    fn to_owned(&self, alloc: Global) -> Result<Self::Owned, NoMemory>
        ensures { IfOk result (λ copy. copy ≡ owned self.now) };
}

fn owned_list<T: Borrowed>(alloc: Global, items: &[T]) -> Result<List<T::Owned>, NoMemory>
    ensures { IfOk result (λ copies. copies ≡ map T.owned items.now) }
{
    let mut copies = List::new(alloc);
    for item in items {
        let copy = item.to_owned(alloc)?;
        copies.push(copy)?;
    }
    Ok(copies)
}

impl<'a> Borrowed for &'a [u8] {
    type Owned = Bytes;

    ghost owned = { λ name. name.now };

    fn to_owned(&self, alloc: Global) -> Result<Bytes, NoMemory> {
        copied(alloc, *self)
    }
}

impl<'a> Borrowed for ProducePartView<'a> {
    type Owned = ProducePart;

    ghost owned = { λ part. part };

    fn to_owned(&self, alloc: Global) -> Result<ProducePart, NoMemory> {
        let records = copied_or_null(alloc, self.records)?;
        Ok(ProducePart {
            index: self.index,
            records,
        })
    }
}

impl<'a> Borrowed for ProduceTopicView<'a> {
    type Owned = ProduceTopic;

    ghost owned = { λ topic. topic };

    fn to_owned(&self, alloc: Global) -> Result<ProduceTopic, NoMemory> {
        let name = copied(alloc, self.name)?;
        let parts = owned_list(alloc, self.parts.as_slice())?;
        Ok(ProduceTopic { name, parts })
    }
}

impl Borrowed for FetchPart {
    type Owned = FetchPart;

    ghost owned = { λ part. part };

    fn to_owned(&self, _alloc: Global) -> Result<FetchPart, NoMemory> {
        Ok(FetchPart {
            index: self.index,
            offset: self.offset,
            log_start: self.log_start,
            most: self.most,
        })
    }
}

impl<'a> Borrowed for FetchTopicView<'a> {
    type Owned = FetchTopic;

    ghost owned = { λ topic. topic };

    fn to_owned(&self, alloc: Global) -> Result<FetchTopic, NoMemory> {
        let name = copied(alloc, self.name)?;
        let parts = owned_list(alloc, self.parts.as_slice())?;
        Ok(FetchTopic { name, parts })
    }
}

fn owned_names(alloc: Global, names: &Option<List<&[u8]>>) -> Result<Option<List<Bytes>>, NoMemory>
    ensures { IfOk result (λ copies. copies ≡ option_map (map (λ name. name.now)) names.now) }
{
    match names {
        None => Ok(None),
        Some(names) => Ok(Some(owned_list(alloc, names.as_slice())?)),
    }
}

fn owned_ask(alloc: Global, ask: &AskView<'_>) -> Result<Ask, NoMemory>
    ensures { IfOk result (λ copy. copy ≡ ask_of ask.now) }
{
    match ask {
        AskView::Produce {
            version,
            transactional,
            acks,
            timeout,
            topics,
        } => Ok(Ask::Produce {
            version: *version,
            transactional: copied_or_null(alloc, *transactional)?,
            acks: *acks,
            timeout: *timeout,
            topics: owned_list(alloc, topics.as_slice())?,
        }),
        AskView::Fetch {
            version,
            replica,
            max_wait,
            min_bytes,
            max_bytes,
            isolation,
            topics,
        } => Ok(Ask::Fetch {
            version: *version,
            replica: *replica,
            max_wait: *max_wait,
            min_bytes: *min_bytes,
            max_bytes: *max_bytes,
            isolation: *isolation,
            topics: owned_list(alloc, topics.as_slice())?,
        }),
        AskView::Metadata { topics } => Ok(Ask::Metadata {
            topics: owned_names(alloc, topics)?,
        }),
        AskView::Versions { version } => Ok(Ask::Versions { version: *version }),
    }
}

impl<'a> RequestView<'a> {
    /// The same request, with copies of its names and records.
    pub fn to_owned(&self, alloc: Global) -> Result<Request, NoMemory>
        ensures { IfOk result (λ copy. copy ≡ self.now) }
    {
        let client = copied_or_null(alloc, self.client)?;
        let ask = owned_ask(alloc, &self.ask)?;
        Ok(Request {
            correlation: self.correlation,
            client,
            ask,
        })
    }
}
