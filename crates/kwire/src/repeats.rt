//! The last check of `body`: no request names a partition twice.

ghost use Rattle.std.specs.Prelude.{◌≡◌, ◌≢◌, ℕ, ℤ, List as Items, [], ◌++◌, ◌<◌, ◌≤◌, ◌^◌, length, map, option_map, AllPairs, IsTrue, OnOk, IfOk, IfErr};
ghost use Rattle.std.specs.List.{flat_map, list_any};
ghost use Rattle.kwire.specs.IsRequest.{topics_named, named_of};
ghost use Rattle.kwire.specs.Views.{ask_of};
ghost use Rattle.kwire.specs.Mentions.{view, place_of, parts_mentions, is_same, repeat_after};
ghost use Rattle.kwire.specs.Refusal.{Mention as AMention, IsFirstRepeat, mentions_from, mentions_of};
ghost use Rattle.kwire.specs.declared.frame.WireFault.TheVariants.{Twice, NoMemory as OutOfMemory};
ghost use Rattle.kwire.specs.declared.request.TheConstants.{MOST_NAMED};

use crate::frame::WireFault;
use crate::request::FetchPart;
use crate::view::{AskView, FetchTopicView, ProducePartView, ProduceTopicView};
use kbytes::{List, NoMemory};
use std::alloc::Global;

/// A partition that a topic entry names.
#[derive(Drop)]
pub struct Mention<'a> {
    pub entry: u32,
    pub topic: &'a [u8],
    pub index: i32,
}

fn is_same(a: &Mention<'_>, b: &Mention<'_>) -> bool
    ensures { result ≡ is_same (view a.now) (view b.now) }
{
    a.topic == b.topic && a.index == b.index
}

fn is_mentioned(mention: &Mention<'_>, before: &[Mention<'_>]) -> bool
    ensures { result ≡ list_any (λ other. is_same (view mention.now) (view other)) before.now }
{
    before.iter().any(|other| is_same(mention, other))
}

// The first mention that repeats an earlier one: its topic entry, and the partition's number.
fn first_repeat(mentions: &[Mention<'_>]) -> Option<(u32, i32)>
    ensures { result ≡ option_map place_of (repeat_after [] (map view mentions.now)) }
{
    for (place, mention) in mentions.iter().enumerate() {
        if is_mentioned(mention, &mentions[..place]) {
            return Some((mention.entry, mention.index));
        }
    }
    None
}

/// A partition of a topic entry.
pub trait HasIndex {
    ghost index: { Self → ℤ };

    fn index(&self) -> i32
        ensures { result ≡ index self.now };
}

impl HasIndex for ProducePartView<'_> {
    ghost index = { λ part. part.index };

    fn index(&self) -> i32 {
        self.index
    }
}

impl HasIndex for FetchPart {
    ghost index = { λ part. part.index };

    fn index(&self) -> i32 {
        self.index
    }
}

/// A topic entry with its partitions.
pub trait HasParts {
    type Part: HasIndex;

    ghost name: { Self → Items ℕ };

    ghost parts: { Self → Items Self.Part };

    fn name(&self) -> &[u8]
        ensures { result.now ≡ name self.now };

    fn parts(&self) -> &[Self::Part]
        ensures { result.now ≡ parts self.now };
}

impl<'a> HasParts for ProduceTopicView<'a> {
    type Part = ProducePartView<'a>;

    ghost name = { λ topic. topic.name };

    ghost parts = { λ topic. topic.parts };

    fn name(&self) -> &[u8] {
        self.name
    }

    fn parts(&self) -> &[ProducePartView<'a>] {
        self.parts.as_slice()
    }
}

impl<'a> HasParts for FetchTopicView<'a> {
    type Part = FetchPart;

    ghost name = { λ topic. topic.name };

    ghost parts = { λ topic. topic.parts };

    fn name(&self) -> &[u8] {
        self.name
    }

    fn parts(&self) -> &[FetchPart] {
        self.parts.as_slice()
    }
}

// The partitions of one topic entry.
fn put_parts<'a, P: HasIndex>(
    mentions: &mut List<Mention<'a>>,
    entry: u32,
    topic: &'a [u8],
    parts: &[P],
) -> Result<(), NoMemory>
    ensures { OnOk result (map view mentions.new ≡ map view mentions.old ++ parts_mentions P.index entry topic.now parts.now) }
{
    for part in parts {
        let index = part.index();
        mentions.push(Mention {
            entry,
            topic,
            index,
        })?;
    }
    Ok(())
}

// The partitions of all topic entries.
fn all_mentions<'a, T: HasParts>(
    alloc: Global,
    topics: &'a [T],
) -> Result<List<Mention<'a>>, NoMemory>
    requires { length topics.now < 2 ^ 32 }
    ensures { IfOk result (λ mentions. map view mentions
        ≡ mentions_from (λ entry topic. parts_mentions T.Part.index entry (T.name topic) (T.parts topic)) 0 topics.now) }
{
    let mut mentions = List::new(alloc);
    for (entry, topic) in topics.iter().enumerate() {
        put_parts(&mut mentions, entry as u32, topic.name(), topic.parts())?;
    }
    Ok(mentions)
}

// The partitions that are named, in the order of the request.
fn mentions_of<'a>(alloc: Global, ask: &'a AskView<'_>) -> Result<List<Mention<'a>>, NoMemory>
    requires { topics_named (ask_of ask.now) ≤ MOST_NAMED }
    ensures { IfOk result (λ mentions. map view mentions ≡ mentions_of (ask_of ask.now)) }
{
    match ask {
        AskView::Produce { topics, .. } => all_mentions(alloc, topics.as_slice()),
        AskView::Fetch { topics, .. } => all_mentions(alloc, topics.as_slice()),
        AskView::Metadata { .. } | AskView::Versions { .. } => Ok(List::new(alloc)),
    }
}

// Whether these topic entries have one partition at most.
fn have_one<T: HasParts>(topics: &[T]) -> bool
    ensures { IsTrue result → length (flat_map T.parts topics.now) ≤ 1 }
{
    match topics {
        [] => true,
        [topic] => topic.parts().len() <= 1,
        _ => false,
    }
}

// Whether one partition is named at most, as in most requests.
fn names_one(ask: &AskView<'_>) -> bool
    ensures { IsTrue result → length (named_of (ask_of ask.now)) ≤ 1 }
{
    match ask {
        AskView::Produce { topics, .. } => have_one(topics.as_slice()),
        AskView::Fetch { topics, .. } => have_one(topics.as_slice()),
        AskView::Metadata { .. } | AskView::Versions { .. } => true,
    }
}

/// Refuses with `Twice` exactly where a partition is named twice, and reports the first that is named again.
pub fn refuse_repeats(alloc: Global, ask: &AskView<'_>) -> Result<(), WireFault>
    requires { topics_named (ask_of ask.now) ≤ MOST_NAMED }
    ensures once { OnOk result (AllPairs (λ a b. a ≢ b) (named_of (ask_of ask.now))) }
    ensures twice { IfErr result (λ why. why ≢ OutOfMemory
        → (mention : AMention) × IsFirstRepeat (mentions_of (ask_of ask.now)) mention × (why ≡ Twice mention.entry mention.index)) }
{
    if names_one(ask) {
        return Ok(());
    }
    let mentions = mentions_of(alloc, ask)?;
    match first_repeat(mentions.as_slice()) {
        None => Ok(()),
        Some((topic, partition)) => Err(WireFault::Twice { topic, partition }),
    }
}
