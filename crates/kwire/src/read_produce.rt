//! Reading the fields of a produce, for `body`.

ghost use Rattle.std.specs.Prelude.{◌≡◌, ◌≤◌, IfOk, ⊤};
ghost use Rattle.kwire.specs.Apis.{produce_part_layout, produce_topic_layout, ask_layout};
ghost use Rattle.kwire.specs.IsRequest.{produce_part_fields, produce_topic_fields, api_of, version_of, ask_fields, AllFitVersion, topics_named};
ghost use Rattle.kwire.specs.Views.{ask_of};
ghost use Rattle.kwire.specs.Reading.{Reads, fields_at, layout_at};
ghost use Rattle.kwire.specs.declared.api.Api.TheVariants.{Produce as ProduceApi};
ghost use Rattle.kwire.specs.declared.request.TheConstants.{MOST_NAMED};

use crate::frame::WireFault;
use crate::head::Head;
use crate::read_items::{Item, read_count, read_items, refuse_many};
use crate::view::{AskView, ProducePartView, ProduceTopicView};
use kbytes::Reader;
use std::alloc::Global;

impl<'a> Item<'a> for ProducePartView<'a> {
    ghost layout = { λ _. produce_part_layout };

    ghost fields = { λ _. produce_part_fields };

    ghost fits = { λ _ _. ⊤ };

    #[tactic(auto, unfolding(crate::specs::Reading::layout_at))]
    fn read(
        _alloc: Global,
        reader: &mut Reader<'a>,
        _head: Head,
        _named: &mut u32,
    ) -> Result<ProducePartView<'a>, WireFault> {
        let index = reader.i32()?;
        let records = reader.records()?;
        Ok(ProducePartView { index, records })
    }
}

impl<'a> Item<'a> for ProduceTopicView<'a> {
    ghost layout = { λ _. produce_topic_layout };

    ghost fields = { λ _. produce_topic_fields };

    ghost fits = { λ _ _. ⊤ };

    #[tactic(auto, unfolding(crate::specs::Reading::layout_at))]
    fn read(
        alloc: Global,
        reader: &mut Reader<'a>,
        head: Head,
        named: &mut u32,
    ) -> Result<ProduceTopicView<'a>, WireFault> {
        let name = reader.string()?;
        let count = read_count(reader)?;
        refuse_many(*named + count)?;
        *named += count;
        let parts = read_items(alloc, reader, head, count, named)?;
        Ok(ProduceTopicView { name, parts })
    }
}

/// The fields of a produce after this header.
#[tactic(auto, unfolding(crate::specs::Reading::layout_at))]
pub fn read_produce<'a>(
    alloc: Global,
    reader: &mut Reader<'a>,
    head: Head,
) -> Result<AskView<'a>, WireFault>
    ensures exact { Reads (λ ask. ask_fields (ask_of ask)) reader.new result (fields_at (ask_layout ProduceApi head.version) reader.old) }
    ensures asked { IfOk result (λ ask. api_of (ask_of ask) ≡ ProduceApi) }
    ensures version { IfOk result (λ ask. version_of (ask_of ask) ≡ head.version) }
    ensures fitting { IfOk result (λ ask. AllFitVersion (ask_of ask)) }
    ensures few { IfOk result (λ ask. topics_named (ask_of ask) ≤ MOST_NAMED) }
{
    let transactional = reader.nullable_string()?;
    let acks = reader.i16()?;
    let timeout = reader.i32()?;
    let count = read_count(reader)?;
    refuse_many(count)?;
    let topics = read_items(alloc, reader, head, count, &mut 0)?;
    Ok(AskView::Produce {
        version: head.version,
        transactional,
        acks,
        timeout,
        topics,
    })
}
