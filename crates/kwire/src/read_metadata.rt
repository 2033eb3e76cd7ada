//! Reading the fields of a request for metadata, for `body`.

ghost use Rattle.std.specs.Prelude.{◌≡◌, ◌≤◌, IfOk, ⊤};
ghost use Rattle.kwire.specs.Apis.{name_layout, versions_of_api, ask_layout};
ghost use Rattle.kwire.specs.IsRequest.{name_fields, api_of, version_of, ask_fields, topics_named};
ghost use Rattle.kwire.specs.Views.{ask_of};
ghost use Rattle.kwire.specs.Reading.{Reads, fields_at, layout_at};
ghost use Rattle.kwire.specs.declared.api.Api.TheVariants.{Metadata as MetadataApi};
ghost use Rattle.kwire.specs.declared.request.TheConstants.{MOST_NAMED};

use crate::frame::WireFault;
use crate::head::Head;
use crate::read_items::{Item, read_items, refuse_many};
use crate::view::AskView;
use kbytes::Reader;
use std::alloc::Global;

impl<'a> Item<'a> for &'a [u8] {
    ghost layout = { λ _. name_layout };

    ghost fields = { λ _ name. name_fields name.now };

    ghost fits = { λ _ _. ⊤ };

    #[tactic(auto, unfolding(crate::specs::Reading::layout_at))]
    fn read(
        _alloc: Global,
        reader: &mut Reader<'a>,
        _head: Head,
        _named: &mut u32,
    ) -> Result<&'a [u8], WireFault> {
        let name = reader.string()?;
        Ok(name)
    }
}

/// The topics that are asked for, at most 64, or all of them.
#[tactic(auto, unfolding(crate::specs::Reading::layout_at))]
pub fn read_metadata<'a>(
    alloc: Global,
    reader: &mut Reader<'a>,
    head: Head,
) -> Result<AskView<'a>, WireFault>
    ensures exact { Reads (λ ask. ask_fields (ask_of ask)) reader.new result (fields_at (ask_layout MetadataApi head.version) reader.old) }
    ensures asked { IfOk result (λ ask. api_of (ask_of ask) ≡ MetadataApi) }
    ensures version { IfOk result (λ ask. version_of (ask_of ask) ≡ (versions_of_api MetadataApi).greatest) }
    ensures few { IfOk result (λ ask. topics_named (ask_of ask) ≤ MOST_NAMED) }
{
    let Some(count) = reader.array()? else {
        return Ok(AskView::Metadata { topics: None });
    };
    refuse_many(count)?;
    let names = read_items(alloc, reader, head, count, &mut 0)?;
    Ok(AskView::Metadata {
        topics: Some(names),
    })
}
