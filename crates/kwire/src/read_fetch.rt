//! Reading the fields of a fetch, for `body`.

ghost use Rattle.std.specs.Prelude.{◌≡◌, ◌≤◌, true, false, negsuc, IfOk};
ghost use Rattle.std.specs.List.{AllByRecursion};
ghost use Rattle.kbytes.specs.Field.{Int8, Int64};
ghost use Rattle.kwire.specs.Layouts.{INT8_OF, INT64};
ghost use Rattle.kwire.specs.Apis.{has_log_start, fetch_part_layout, fetch_topic_layout, isolation_levels, ask_layout};
ghost use Rattle.kwire.specs.IsRequest.{fetch_part_fields, fetch_topic_fields, api_of, version_of, ask_fields, FitsVersion, AllFitVersion, topics_named};
ghost use Rattle.kwire.specs.Views.{ask_of};
ghost use Rattle.kwire.specs.Reading.{Reads, field_at, fields_at, layout_at};
ghost use Rattle.kwire.specs.declared.api.Api.TheVariants.{Fetch as FetchApi};
ghost use Rattle.kwire.specs.declared.request.TheConstants.{MOST_NAMED};

use crate::api::has_log_start;
use crate::frame::WireFault;
use crate::head::Head;
use crate::read_items::{Item, read_count, read_items, refuse_many};
use crate::request::FetchPart;
use crate::view::{AskView, FetchTopicView};
use kbytes::Reader;
use std::alloc::Global;

// Where the asker's log starts, or -1 in a version that doesn't tell it.
fn read_log_start(reader: &mut Reader<'_>, head: Head) -> Result<i64, WireFault>
    ensures told { has_log_start head.version ≡ true → Reads Int64 reader.new result (field_at INT64 reader.old) }
    ensures untold { has_log_start head.version ≡ false → (result ≡ Ok (negsuc 0)) × (reader.new ≡ reader.old) }
{
    if !has_log_start(head.version) {
        return Ok(-1);
    }
    let start = reader.i64()?;
    Ok(start)
}

impl<'a> Item<'a> for FetchPart {
    ghost layout = { fetch_part_layout };

    ghost fields = { fetch_part_fields };

    ghost fits = { FitsVersion };

    #[tactic(auto, unfolding(crate::specs::Reading::layout_at))]
    fn read(
        _alloc: Global,
        reader: &mut Reader<'a>,
        head: Head,
        _named: &mut u32,
    ) -> Result<FetchPart, WireFault> {
        let index = reader.i32()?;
        let offset = reader.i64()?;
        let log_start = read_log_start(reader, head)?;
        let most = reader.i32()?;
        Ok(FetchPart {
            index,
            offset,
            log_start,
            most,
        })
    }
}

impl<'a> Item<'a> for FetchTopicView<'a> {
    ghost layout = { fetch_topic_layout };

    ghost fields = { fetch_topic_fields };

    ghost fits = { λ version topic. AllByRecursion (FitsVersion version) topic.parts };

    #[tactic(auto, unfolding(crate::specs::Reading::layout_at))]
    fn read(
        alloc: Global,
        reader: &mut Reader<'a>,
        head: Head,
        named: &mut u32,
    ) -> Result<FetchTopicView<'a>, WireFault> {
        let name = reader.string()?;
        let count = read_count(reader)?;
        refuse_many(*named + count)?;
        *named += count;
        let parts = read_items(alloc, reader, head, count, named)?;
        Ok(FetchTopicView { name, parts })
    }
}

// The isolation level: 0 or 1.
fn read_isolation(reader: &mut Reader<'_>) -> Result<i8, WireFault>
    ensures { Reads Int8 reader.new result (field_at (INT8_OF isolation_levels) reader.old) }
{
    let at = reader.at();
    let level = reader.i8()?;
    if level == 0 || level == 1 {
        return Ok(level);
    }
    Err(WireFault::BadRequest { at })
}

/// The fields of a fetch after this header.
#[tactic(auto, unfolding(crate::specs::Reading::layout_at))]
pub fn read_fetch<'a>(
    alloc: Global,
    reader: &mut Reader<'a>,
    head: Head,
) -> Result<AskView<'a>, WireFault>
    ensures exact { Reads (λ ask. ask_fields (ask_of ask)) reader.new result (fields_at (ask_layout FetchApi head.version) reader.old) }
    ensures asked { IfOk result (λ ask. api_of (ask_of ask) ≡ FetchApi) }
    ensures version { IfOk result (λ ask. version_of (ask_of ask) ≡ head.version) }
    ensures fitting { IfOk result (λ ask. AllFitVersion (ask_of ask)) }
    ensures few { IfOk result (λ ask. topics_named (ask_of ask) ≤ MOST_NAMED) }
{
    let replica = reader.i32()?;
    let max_wait = reader.i32()?;
    let min_bytes = reader.i32()?;
    let max_bytes = reader.i32()?;
    let isolation = read_isolation(reader)?;
    let count = read_count(reader)?;
    refuse_many(count)?;
    let topics = read_items(alloc, reader, head, count, &mut 0)?;
    Ok(AskView::Fetch {
        version: head.version,
        replica,
        max_wait,
        min_bytes,
        max_bytes,
        isolation,
        topics,
    })
}
