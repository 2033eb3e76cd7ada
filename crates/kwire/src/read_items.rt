//! What all `read_` modules share: counts, lists of items, and the limit on what a request names.

ghost use Rattle.std.specs.Prelude.{◌≡◌, ◌<◌, ◌≤◌, ◌^◌, ℤ, List as Items, Some, length, IfOk};
ghost use Rattle.std.specs.List.{flat_map, AllByRecursion};
ghost use Rattle.kbytes.specs.Field.{Field, Array};
ghost use Rattle.kwire.specs.Layouts.{Layout, ARRAY, End};
ghost use Rattle.kwire.specs.Reading.{Reads, ReadsItem, within, field_at, times_at, layout_at};
ghost use Rattle.kwire.specs.declared.request.TheConstants.{MOST_NAMED};

use crate::frame::WireFault;
use crate::head::Head;
use crate::request::MOST_NAMED;
use kbytes::{List, Reader};
use std::alloc::Global;

/// An item of a list that is read from the left, after this header of the request. `named` counts the partitions that were named so
/// far. An item fits a version where it has -1 for what the version doesn't tell.
pub trait Item<'a>: Drop + Sized {
    ghost layout: { ℤ → Layout };

    ghost fields: { ℤ → Self → Items Field };

    ghost fits: { ℤ → Self → Type 0 };

    fn read(
        alloc: Global,
        reader: &mut Reader<'a>,
        head: Head,
        named: &mut u32,
    ) -> Result<Self, WireFault>
        requires { named.old ≤ MOST_NAMED }
        ensures exact { ReadsItem (fields head.version) named.new reader.new result (layout_at (layout head.version) named.old reader.old) }
        ensures fitting { IfOk result (fits head.version) }
        ensures few { IfOk result (λ _. named.new ≤ MOST_NAMED) };
}

/// The count of an array that isn't null.
pub fn read_count(reader: &mut Reader<'_>) -> Result<u32, WireFault>
    ensures exact { Reads (λ count. Array (Some count)) reader.new result (field_at ARRAY reader.old) }
    ensures small { IfOk result (λ count. count < 2 ^ 31) }
{
    let at = reader.at();
    let Some(count) = reader.array()? else {
        return Err(WireFault::BadRequest { at });
    };
    Ok(count)
}

/// Refuses with `TooMany` exactly where more than 64 topics or partitions are named.
pub fn refuse_many(count: u32) -> Result<(), WireFault>
    ensures exact { result ≡ within count }
    ensures few { IfOk result (λ _. count ≤ MOST_NAMED) }
{
    if count > MOST_NAMED {
        return Err(WireFault::TooMany { count });
    }
    Ok(())
}

/// That many items.
pub fn read_items<'a, T: Item<'a>>(
    alloc: Global,
    reader: &mut Reader<'a>,
    head: Head,
    count: u32,
    named: &mut u32,
) -> Result<List<T>, WireFault>
    requires { named.old ≤ MOST_NAMED }
    ensures exact { ReadsItem (flat_map (T.fields head.version)) named.new reader.new result
        (times_at (layout_at (T.layout head.version)) (layout_at End) count named.old reader.old) }
    ensures fitting { IfOk result (AllByRecursion (T.fits head.version)) }
    ensures whole { IfOk result (λ items. length items ≡ count) }
    ensures few { IfOk result (λ _. named.new ≤ MOST_NAMED) }
{
    let mut items = List::new(alloc);
    for _ in 0..count {
        let item = T::read(alloc, reader, head, named)?;
        items.push(item)?;
    }
    Ok(items)
}
