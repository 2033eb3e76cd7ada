//! Reading a request from the body of a frame: the header by `head`, then the fields of its api by `read_produce`,
//! `read_fetch` or `read_metadata`.

ghost use Rattle.std.specs.Prelude.{true, ◌≡◌, ◌≢◌, ◌≤◌, AllPairs, IfOk, IfErr};
ghost use Rattle.kwire.specs.Apis.{is_read_in, ask_layout};
ghost use Rattle.kwire.specs.IsRequest.{IsRequest, api_of, version_of, ask_fields, AllFitVersion, named_of, topics_named};
ghost use Rattle.kwire.specs.Refusal.{IsRefused};
ghost use Rattle.kwire.specs.Views.{ask_of};
ghost use Rattle.kwire.specs.Reading.{Reads, fields_at, IsReadBody, IsNoBody};
ghost use Rattle.kwire.specs.declared.frame.WireFault.TheVariants.{NoMemory as OutOfMemory};
ghost use Rattle.kwire.specs.declared.request.TheConstants.{MOST_NAMED};

use crate::api::{Api, api_of, is_read_in};
use crate::frame::WireFault;
use crate::head::{Head, read_head};
use crate::read_fetch::read_fetch;
use crate::read_metadata::read_metadata;
use crate::read_produce::read_produce;
use crate::repeats::refuse_repeats;
use crate::request::Request;
use crate::view::{AskView, RequestView};
use kbytes::Reader;
use std::alloc::Global;

// The fields of an api's request, in the version that the header tells.
#[tactic(auto, unfolding(crate::specs::Reading::layout_at))]
fn read_ask<'a>(
    alloc: Global,
    reader: &mut Reader<'a>,
    api: Api,
    head: Head,
) -> Result<AskView<'a>, WireFault>
    requires { is_read_in api head.version ≡ true }
    ensures exact { Reads (λ ask. ask_fields (ask_of ask)) reader.new result (fields_at (ask_layout api head.version) reader.old) }
    ensures asked { IfOk result (λ ask. api_of (ask_of ask) ≡ api) }
    ensures version { IfOk result (λ ask. version_of (ask_of ask) ≡ head.version) }
    ensures fitting { IfOk result (λ ask. AllFitVersion (ask_of ask)) }
    ensures few { IfOk result (λ ask. topics_named (ask_of ask) ≤ MOST_NAMED) }
{
    match api {
        Api::Produce => read_produce(alloc, reader, head),
        Api::Fetch => read_fetch(alloc, reader, head),
        Api::Metadata => read_metadata(alloc, reader, head),
        Api::Versions => Ok(AskView::Versions {
            version: head.version,
        }),
    }
}

// The client's id and the api's fields, and no bytes after them.
fn read_body<'a>(
    alloc: Global,
    mut reader: Reader<'a>,
    api: Api,
    head: Head,
) -> Result<RequestView<'a>, WireFault>
    requires { is_read_in api head.version ≡ true }
    ensures read { IfOk result (λ request. IsReadBody api head.version reader.entry request) }
    ensures correlation { IfOk result (λ request. request.correlation ≡ head.correlation) }
    ensures once { IfOk result (λ request. AllPairs (λ a b. a ≢ b) (named_of request.ask)) }
    ensures refused { IfErr result (λ why. why ≢ OutOfMemory → IsNoBody api head.version head.correlation reader.entry why) }
{
    let client = reader.nullable_string()?;
    let ask = read_ask(alloc, &mut reader, api, head)?;
    if !reader.rest().is_empty() {
        return Err(WireFault::BadRequest { at: reader.at() });
    }
    refuse_repeats(alloc, &ask)?;
    Ok(RequestView {
        correlation: head.correlation,
        client,
        ask,
    })
}

/// The body of a frame as a request, or why it is none. The request borrows its names and records from the body. A refusal
/// is the first fault from the left: the header, the api and its version, the fields, bytes after them, a partition named
/// twice. A request for the api versions in an unknown version is one, whatever comes after its correlation id.
pub fn view_request<'a>(alloc: Global, body: &'a [u8]) -> Result<RequestView<'a>, WireFault>
    ensures request { IfOk result (λ request. IsRequest body.now request) }
    ensures refused { IfErr result (λ why. why ≢ OutOfMemory → IsRefused body.now why) }
{
    let mut reader = Reader::new(body);
    let head = read_head(&mut reader)?;
    let Some(api) = api_of(head.key) else {
        return Err(WireFault::UnknownApi { key: head.key });
    };
    if is_read_in(api, head.version) {
        return read_body(alloc, reader, api, head);
    }
    match api {
        Api::Versions => Ok(RequestView {
            correlation: head.correlation,
            client: None,
            ask: AskView::Versions {
                version: head.version,
            },
        }),
        Api::Produce | Api::Fetch | Api::Metadata => Err(WireFault::Unsupported {
            key: head.key,
            version: head.version,
        }),
    }
}

/// The same, with copies of the names and records.
pub fn read_request(alloc: Global, body: &[u8]) -> Result<Request, WireFault>
    ensures request { IfOk result (λ request. IsRequest body.now request) }
    ensures refused { IfErr result (λ why. why ≢ OutOfMemory → IsRefused body.now why) }
{
    let request = view_request(alloc, body)?;
    let request = request.to_owned(alloc)?;
    Ok(request)
}
