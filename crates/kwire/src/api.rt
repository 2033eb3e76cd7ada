//! The apis that the broker answers, with their keys and versions: `body` finds the api of a request by them, and
//! `put_metadata` lists them.

ghost use Rattle.std.specs.Prelude.{◌≡◌, ◌≢◌, IsNone, IfSome};
ghost use Rattle.kwire.specs.declared.api.Api.{Api as AnApi};
ghost use Rattle.kwire.specs.Apis.{key_of_api, versions_of_api, is_read_in, has_log_start};
ghost use Rattle.kwire.specs.IsRequest.{api_of as api_of_ask};

use crate::request::Ask;

/// An api of the broker.
#[derive(Clone, Copy, PartialEq, Eq)]
pub enum Api {
    Produce,
    Fetch,
    Metadata,
    Versions,
}

/// The versions of an api that are read whole: these two, and those between them.
#[derive(Clone, Copy, PartialEq, Eq)]
pub struct VersionRange {
    pub least: i16,
    pub greatest: i16,
}

/// The first version in which a fetch, its reply and the reply to a produce tell where a log starts (Kafka protocol guide:
/// Produce v5, Fetch v5).
pub const LOG_START_VERSION: i16 = 5;

/// The api with this key, and `None` exactly where there is none.
pub fn api_of(key: i16) -> Option<Api>
    ensures some { IfSome result (λ api. key ≡ key_of_api api) }
    ensures none { IsNone result → (api : AnApi) → key ≢ key_of_api api }
{
    match key {
        0 => Some(Api::Produce),
        1 => Some(Api::Fetch),
        3 => Some(Api::Metadata),
        18 => Some(Api::Versions),
        _ => None,
    }
}

/// The versions of an api that are read whole.
pub fn versions_of(api: Api) -> VersionRange
    ensures { result ≡ versions_of_api api }
{
    let (least, greatest) = match api {
        Api::Produce => (3, 5),
        Api::Fetch => (4, 5),
        Api::Metadata => (1, 1),
        Api::Versions => (0, 0),
    };
    VersionRange { least, greatest }
}

/// Whether an api is read whole in this version.
pub fn is_read_in(api: Api, version: i16) -> bool
    ensures { result ≡ is_read_in api version }
{
    let versions = versions_of(api);
    versions.least <= version && version <= versions.greatest
}

/// Whether this version of a produce or a fetch tells where a log starts.
pub fn has_log_start(version: i16) -> bool
    ensures { result ≡ has_log_start version }
{
    LOG_START_VERSION <= version
}

/// The api of a request.
pub fn asked_api(ask: &Ask) -> Api
    ensures { result ≡ api_of_ask ask.now }
{
    match ask {
        Ask::Produce { .. } => Api::Produce,
        Ask::Fetch { .. } => Api::Fetch,
        Ask::Metadata { .. } => Api::Metadata,
        Ask::Versions { .. } => Api::Versions,
    }
}

/// The key of an api.
pub fn key_of(api: Api) -> i16
    ensures { result ≡ key_of_api api }
{
    match api {
        Api::Produce => 0,
        Api::Fetch => 1,
        Api::Metadata => 3,
        Api::Versions => 18,
    }
}
