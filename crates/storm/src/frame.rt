//! The frame of the first request of a kind.

ghost use Rattle.std.specs.Prelude.{◌≡◌, IfOk};
ghost use Rattle.storm.specs.Formed.{frame_with};
ghost use Rattle.storm.specs.Sendable.{IsSendable};

use kbytes::{Bytes, NoMemory};
use kwire::{Ask, Request, request_bytes};
use std::alloc::Global;

/// The frame of a request with the number 0.
pub(crate) fn first_frame(alloc: Global, ask: Ask) -> Result<Bytes, NoMemory>
    requires { IsSendable 0 ask }
    ensures { IfOk result (λ frame. frame ≡ frame_with 0 ask) }
{
    let request = Request {
        correlation: 0,
        client: None,
        ask,
    };
    request_bytes(alloc, &request)
}
