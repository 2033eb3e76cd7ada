//! A law of decisions. It does nothing.
ghost use Rattle.std.specs.Prelude.{ℕ, List};
ghost use Rattle.kbytes.specs.Octets.{IsBytes};
ghost use Rattle.kanswer.specs.Decisions.{Decides, Decision};
ghost use Rattle.kwire.specs.Configuration.{Configuration};
ghost use Rattle.kwire.specs.IsRequest.{IsRequest};
ghost use Rattle.kwire.specs.declared.request.Request.{Request};

/// Law: something is decided of every request that was read from bytes.
pub fn requests_are_decided()
    ensures { (config : Configuration) (body : List ℕ) (request : Request) → IsBytes body → IsRequest body request
        → (decisions : List Decision) × Decides config request.ask decisions }
{}
