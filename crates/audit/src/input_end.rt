ghost use Rattle.std.specs.Prelude.{◌≡◌, true, length, Some};
ghost use Rattle.audit.specs.declared.account.Transcript.{Transcript};
ghost use Rattle.audit.specs.Fits.{EndFits, end_of_input};
ghost use Rattle.audit.specs.RunOf.{IsTraceEnd};
ghost use Rattle.kwire.specs.declared.frame.Frame.TheVariants.{NotYet};
ghost use Rattle.kwire.specs.Frames.{next_frame_of};

use crate::account::SessionEnd;

/// How a session ends whose input ended, and left these bytes, which are less than a frame.
pub fn end_of_input(left: &[u8]) -> SessionEnd
    requires { next_frame_of left.now ≡ NotYet }
    ensures end { result ≡ end_of_input (length left.now) }
    ensures fits { (transcript : Transcript) → EndFits left.now true transcript (Some result) }
    ensures played { IsTraceEnd (Some result) }
{
    if left.is_empty() {
        SessionEnd::Closed
    } else {
        SessionEnd::Truncated {
            got: left.len() as u32,
        }
    }
}
