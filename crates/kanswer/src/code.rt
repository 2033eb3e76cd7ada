//! Kafka's error code for each fault of a batch. `put` refuses with it.

ghost use Rattle.std.specs.Prelude.{◌≡◌};
ghost use Rattle.kanswer.specs.Decisions.{code_of};

use kbatch::BatchFault;
use kwire::codes;

/// The protocol's error code for bytes that are no batch (Kafka protocol guide, "Error Codes"). `NoMemory` has none: the
/// answer is `NONE`, and no reply ever has it.
pub fn code_of(fault: &BatchFault) -> i16
    ensures { result ≡ code_of fault.now }
{
    match fault {
        BatchFault::TooLarge { .. } => codes::MESSAGE_TOO_LARGE,
        BatchFault::Crc { .. } => codes::CORRUPT_MESSAGE,
        BatchFault::Compressed { .. } => codes::UNSUPPORTED_COMPRESSION_TYPE,
        BatchFault::NoMemory => codes::NONE,
        BatchFault::Short
        | BatchFault::Length { .. }
        | BatchFault::Magic { .. }
        | BatchFault::Control
        | BatchFault::Count { .. }
        | BatchFault::Records { .. } => codes::INVALID_RECORD,
    }
}
