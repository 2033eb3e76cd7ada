//! Cutting a stream into frames. A broker asks for the next frame whenever bytes have come in or a request is answered.

ghost use Rattle.std.specs.Prelude.{◌≡◌};
ghost use Rattle.kwire.specs.Frames.{next_frame_of};

use crate::frame::Frame;

/// The most bytes that may follow the size of a frame.
pub const MOST_FRAME_BYTES: u32 = 8_388_608;

/// What is at the front of these bytes. A frame is the four bytes of a size and a body of that size. It answers `TooLong`
/// as soon as the four bytes of a size below 0 or above 8,388,608 are there.
pub fn next_frame(bytes: &[u8]) -> Frame
    ensures { result ≡ next_frame_of bytes.now }
{
    if bytes.len() < 4 {
        return Frame::NotYet;
    }
    let size = i32::from_be_bytes([bytes[0], bytes[1], bytes[2], bytes[3]]);
    if size < 0 || size as u32 > MOST_FRAME_BYTES {
        return Frame::TooLong { size };
    }
    let end = 4 + size as usize;
    if bytes.len() < end {
        return Frame::NotYet;
    }
    Frame::Whole { end }
}
