//! Printing a reply that a session is sent, as a line of hex digits.

ghost use Rattle.std.specs.Prelude.{◌≡◌, ◌≤◌, ◌*◌, ◌∷◌, ◌++◌, [], codes, length, take, OnOk, OnErr};
ghost use Rattle.std.specs.Fmt.{decimal};
ghost use Rattle.hex.specs.Hex.{encode_lower};
ghost use Rattle.trace_file.specs.PrintedLine.{line_of};
ghost use Rattle.trace_file.specs.declared.reply_line.TheConstants.{AT_A_TIME};

use crate::digits::Digits;
use itoa::Buffer;
use kbytes::{Bytes, NoMemory};

// The number of bytes that are written at a time, as twice that many digits.
const AT_A_TIME: usize = 128;

// Writes the digits of the bytes, by the table if there is one.
fn write_digits(table: Option<&Digits>, bytes: &[u8], out: &mut [u8])
    requires { length out.old ≡ 2 * length bytes.now }
    ensures { out.new ≡ encode_lower bytes.now }
{
    match table {
        Some(digits) => digits.write(bytes, out),
        None => {
            let _ = hex::encode_to_slice(bytes, out);
        }
    }
}

// Adds the digits of a few bytes at the end, or none of them.
fn put_part(out: &mut Bytes, part: &[u8], table: Option<&Digits>) -> Result<(), NoMemory>
    requires { length part.now ≤ AT_A_TIME }
    ensures ok { OnOk result (out.new ≡ out.old ++ encode_lower part.now) }
    ensures err { OnErr result (out.new ≡ out.old) }
{
    let mut room = [0; 2 * AT_A_TIME];
    let digits = &mut room[..2 * part.len()];
    write_digits(table, part, &mut *digits);
    out.extend(digits)
}

/// Adds the digits of the bytes at the end, by the table if there is one. If memory runs out, some of them may be there.
pub fn put_hex(out: &mut Bytes, bytes: &[u8], table: Option<&Digits>) -> Result<(), NoMemory>
    ensures ok { OnOk result (out.new ≡ out.old ++ encode_lower bytes.now) }
    ensures front { OnErr result (take (length out.old) out.new ≡ out.old) }
{
    for part in bytes.chunks(AT_A_TIME) {
        put_part(out, part, table)?;
    }
    Ok(())
}

// Adds the line at the end. If memory runs out, a part of it may be there.
fn put_words(
    out: &mut Bytes,
    session: u32,
    frame: &[u8],
    table: Option<&Digits>,
) -> Result<(), NoMemory>
    ensures ok { OnOk result (out.new ≡ out.old ++ line_of (codes "reply" ∷ decimal session ∷ encode_lower frame.now ∷ [])) }
    ensures front { OnErr result (take (length out.old) out.new ≡ out.old) }
{
    let mut buffer = Buffer::new();
    out.extend(b"reply ".as_slice())?;
    out.extend(buffer.format(session).as_bytes())?;
    out.push(b' ')?;
    put_hex(out, frame, table)?;
    out.push(b'\n')?;
    Ok(())
}

// Adds the line at the end, by the table if there is one, or leaves the bytes as they were.
fn put_line_by(
    out: &mut Bytes,
    session: u32,
    frame: &[u8],
    table: Option<&Digits>,
) -> Result<(), NoMemory>
    ensures ok { OnOk result (out.new ≡ out.old ++ line_of (codes "reply" ∷ decimal session ∷ encode_lower frame.now ∷ [])) }
    ensures err { OnErr result (out.new ≡ out.old) }
{
    let before = out.len();
    let put = put_words(out, session, frame, table);
    if put.is_err() {
        out.truncate(before);
    }
    put
}

/// Adds the line `reply S HEX` for a frame that the session is sent. If memory runs out, the bytes are as before.
pub fn put_reply_line(out: &mut Bytes, session: u32, frame: &[u8]) -> Result<(), NoMemory>
    ensures ok { OnOk result (out.new ≡ out.old ++ line_of (codes "reply" ∷ decimal session ∷ encode_lower frame.now ∷ [])) }
    ensures err { OnErr result (out.new ≡ out.old) }
{
    put_line_by(out, session, frame, None)
}

impl Digits {
    /// Adds the line `reply S HEX` for a frame that the session is sent, as [`put_reply_line`] does. If memory runs out, the
    /// bytes are as before.
    pub fn put_reply_line(
        &self,
        out: &mut Bytes,
        session: u32,
        frame: &[u8],
    ) -> Result<(), NoMemory>
        ensures ok { OnOk result (out.new ≡ out.old ++ line_of (codes "reply" ∷ decimal session ∷ encode_lower frame.now ∷ [])) }
        ensures err { OnErr result (out.new ≡ out.old) }
    {
        put_line_by(out, session, frame, Some(self))
    }
}
