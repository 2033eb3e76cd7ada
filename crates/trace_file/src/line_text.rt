//! Writing a line of a trace as text. What is written is read back as that line (`promises`).

ghost use Rattle.std.specs.Prelude.{◌≡◌, ◌∷◌, ◌++◌, [], codes, length, take, nat_lt, if◌then◌else◌, OnOk, OnErr};
ghost use Rattle.std.specs.Fmt.{decimal};
ghost use Rattle.hex.specs.Hex.{encode_lower};
ghost use Rattle.trace_file.specs.PrintedLine.{line_of, least_words, text_of};

use crate::line::Line;
use crate::reply_line::put_hex;
use itoa::Buffer;
use kbytes::{Bytes, NoMemory};

fn put_number(out: &mut Bytes, n: u64) -> Result<(), NoMemory>
    ensures ok { OnOk result (out.new ≡ out.old ++ decimal n) }
    ensures err { OnErr result (out.new ≡ out.old) }
{
    let mut buffer = Buffer::new();
    out.extend(buffer.format(n).as_bytes())?;
    Ok(())
}

// Adds the last word of a topic's line at the end, where there is one, and the line feed. If memory runs out, a part of it
// may be there; that is so for the functions below, too.
fn put_least(out: &mut Bytes, least: u32) -> Result<(), NoMemory>
    ensures ok { OnOk result (out.new ≡ out.old ++ (if nat_lt 1 least then 32 ∷ decimal least else []) ++ 10 ∷ []) }
    ensures front { OnErr result (take (length out.old) out.new ≡ out.old) }
{
    if least > 1 {
        out.push(b' ')?;
        put_number(out, u64::from(least))?;
    }
    out.push(b'\n')?;
    Ok(())
}

// Adds the numbers of a topic's line at the end, and the line feed.
fn put_counts(out: &mut Bytes, partitions: u32, followers: u32, least: u32) -> Result<(), NoMemory>
    ensures ok { OnOk result (out.new ≡ out.old ++ line_of (decimal partitions ∷ decimal followers ∷ least_words least)) }
    ensures front { OnErr result (take (length out.old) out.new ≡ out.old) }
{
    put_number(out, u64::from(partitions))?;
    out.push(b' ')?;
    put_number(out, u64::from(followers))?;
    put_least(out, least)?;
    Ok(())
}

// Adds the line at the end.
fn put_topic(
    out: &mut Bytes,
    name: &[u8],
    partitions: u32,
    followers: u32,
    least: u32,
) -> Result<(), NoMemory>
    ensures ok { OnOk result (out.new ≡ out.old
        ++ line_of (codes "topic" ∷ name.now ∷ decimal partitions ∷ decimal followers ∷ least_words least)) }
    ensures front { OnErr result (take (length out.old) out.new ≡ out.old) }
{
    out.extend(b"topic ".as_slice())?;
    out.extend(name)?;
    out.push(b' ')?;
    put_counts(out, partitions, followers, least)?;
    Ok(())
}

fn put_feed(out: &mut Bytes, session: u32, bytes: &[u8]) -> Result<(), NoMemory>
    ensures ok { OnOk result (out.new ≡ out.old ++ line_of (codes "bytes" ∷ decimal session ∷ encode_lower bytes.now ∷ [])) }
    ensures front { OnErr result (take (length out.old) out.new ≡ out.old) }
{
    out.extend(b"bytes ".as_slice())?;
    put_number(out, u64::from(session))?;
    out.push(b' ')?;
    put_hex(out, bytes, None)?;
    out.push(b'\n')?;
    Ok(())
}

fn put_shut(out: &mut Bytes, session: u32) -> Result<(), NoMemory>
    ensures ok { OnOk result (out.new ≡ out.old ++ line_of (codes "close" ∷ decimal session ∷ [])) }
    ensures front { OnErr result (take (length out.old) out.new ≡ out.old) }
{
    out.extend(b"close ".as_slice())?;
    put_number(out, u64::from(session))?;
    out.push(b'\n')?;
    Ok(())
}

fn put_clock(out: &mut Bytes, t: u64) -> Result<(), NoMemory>
    ensures ok { OnOk result (out.new ≡ out.old ++ line_of (codes "clock" ∷ decimal t ∷ [])) }
    ensures front { OnErr result (take (length out.old) out.new ≡ out.old) }
{
    out.extend(b"clock ".as_slice())?;
    put_number(out, t)?;
    out.push(b'\n')?;
    Ok(())
}

fn put_text(out: &mut Bytes, line: &Line) -> Result<(), NoMemory>
    ensures ok { OnOk result (out.new ≡ out.old ++ text_of line.now) }
    ensures front { OnErr result (take (length out.old) out.new ≡ out.old) }
{
    match line {
        Line::Topic {
            name,
            partitions,
            followers,
            min_insync,
        } => put_topic(out, name.as_slice(), *partitions, *followers, *min_insync),
        Line::Feed { session, bytes } => put_feed(out, *session, bytes.as_slice()),
        Line::Shut { session } => put_shut(out, *session),
        Line::Clock { t } => put_clock(out, *t),
        Line::End => {
            out.extend(b"end\n".as_slice())?;
            Ok(())
        }
    }
}

/// Adds the line's text at the end, with its line feed. If memory runs out, the bytes are as before.
pub fn put_line(out: &mut Bytes, line: &Line) -> Result<(), NoMemory>
    ensures ok { OnOk result (out.new ≡ out.old ++ text_of line.now) }
    ensures err { OnErr result (out.new ≡ out.old) }
{
    let before = out.len();
    let put = put_text(out, line);
    if put.is_err() {
        out.truncate(before);
    }
    put
}
