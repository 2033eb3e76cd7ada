//! Reading the body of a reply to a fetch of one partition, field by field.
ghost use Rattle.std.specs.Prelude.{◌≡◌, ◌≤◌, ◌<◌, ◌^◌, ◌++◌, ℕ, List, length, negsuc, pos, IfErr, IfNone, IfOk, IfSome, OnErr, OnSome, Some};
ghost use Rattle.std.specs.Int.{w32, w64};
ghost use Rattle.kbytes.specs.Cursor.{rest_of};
ghost use Rattle.kbytes.specs.Field.{Int16, Int32, Int64, String, Records, integer, field};
ghost use Rattle.kbytes.specs.Reading.{Spells};
ghost use Rattle.kwire.specs.declared.config.TheConstants.{MOST_NAME_BYTES};
ghost use Rattle.follower.specs.ReplyBody.{Asked, GoesWrongAt, IsReplyBody};
ghost use Rattle.follower.specs.Standing.{HasRead, NoneBegins, head_fields};

use kbytes::Reader;
use std::marker::Model;

/// What a reply tells of the partition. A contract sees it as a `FetchedPart`, with -1 for where the log starts, which the version doesn't
/// tell.
#[derive(Drop)]
pub(crate) struct Told<'a> {
    pub(crate) index: i32,
    pub(crate) code: i16,
    pub(crate) high: i64,
    pub(crate) records: &'a [u8],
}

impl<'a> Model for Told<'a> {
    ghost use Rattle.std.specs.Prelude.{negsuc};
    ghost use Rattle.kwire.specs.declared.reply.FetchedPart.{FetchedPart};

    ghost Value = { FetchedPart };

    ghost view = { λ t. record { index = t.index; code = t.code; high = t.high; start = negsuc 0; records = t.records.now } };
}

// Reads this integer, or answers the place where another field stands.
fn expect_i32(reader: &mut Reader<'_>, value: i32) -> Option<usize>
    ensures read { IfNone result (Spells reader.old reader.new (Int32 value)) }
    ensures place { IfSome result (λ at. at ≡ reader.old.at) }
    ensures none { OnSome result (NoneBegins (rest_of reader.old) (integer w32 value)) }
{
    let at = reader.at();
    match reader.i32() {
        Ok(found) if found == value => None,
        _ => Some(at),
    }
}

fn expect_i64(reader: &mut Reader<'_>, value: i64) -> Option<usize>
    ensures read { IfNone result (Spells reader.old reader.new (Int64 value)) }
    ensures place { IfSome result (λ at. at ≡ reader.old.at) }
    ensures none { OnSome result (NoneBegins (rest_of reader.old) (integer w64 value)) }
{
    let at = reader.at();
    match reader.i64() {
        Ok(found) if found == value => None,
        _ => Some(at),
    }
}

fn expect_string(reader: &mut Reader<'_>, value: &[u8]) -> Option<usize>
    requires short { length value.now ≤ MOST_NAME_BYTES }
    ensures read { IfNone result (Spells reader.old reader.new (String value.now)) }
    ensures place { IfSome result (λ at. at ≡ reader.old.at) }
    ensures none { OnSome result (NoneBegins (rest_of reader.old) (field (String value.now))) }
{
    let at = reader.at();
    match reader.string() {
        Ok(found) if found == value => None,
        _ => Some(at),
    }
}

// Reads records that aren't null, which reply with none has none.
fn next_records<'a>(reader: &mut Reader<'a>) -> Result<&'a [u8], usize>
    ensures read { IfOk result (λ records. Spells reader.old reader.new (Records (Some records.now))) }
    ensures short { IfOk result (λ records. length records.now < 2 ^ 31) }
    ensures place { IfErr result (λ at. at ≡ reader.old.at) }
    ensures none { OnErr result ((records : List ℕ) → length records < 2 ^ 31 → NoneBegins (rest_of reader.old) (field (Records (Some records)))) }
{
    let at = reader.at();
    let Ok(found) = reader.records() else {
        return Err(at);
    };
    let Some(records) = found else {
        return Err(at);
    };
    Ok(records)
}

// Reads the fields up to the partition's index, all of which are known, or answers the place where another field stands.
fn read_head(reader: &mut Reader<'_>, correlation: i32, topic: &[u8], index: i32) -> Option<usize>
    requires start { reader.old.at ≡ 0 }
    requires short { length topic.now ≤ MOST_NAME_BYTES }
    ensures read { IfNone result (HasRead (record { correlation = correlation; topic = topic.now; index = index }) reader.old.bytes
        (head_fields (record { correlation = correlation; topic = topic.now; index = index })) reader.new) }
    ensures wrong { IfSome result (GoesWrongAt (record { correlation = correlation; topic = topic.now; index = index }) reader.old.bytes) }
{
    if let Some(at) = expect_i32(reader, correlation) {
        return Some(at);
    }
    if let Some(at) = expect_i32(reader, 0) {
        return Some(at);
    }
    if let Some(at) = expect_i32(reader, 1) {
        return Some(at);
    }
    if let Some(at) = expect_string(reader, topic) {
        return Some(at);
    }
    if let Some(at) = expect_i32(reader, 1) {
        return Some(at);
    }
    expect_i32(reader, index)
}

// Reads the fields that tell something, up to the end of the body.
fn read_tail<'a>(reader: &mut Reader<'a>, index: i32) -> Result<Told<'a>, usize>
    ensures told { (asked : Asked) (body : List ℕ) → asked.index ≡ index → HasRead asked body (head_fields asked) reader.old
        → IfOk result (IsReplyBody asked body) }
    ensures wrong { (asked : Asked) (body : List ℕ) → HasRead asked body (head_fields asked) reader.old → IfErr result (GoesWrongAt asked body) }
{
    let first = reader.at();
    let Ok(code) = reader.i16() else {
        return Err(first);
    };
    let second = reader.at();
    let Ok(high) = reader.i64() else {
        return Err(second);
    };
    if let Some(at) = expect_i64(reader, high) {
        return Err(at);
    }
    if let Some(at) = expect_i32(reader, -1) {
        return Err(at);
    }
    match next_records(reader) {
        Err(at) => Err(at),
        Ok(_) if !reader.rest().is_empty() => Err(reader.at()),
        Ok(records) => Ok(Told {
            index,
            code,
            high,
            records,
        }),
    }
}

/// What the body of a reply tells of this partition, or the place at which it is none to a request with this correlation id.
pub(crate) fn read_told<'a>(
    correlation: i32,
    topic: &[u8],
    index: i32,
    body: &'a [u8],
) -> Result<Told<'a>, usize>
    requires short { length topic.now ≤ MOST_NAME_BYTES }
    ensures told { IfOk result (IsReplyBody (record { correlation = correlation; topic = topic.now; index = index }) body.now) }
    ensures wrong { IfErr result (GoesWrongAt (record { correlation = correlation; topic = topic.now; index = index }) body.now) }
{
    let mut reader = Reader::new(body);
    if let Some(at) = read_head(&mut reader, correlation, topic, index) {
        return Err(at);
    }
    read_tail(&mut reader, index)
}
