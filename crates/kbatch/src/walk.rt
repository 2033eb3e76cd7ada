//! Finding where the parts of a record begin and end, from the left. Nothing is copied: `read` only checks with it,
//! `decode` copies the parts that it finds.

ghost use Rattle.std.specs.Option.{option_copied};
ghost use Rattle.kbatch.specs.Walk.{Gives, after_varint, after_varlong, after_int8, part_at, key_at, value_at, header_at, parts_at, after_header, after_headers, after_body, after_record};

use kbytes::Reader;

/// A record's parts; its headers are still bytes.
#[derive(Clone, Copy)]
pub(crate) struct Parts<'a> {
    pub(crate) attributes: i8,
    pub(crate) time: i64,
    delta: i32,
    pub(crate) key: Option<&'a [u8]>,
    pub(crate) value: Option<&'a [u8]>,
    pub(crate) count: u32,
    pub(crate) headers: &'a [u8],
}

#[tactic(auto, unfolding(crate::specs::Walk::after_varint))]
pub(crate) fn after_varint(bytes: &[u8]) -> Option<(i32, &[u8])>
    ensures { Gives (λ x. (x.0, x.1.now)) result (after_varint bytes.now) }
{
    let mut reader = Reader::new(bytes);
    match reader.varint() {
        Ok(value) => Some((value, reader.rest())),
        Err(_) => None,
    }
}

#[tactic(auto, unfolding(crate::specs::Walk::after_varlong))]
pub(crate) fn after_varlong(bytes: &[u8]) -> Option<(i64, &[u8])>
    ensures { Gives (λ x. (x.0, x.1.now)) result (after_varlong bytes.now) }
{
    let mut reader = Reader::new(bytes);
    match reader.varlong() {
        Ok(value) => Some((value, reader.rest())),
        Err(_) => None,
    }
}

#[tactic(auto, unfolding(crate::specs::Walk::after_int8))]
fn after_int8(bytes: &[u8]) -> Option<(i8, &[u8])>
    ensures { Gives (λ x. (x.0, x.1.now)) result (after_int8 bytes.now) }
{
    let mut reader = Reader::new(bytes);
    match reader.i8() {
        Ok(value) => Some((value, reader.rest())),
        Err(_) => None,
    }
}

#[tactic(auto, unfolding(crate::specs::Walk::part_at))]
fn part_at(count: usize, bytes: &[u8]) -> Option<(&[u8], &[u8])>
    ensures { Gives (λ x. (x.0.now, x.1.now)) result (part_at count bytes.now) }
{
    if bytes.len() < count {
        return None;
    }
    Some(bytes.split_at(count))
}

#[tactic(auto, unfolding(crate::specs::Walk::key_at))]
pub(crate) fn key_at(bytes: &[u8]) -> Option<(&[u8], &[u8])>
    ensures { Gives (λ x. (x.0.now, x.1.now)) result (key_at bytes.now) }
{
    let (len, rest) = after_varint(bytes)?;
    if len < 0 {
        return None;
    }
    part_at(len as usize, rest)
}

// A value, or a record's key: null has the length -1.
#[tactic(auto, unfolding(crate::specs::Walk::value_at))]
fn value_at(bytes: &[u8]) -> Option<(Option<&[u8]>, &[u8])>
    ensures { Gives (λ x. (option_copied x.0, x.1.now)) result (value_at bytes.now) }
{
    let (len, rest) = after_varint(bytes)?;
    if len == -1 {
        return Some((None, rest));
    }
    if len < 0 {
        return None;
    }
    let (part, rest) = part_at(len as usize, rest)?;
    Some((Some(part), rest))
}

#[tactic(auto, unfolding(crate::specs::Walk::parts_at))]
pub(crate) fn parts_at(bytes: &[u8]) -> Option<Parts<'_>>
    ensures { Gives (λ p. record { attributes = p.attributes; time = p.time; delta = p.delta; key = option_copied p.key; value = option_copied p.value; count = p.count; headers = p.headers.now }) result (parts_at bytes.now) }
{
    let (attributes, time) = after_int8(bytes)?;
    let (time, delta) = after_varlong(time)?;
    let (delta, key) = after_varint(delta)?;
    let (key, value) = value_at(key)?;
    let (value, counted) = value_at(value)?;
    let (count, headers) = after_varint(counted)?;
    if count < 0 {
        return None;
    }
    Some(Parts {
        attributes,
        time,
        delta,
        key,
        value,
        count: count as u32,
        headers,
    })
}

// A header's key and value, and the bytes after them.
#[tactic(auto, unfolding(crate::specs::Walk::header_at))]
pub(crate) fn header_at(bytes: &[u8]) -> Option<(&[u8], Option<&[u8]>, &[u8])>
    ensures { Gives (λ x. (record { key = x.0.now; value = option_copied x.1 }, x.2.now)) result (header_at bytes.now) }
{
    let (key, rest) = key_at(bytes)?;
    let (value, rest) = value_at(rest)?;
    Some((key, value, rest))
}

#[tactic(auto, unfolding(crate::specs::Walk::after_header))]
fn after_header(bytes: &[u8]) -> Option<&[u8]>
    ensures { Gives (λ rest. rest.now) result (after_header bytes.now) }
{
    let (_, _, rest) = header_at(bytes)?;
    Some(rest)
}

fn after_headers(count: u32, bytes: &[u8]) -> Option<&[u8]>
    ensures { Gives (λ rest. rest.now) result (after_headers count bytes.now) }
{
    let mut rest = bytes;
    for _ in 0..count {
        rest = after_header(rest)?;
    }
    Some(rest)
}

#[tactic(auto, unfolding(crate::specs::Walk::after_body))]
fn after_body(delta: u32, bytes: &[u8]) -> Option<&[u8]>
    ensures { Gives (λ rest. rest.now) result (after_body delta bytes.now) }
{
    let parts = parts_at(bytes)?;
    if i64::from(parts.delta) != i64::from(delta) {
        return None;
    }
    after_headers(parts.count, parts.headers)
}

#[tactic(auto, unfolding(crate::specs::Walk::after_record))]
pub(crate) fn after_record(delta: u32, bytes: &[u8]) -> Option<&[u8]>
    ensures { Gives (λ rest. rest.now) result (after_record delta bytes.now) }
{
    let (body, rest) = key_at(bytes)?;
    if !after_body(delta, body)?.is_empty() {
        return None;
    }
    Some(rest)
}
