//! Reading one line, by its words alone. Whether it may come at its place is for `order`.

ghost use Rattle.std.specs.Prelude.{◌≡◌, ◌≢◌, ◌≤◌, ℕ, List, [], ◌∷◌, codes, Ok, IfOk, IfErr, IfSome, IfNone};
ghost use Rattle.std.specs.Fmt.{decimal};
ghost use Rattle.hex.specs.Hex.{decode_of};
ghost use Rattle.trace_file.specs.declared.line.LineKind.TheVariants as kinds;
ghost use Rattle.trace_file.specs.IsLine.{words_of, AreWordsOf, IsLine};
ghost use Rattle.trace_file.specs.LineFaults.{AreFilled, IsWordsFault, IsLineFault};
ghost use Rattle.trace_file.specs.Refusals.{Tells};

use crate::digit_values::DigitValues;
use crate::line::{LAST_MOMENT, LAST_SESSION, Line, LineKind, MOST_NUMBER};
use crate::number::number;
use crate::pieces::cut;
use crate::refusal::Refusal;
use crate::words::{four_words, one_word, three_words, word_before};
use kbytes::{Bytes, copied};
use std::alloc::Global;

// A number of at most 32 bits.
fn small(word: &[u8], most: u32) -> Option<u32>
    ensures some { IfSome result (λ n. word.now ≡ decimal n) }
    ensures in_range { IfSome result (λ n. n ≤ most) }
    ensures none { IfNone result ((n : ℕ) → n ≤ most → word.now ≢ decimal n) }
{
    let n = number(word, u64::from(most))?;
    Some(n as u32)
}

// `NAME PARTITIONS FOLLOWERS`
fn short_topic(alloc: Global, rest: &[u8]) -> Result<Line, Refusal>
    requires { AreFilled (words_of rest.now) 4 → ⊥ }
    ensures line { IfOk result (AreWordsOf (codes "topic" ∷ words_of rest.now)) }
    ensures fault { IfErr result (λ e. Tells e (IsWordsFault (codes "topic" ∷ words_of rest.now))) }
{
    let Some((name, partitions, followers)) = three_words(rest) else {
        return Err(Refusal::Bad(LineKind::Form));
    };
    let Some(partitions) = small(partitions, MOST_NUMBER) else {
        return Err(Refusal::Bad(LineKind::Number));
    };
    let Some(followers) = small(followers, MOST_NUMBER) else {
        return Err(Refusal::Bad(LineKind::Number));
    };
    let name = copied(alloc, name)?;
    Ok(Line::Topic {
        name,
        partitions,
        followers,
        min_insync: 1,
    })
}

// `NAME PARTITIONS FOLLOWERS` or `NAME PARTITIONS FOLLOWERS MIN`
fn topic(alloc: Global, rest: &[u8]) -> Result<Line, Refusal>
    ensures line { IfOk result (AreWordsOf (codes "topic" ∷ words_of rest.now)) }
    ensures fault { IfErr result (λ e. Tells e (IsWordsFault (codes "topic" ∷ words_of rest.now))) }
{
    let Some((name, partitions, followers, least)) = four_words(rest) else {
        return short_topic(alloc, rest);
    };
    let Some(partitions) = small(partitions, MOST_NUMBER) else {
        return Err(Refusal::Bad(LineKind::Number));
    };
    let Some(followers) = small(followers, MOST_NUMBER) else {
        return Err(Refusal::Bad(LineKind::Number));
    };
    let Some(min_insync) = small(least, MOST_NUMBER) else {
        return Err(Refusal::Bad(LineKind::Number));
    };
    let name = copied(alloc, name)?;
    Ok(Line::Topic {
        name,
        partitions,
        followers,
        min_insync,
    })
}

// The bytes that the hex digits are.
fn decoded(alloc: Global, values: &DigitValues, digits: &[u8]) -> Result<Bytes, Refusal>
    ensures bytes { IfOk result (λ bytes. decode_of digits.now ≡ Ok bytes) }
    ensures fault { IfErr result (λ e. Tells e (λ kind. (kind ≡ kinds.Hex)
        × ((bytes : List ℕ) → decode_of digits.now ≢ Ok bytes))) }
{
    if digits.len() % 2 == 1 {
        return Err(Refusal::Bad(LineKind::Hex));
    }
    let Ok(mut bytes) = vec![in alloc; 0u8; digits.len() / 2] else {
        return Err(Refusal::NoMemory);
    };
    if !values.decode(digits, bytes.as_mut_slice()) {
        return Err(Refusal::Bad(LineKind::Hex));
    }
    Ok(Bytes::from(bytes))
}

// What is wrong with `S HEX` where the digits weren't decoded.
fn unread(session: &[u8], digits: &[u8], why: Refusal) -> Refusal
    requires named { session.now ≢ [] }
    requires why { Tells why (λ kind. (kind ≡ kinds.Hex) × ((bytes : List ℕ) → decode_of digits.now ≢ Ok bytes)) }
    ensures { Tells result (IsWordsFault (codes "bytes" ∷ session.now ∷ words_of digits.now)) }
{
    match one_word(digits) {
        None => Refusal::Bad(LineKind::Form),
        Some(_) => match small(session, LAST_SESSION) {
            None => Refusal::Bad(LineKind::Number),
            Some(_) => why,
        },
    }
}

// `S HEX`. What is decoded has no space, so the digits aren't searched for one before.
fn feed(alloc: Global, values: &DigitValues, rest: &[u8]) -> Result<Line, Refusal>
    ensures line { IfOk result (AreWordsOf (codes "bytes" ∷ words_of rest.now)) }
    ensures fault { IfErr result (λ e. Tells e (IsWordsFault (codes "bytes" ∷ words_of rest.now))) }
{
    let Some((session, digits)) = word_before(rest) else {
        return Err(Refusal::Bad(LineKind::Form));
    };
    if digits.is_empty() {
        return Err(Refusal::Bad(LineKind::Form));
    }
    let bytes = match decoded(alloc, values, digits) {
        Ok(bytes) => bytes,
        Err(why) => return Err(unread(session, digits, why)),
    };
    let Some(session) = small(session, LAST_SESSION) else {
        return Err(Refusal::Bad(LineKind::Number));
    };
    Ok(Line::Feed { session, bytes })
}

// `S`
fn shut(rest: &[u8]) -> Result<Line, Refusal>
    ensures line { IfOk result (AreWordsOf (codes "close" ∷ words_of rest.now)) }
    ensures fault { IfErr result (λ e. Tells e (IsWordsFault (codes "close" ∷ words_of rest.now))) }
{
    let Some(session) = one_word(rest) else {
        return Err(Refusal::Bad(LineKind::Form));
    };
    match small(session, LAST_SESSION) {
        Some(session) => Ok(Line::Shut { session }),
        None => Err(Refusal::Bad(LineKind::Number)),
    }
}

// `T`
fn clock(rest: &[u8]) -> Result<Line, Refusal>
    ensures line { IfOk result (AreWordsOf (codes "clock" ∷ words_of rest.now)) }
    ensures fault { IfErr result (λ e. Tells e (IsWordsFault (codes "clock" ∷ words_of rest.now))) }
{
    let Some(moment) = one_word(rest) else {
        return Err(Refusal::Bad(LineKind::Form));
    };
    match number(moment, LAST_MOMENT) {
        Some(t) => Ok(Line::Clock { t }),
        None => Err(Refusal::Bad(LineKind::Number)),
    }
}

// A line of one word.
fn lone(word: &[u8]) -> Result<Line, Refusal>
    ensures line { IfOk result (AreWordsOf (word.now ∷ [])) }
    ensures fault { IfErr result (λ e. Tells e (IsWordsFault (word.now ∷ []))) }
{
    if word == b"end".as_slice() {
        return Ok(Line::End);
    }
    if word == b"topic".as_slice()
        || word == b"bytes".as_slice()
        || word == b"close".as_slice()
        || word == b"clock".as_slice()
    {
        return Err(Refusal::Bad(LineKind::Form));
    }
    Err(Refusal::Bad(LineKind::Word))
}

/// Reads a line, given without its line feed, or answers what is wrong with its text.
pub fn read_line(alloc: Global, values: &DigitValues, piece: &[u8]) -> Result<Line, Refusal>
    ensures line { IfOk result (IsLine piece.now) }
    ensures fault { IfErr result (λ e. Tells e (IsLineFault piece.now)) }
{
    let Some((kind, rest)) = cut(piece, b' ') else {
        return lone(piece);
    };
    if kind == b"bytes".as_slice() {
        return feed(alloc, values, rest);
    }
    if kind == b"topic".as_slice() {
        return topic(alloc, rest);
    }
    if kind == b"close".as_slice() {
        return shut(rest);
    }
    if kind == b"clock".as_slice() {
        return clock(rest);
    }
    if kind == b"end".as_slice() {
        return Err(Refusal::Bad(LineKind::Form));
    }
    Err(Refusal::Bad(LineKind::Word))
}
