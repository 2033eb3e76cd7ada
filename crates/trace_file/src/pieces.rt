//! Cutting bytes at a byte: a text at its line feeds here, a line at its spaces in `words`.

ghost use Rattle.std.specs.Prelude.{◌≡◌, ◌<◌, ◌==◌, [], ◌∷◌, length, IfSome, IfNone, MatchOption};
ghost use Rattle.std.specs.List.{slice_split};
ghost use Rattle.trace_file.specs.Trace.{pieces_of};

use memchr::memchr;

/// The bytes before the first such byte, and those after it. `None` comes where there is no such byte.
pub fn cut(text: &[u8], byte: u8) -> Option<(&[u8], &[u8])>
    ensures front { IfSome result (λ p. slice_split (λ c. c == byte) text.now ≡ p.0.now ∷ slice_split (λ c. c == byte) p.1.now) }
    ensures whole { IfNone result (slice_split (λ c. c == byte) text.now ≡ text.now ∷ []) }
    ensures shorter { IfSome result (λ p. length p.1.now < length text.now) }
{
    match memchr(byte, text) {
        Some(at) => Some((&text[..at], &text[at + 1..])),
        None => None,
    }
}

/// The first line of a text, without its line feed, and the text after it. `None` comes where no line is left.
pub fn next_piece(text: &[u8]) -> Option<(&[u8], &[u8])>
    ensures piece { MatchOption result (text.now ≡ []) (λ p. pieces_of text.now ≡ p.0.now ∷ pieces_of p.1.now) }
    ensures shorter { IfSome result (λ p. length p.1.now < length text.now) }
{
    if text.is_empty() {
        return None;
    }
    match cut(text, b'\n') {
        Some((piece, after)) => Some((piece, after)),
        None => Some((text, &text[text.len()..])),
    }
}
