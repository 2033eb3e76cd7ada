//! The words of a line, separated by one space.

ghost use Rattle.std.specs.Prelude.{◌≡◌, ◌≢◌, ◌+◌, ℕ, [], ◌∷◌, IfSome, IfNone, OnSome};
ghost use Rattle.trace_file.specs.IsLine.{words_of};
ghost use Rattle.trace_file.specs.LineFaults.{AreFilled};

use crate::pieces::cut;

/// The word before the first space, and the bytes after it. `None` comes where there is no such word.
pub fn word_before(text: &[u8]) -> Option<(&[u8], &[u8])>
    ensures some { IfSome result (λ p. words_of text.now ≡ p.0.now ∷ words_of p.1.now) }
    ensures filled { IfSome result (λ p. p.0.now ≢ []) }
    ensures none { IfNone result ((n : ℕ) → AreFilled (words_of text.now) (n + 2) → ⊥) }
{
    let (word, rest) = cut(text, b' ')?;
    if word.is_empty() {
        return None;
    }
    Some((word, rest))
}

/// The one word of the bytes. `None` comes where they aren't exactly one word.
pub fn one_word(text: &[u8]) -> Option<&[u8]>
    ensures some { IfSome result (λ word. words_of text.now ≡ word.now ∷ []) }
    ensures all { IfSome result (λ word. word.now ≡ text.now) }
    ensures filled { OnSome result (AreFilled (words_of text.now) 1) }
    ensures none { IfNone result (AreFilled (words_of text.now) 1 → ⊥) }
{
    if text.is_empty() {
        return None;
    }
    match cut(text, b' ') {
        None => Some(text),
        Some(_) => None,
    }
}

// The two words of the bytes, or `None`.
fn two_words(text: &[u8]) -> Option<(&[u8], &[u8])>
    ensures some { IfSome result (λ p. words_of text.now ≡ p.0.now ∷ p.1.now ∷ []) }
    ensures filled { OnSome result (AreFilled (words_of text.now) 2) }
    ensures none { IfNone result (AreFilled (words_of text.now) 2 → ⊥) }
{
    let (first, rest) = word_before(text)?;
    let second = one_word(rest)?;
    Some((first, second))
}

/// The three words of the bytes, or `None`.
pub fn three_words(text: &[u8]) -> Option<(&[u8], &[u8], &[u8])>
    ensures some { IfSome result (λ p. words_of text.now ≡ p.0.now ∷ p.1.now ∷ p.2.now ∷ []) }
    ensures filled { OnSome result (AreFilled (words_of text.now) 3) }
    ensures none { IfNone result (AreFilled (words_of text.now) 3 → ⊥) }
{
    let (first, rest) = word_before(text)?;
    let (second, third) = two_words(rest)?;
    Some((first, second, third))
}

/// The four words of the bytes, or `None`.
pub fn four_words(text: &[u8]) -> Option<(&[u8], &[u8], &[u8], &[u8])>
    ensures some { IfSome result (λ p. words_of text.now ≡ p.0.now ∷ p.1.now ∷ p.2.now ∷ p.3.now ∷ []) }
    ensures filled { OnSome result (AreFilled (words_of text.now) 4) }
    ensures none { IfNone result (AreFilled (words_of text.now) 4 → ⊥) }
{
    let (first, rest) = word_before(text)?;
    let (second, third, fourth) = three_words(rest)?;
    Some((first, second, third, fourth))
}
