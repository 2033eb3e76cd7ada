//! Numbers in the text of a trace.

ghost use Rattle.std.specs.Prelude.{◌≡◌, ◌≢◌, ◌≤◌, ◌^◌, ◌<◌, ◌+◌, ◌*◌, ℕ, IfSome, IfNone, OnSome, SomeIff};
ghost use Rattle.std.specs.Char.{digit_value};
ghost use Rattle.std.specs.Fmt.{decimal};
ghost use Rattle.std.specs.Str.Parse.{AllDigits, digits_value};

const ZERO: u8 = b'0';

/// The number that the word is: decimal digits without sign or leading zeros. `None` comes where the word is something else,
/// or the number is above `most`.
pub fn number(word: &[u8], most: u64) -> Option<u64>
    ensures some { IfSome result (λ n. word.now ≡ decimal n) }
    ensures in_range { IfSome result (λ n. n ≤ most) }
    ensures none { IfNone result ((n : ℕ) → n ≤ most → word.now ≢ decimal n) }
{
    if word.is_empty() {
        return None;
    }
    if word.len() > 1 && word[0] == ZERO {
        return None;
    }
    let n = digits(word)?;
    if n <= most { Some(n) } else { None }
}

// The number with one more digit at its end.
fn with_digit(n: u64, c: u8) -> Option<u64>
    ensures { SomeIff result ((digit_value c < 10) × (n * 10 + digit_value c < 2 ^ 64)) (n * 10 + digit_value c) }
{
    if !c.is_ascii_digit() {
        return None;
    }
    n.checked_mul(10)?.checked_add(u64::from(c - b'0'))
}

// The number that decimal digits write, leading zeros included.
fn digits(word: &[u8]) -> Option<u64>
    ensures some { IfSome result (λ n. n ≡ digits_value 10 word.now) }
    ensures digits { OnSome result (AllDigits 10 word.now) }
    ensures none { IfNone result (AllDigits 10 word.now → 2 ^ 64 ≤ digits_value 10 word.now) }
{
    let mut n: u64 = 0;
    for c in word {
        n = with_digit(n, *c)?;
    }
    Some(n)
}
