//! The front of a text: white space, or a token.
//!
//! One pass over a token's bytes finds its length, its digits and their value. The value stops at one over the grain
//! limit, so it cannot overflow.

ghost use Rattle.std.specs.Prelude.{◌≡◌, ℕ, ◌+◌, ◌*◌, ◌<◌, ◌≤◌, length, take, not, position, true, if◌then◌else◌};
ghost use Rattle.std.specs.List.{position_or_len};
ghost use Rattle.std.specs.Char.{digit_value};
ghost use Rattle.std.specs.Str.Parse.{digits_value};
ghost use Rattle.sand_text.specs.Bytes.{is_digit, is_space, digits_len, token_len, capped, has_large};
ghost use Rattle.sand_model.specs.Piles.{most_grains};

use sand_model::GRAIN_LIMIT;

/// A text up to its first white space.
#[derive(Clone, Copy)]
pub(crate) struct Span {
    /// The number of bytes.
    pub len: usize,
    /// The number of digits at the front.
    pub digits: usize,
    /// The value of these digits, or one over the grain limit if it is larger.
    pub value: u64,
}

fn is_digit(byte: u8) -> bool
    ensures { result ≡ is_digit byte }
{
    byte.is_ascii_digit()
}

fn is_space(byte: u8) -> bool
    ensures { result ≡ is_space byte }
{
    matches!(byte, b'\t' | b'\n' | b'\r' | b' ')
}

// The value after one more digit.
fn grown(value: u64, digit: u8) -> u64
    requires bound { value ≤ most_grains + 1 }
    requires digit { is_digit digit ≡ true }
    ensures { result ≡ capped (value * 10 + digit_value digit) }
{
    (value * 10 + u64::from(digit - b'0')).min(GRAIN_LIMIT + 1)
}

// The index of the first byte that is not white space.
fn token_start(text: &[u8]) -> Option<usize>
    ensures { result ≡ position (λ b. not (is_space b)) text.now }
{
    text.iter().position(|byte| !is_space(*byte))
}

/// The number of bytes of white space at the front.
pub(crate) fn space_len(text: &[u8]) -> usize
    ensures first { result ≡ position_or_len (λ b. not (is_space b)) text.now }
    ensures within { result ≤ length text.now }
{
    token_start(text).unwrap_or(text.len())
}

/// The part of a text up to its first white space.
pub(crate) fn span_of(text: &[u8]) -> Span
    ensures len { result.len ≡ token_len text.now }
    ensures within { result.len ≤ length text.now }
    ensures digits { result.digits ≡ digits_len (take result.len text.now) }
    ensures value { result.value ≡ capped (digits_value 10 (take result.digits text.now)) }
{
    let mut digits = 0;
    let mut value = 0;
    for (len, byte) in text.iter().enumerate() {
        if is_space(*byte) {
            return Span { len, digits, value };
        }
        if is_digit(*byte) && digits == len {
            digits += 1;
            value = grown(value, *byte);
        }
    }
    Span {
        len: text.len(),
        digits,
        value,
    }
}

// The value of the run of digits that ends with a byte. The digits before it have `value`.
fn run_value(value: u64, byte: u8) -> u64
    requires { value ≤ most_grains }
    ensures { result ≡ (if is_digit byte then capped (value * 10 + digit_value byte) else 0) }
{
    if is_digit(byte) {
        grown(value, byte)
    } else {
        0
    }
}

/// Whether a run of digits anywhere in a text is a number over the grain limit.
pub(crate) fn has_large(text: &[u8]) -> bool
    ensures { result ≡ has_large text.now }
{
    let mut value = 0;
    for byte in text {
        value = run_value(value, *byte);
        if value > GRAIN_LIMIT {
            return true;
        }
    }
    false
}
