//! Numbers as a script spells them: digits of lower case, without a leading zero.
ghost use Rattle.std.specs.Prelude.{◌≡◌, ◌<◌, ◌≤◌, ◌^◌, [], ◌∷◌, IfSome, IsSome, Some, is_some};
ghost use Rattle.trace_text.specs.ScriptReading.{byte_of, count_of, digit_of, digits_read, spelled_number};

// Every address lies below it, and all other numbers of a script are smaller.
const NUMBER_LIMIT: u64 = 0x1_0000_0000_0000;

/// The number that the token spells in a base of at most 16. It lies below 2 ^ 48.
pub(crate) fn number(token: &[u8], base: u64) -> Option<u64>
    requires { base ≤ 16 }
    ensures value { result ≡ spelled_number base token.now }
    ensures below { IfSome result (λ number. number < 2 ^ 48) }
{
    match token {
        [] | [b'0', _, ..] => None,
        _ => digits(token, base),
    }
}

/// The decimal number that the token spells, if it has 32 bits.
#[tactic(auto, unfolding(crate::specs::ScriptReading::count_of))]
pub(crate) fn count(token: &[u8]) -> Option<u32>
    ensures { result ≡ count_of token.now }
{
    let number = number(token, 10)?;
    u32::try_from(number).ok()
}

// A token of a thousand digits is left as soon as its number is too large.
fn digits(token: &[u8], base: u64) -> Option<u64>
    requires { base ≤ 16 }
    ensures value { result ≡ digits_read base 0 token.now }
    ensures below { IfSome result (λ number. number < 2 ^ 48) }
{
    let mut number = 0;
    for byte in token {
        let digit = digit(*byte)?;
        number = number * base + digit;
        if digit >= base || number >= NUMBER_LIMIT {
            return None;
        }
    }
    Some(number)
}

// Numbers are short, and most of their digits are below ten: two tests cost less than one that has
// no branch.
fn digit(byte: u8) -> Option<u64>
    ensures value { result ≡ digit_of byte }
    ensures below { IfSome result (λ digit. digit < 16) }
{
    match byte {
        b'0'..=b'9' => Some(u64::from(byte - b'0')),
        b'a'..=b'f' => Some(u64::from(byte - b'a' + 10)),
        _ => None,
    }
}

/// The byte that two digits spell.
pub(crate) fn byte(token: &[u8]) -> Option<u8>
    ensures { result ≡ byte_of token.now }
{
    match token {
        [high, low] => pair(*high, *low),
        _ => None,
    }
}

/// The byte of a pair of digits.
fn pair(high: u8, low: u8) -> Option<u8>
    ensures { result ≡ byte_of (high ∷ low ∷ []) }
{
    are_digits(high, low).then(|| byte_spelled(high, low))
}

/// Whether both are digits.
pub(crate) fn are_digits(high: u8, low: u8) -> bool
    ensures { result ≡ is_some (byte_of (high ∷ low ∷ [])) }
{
    is_digit(high) & is_digit(low)
}

/// The byte that two digits spell, and any byte where they are none.
pub(crate) fn byte_spelled(high: u8, low: u8) -> u8
    ensures { IfSome (byte_of (high ∷ low ∷ [])) (λ byte. result ≡ byte) }
{
    value(high).wrapping_mul(16).wrapping_add(value(low))
}

// In bytes both kinds of digits come in any order, so that a branch here would be guessed wrong:
// this test and the value have none.
fn is_digit(byte: u8) -> bool
    ensures { result ≡ is_some (digit_of byte) }
{
    (b'0' <= byte && byte <= b'9') | (b'a' <= byte && byte <= b'f')
}

// The value of a digit, and any number where the byte is none.
fn value(byte: u8) -> u8
    ensures value { IfSome (digit_of byte) (λ digit. result ≡ digit) }
    ensures below { IsSome (digit_of byte) → result < 16 }
{
    byte % 16 + 9 * (byte / 64)
}
