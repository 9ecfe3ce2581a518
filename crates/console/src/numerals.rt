// The numbers of a script, from the bytes of their text.
ghost use Rattle.std.specs.Prelude.{◌≡◌, ◌<◌, IfSome};
ghost use Rattle.console.specs.Numerals.{decimal_digit, decimal_number, hex_digit, hex_word};

const WORD_DIGITS: usize = 8;

/// Eighteen digits stay below 2^63 by far, so no number of a script overflows.
const MOST_DIGITS: usize = 18;

fn hex_digit(b: u8) -> Option<u8>
    ensures value { result ≡ hex_digit b }
    ensures small { IfSome result (λ d. d < 16) }
{
    match b {
        b'0'..=b'9' => Some(b - b'0'),
        b'A'..=b'F' => Some(b - b'A' + 10),
        b'a'..=b'f' => Some(b - b'a' + 10),
        _ => None,
    }
}

/// A word of a table: exactly eight hex digits, in either case.
pub fn hex_word(text: &[u8]) -> Option<u32>
    ensures { result ≡ hex_word text.now }
{
    if text.len() != WORD_DIGITS {
        return None;
    }
    let mut word: u32 = 0;
    for b in text {
        let digit = hex_digit(*b)?;
        word = word * 16 + digit as u32;
    }
    Some(word)
}

fn decimal_digit(b: u8) -> Option<u8>
    ensures value { result ≡ decimal_digit b }
    ensures small { IfSome result (λ d. d < 10) }
{
    match b {
        b'0'..=b'9' => Some(b - b'0'),
        _ => None,
    }
}

/// A count or a number of the script: one to eighteen decimal digits.
pub fn decimal_number(text: &[u8]) -> Option<u64>
    ensures { result ≡ decimal_number text.now }
{
    if text.is_empty() || text.len() > MOST_DIGITS {
        return None;
    }
    let mut number: u64 = 0;
    for b in text {
        let digit = decimal_digit(*b)?;
        number = number * 10 + digit as u64;
    }
    Some(number)
}
