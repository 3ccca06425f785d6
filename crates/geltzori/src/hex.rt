// Bytes in base 16, two digits to a byte.
ghost use Rattle.std.specs.Prelude.{◌≡◌, ◌<◌, Some};
ghost use Rattle.std.specs.Char.{digit_char};
ghost use Rattle.std.specs.Fmt.{WritesOnOk};
ghost use Rattle.geltzori.specs.Words.{ReadsBack, digit_of, hex_of, pair_of};

use crate::faults::Flaw;
use std::alloc::Global;
use std::fmt;

pub fn hex_bytes(heap: Global, words: &[&str]) -> Result<Vec<u8>, Flaw> {
    let mut bytes = Vec::new(heap);
    for word in words {
        push_hex(&mut bytes, word.as_bytes())?;
    }
    Ok(bytes)
}

// The digits of a word, behind the bytes of those before it; the crate `hex` would make a list for each word.
fn push_hex(bytes: &mut Vec<u8>, digits: &[u8]) -> Result<(), Flaw> {
    let (pairs, []) = digits.as_chunks::<2>() else {
        return Err(Flaw::Unreadable);
    };
    for [high, low] in pairs {
        bytes.push(hex_byte(*high, *low).ok_or(Flaw::Unreadable)?)?;
    }
    Ok(())
}

// The byte of two hex digits of either case.
fn hex_byte(high: u8, low: u8) -> Option<u8>
    ensures { result ≡ pair_of high low }
{
    Some(16 * hex_digit(high)? + hex_digit(low)?)
}

fn hex_digit(digit: u8) -> Option<u8>
    ensures { result ≡ digit_of digit }
{
    char::from(digit).to_digit(16).map(|value| value as u8)
}

// Writes bytes in lower case digits, straight to the output: no text of them is kept, and none of the padding that `{:02x}` goes through for each byte.
pub fn write_hex<W: fmt::Write>(bytes: &[u8], f: &mut fmt::Formatter<W>) -> fmt::Result
    ensures written { WritesOnOk W.write_str_gives f.old result (hex_of bytes.now) f.new }
    ensures back { ReadsBack }
{
    for byte in bytes {
        f.write_char(digit_of(*byte / 16))?;
        f.write_char(digit_of(*byte % 16))?;
    }
    Ok(())
}

// In lower case. The library's `from_digit` gives an `Option`, as it takes any number.
fn digit_of(value: u8) -> char
    requires { value < 16 }
    ensures digit { result ≡ digit_char value }
    ensures back { digit_of result ≡ Some value }
{
    if value < 10 {
        (b'0' + value) as char
    } else {
        (b'a' + value - 10) as char
    }
}
