ghost use Rattle.std.specs.Prelude.{◌≡◌, ◌≢◌, [], MatchOption, option_map};
ghost use Rattle.std.specs.List.{All};
ghost use Rattle.scans.specs.Lines.{CutAt, number_in, said_by};
ghost use Rattle.scans.specs.Texts.{pieces_from, position_of, said};

use voxels::Position;

// What a line says: where the scan stood, a return line's end and whether something was hit there, or that no line follows.
#[derive(Clone, Copy)]
pub enum Line {
    Origin(Position),
    Return { hit: bool, end: Position },
    End,
}

const MOST_DIGITS: usize = 4;

// What stands before the first such byte, and what behind it. The standard library has it for text alone. The crate `bstr` has it for bytes, but cut at a string, and its contract speaks of that string's matches: more to read, and to prove, than a byte that is found.
pub fn split_once(bytes: &[u8], byte: u8) -> Option<(&[u8], &[u8])>
    ensures { MatchOption result (All (λ b. b ≢ byte) bytes.now) (λ parts. CutAt byte bytes.now parts.0.now parts.1.now) }
{
    let at = bytes.iter().position(|b| *b == byte)?;
    Some((&bytes[..at], &bytes[at + 1..]))
}

// What the bytes of a line say, without its line feed; none where that is no line of a scan.
pub fn line_of(bytes: &[u8]) -> Option<Line>
    ensures { said bytes.now ≡ option_map said_by result }
{
    let (letter, numbers) = bytes.split_first()?;
    match letter {
        b'O' => position(numbers).map(Line::Origin),
        b'H' => position(numbers).map(|end| Line::Return { hit: true, end }),
        b'F' => position(numbers).map(|end| Line::Return { hit: false, end }),
        b'E' if numbers.is_empty() => Some(Line::End),
        _ => None,
    }
}

// Three numbers, each after one space.
fn position(numbers: &[u8]) -> Option<Position>
    ensures { result ≡ position_of (pieces_from 32 [] numbers.now) }
{
    let numbers = numbers.strip_prefix(b" ")?;
    let (x, rest) = split_once(numbers, b' ')?;
    let (y, z) = split_once(rest, b' ')?;
    Some(Position {
        x: number(x)?,
        y: number(y)?,
        z: number(z)?,
    })
}

// 0, or up to four digits that do not begin with 0. The library's `parse` would take a sign and leading zeros too.
fn number(digits: &[u8]) -> Option<u16>
    ensures { result ≡ number_in digits.now }
{
    if digits.len() > MOST_DIGITS {
        return None;
    }
    if let [] | [b'0', _, ..] = digits {
        return None;
    }
    let mut value = 0;
    for digit in digits {
        if !digit.is_ascii_digit() {
            return None;
        }
        value = 10 * value + u16::from(*digit - b'0');
    }
    Some(value)
}
