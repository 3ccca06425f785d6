// The calls of a session, and how a line is read.
ghost use Rattle.std.specs.Prelude.{◌≡◌, ◌≤◌, IfOk, Ok};
ghost use Rattle.geltzori.specs.Words.{saturated, until_hash};

use crate::faults::{Flaw, Line};
use crate::hex::hex_bytes;
use std::alloc::{AllocError, Global};
use std::fs;
use std::rt::Files;
use std::str::FromStr;
use voxels::{Cell, Event};

#[derive(Drop)]
pub enum Command<'a> {
    Unit { depth: u8 },
    Mask(Vec<u8>),
    Call(Call<'a>),
    // A scan whose text is in the lines that follow.
    Scan,
}

// A call on a store that was set up. The whole session is read before any call is carried out, so a call is kept as a value.
#[derive(Drop)]
pub enum Call<'a> {
    Set { index: usize, value: Cell },
    Event { index: usize, event: Event },
    Read { index: usize },
    Clear,
    Show,
    Page { words: usize },
    Scan(Vec<u8>),
    Load(Vec<u8>),
    Write,
    // Whether the file can be written is known only when it is, so the call keeps its line.
    WriteFile { line: Line<'a>, path: &'a str },
    Room { bytes: usize },
    Check { depth: u8, body: Vec<u8> },
}

// The most words or bytes that calls can be lent. A session must not be able to ask for all memory.
pub const MOST_LENT: usize = 65536;

// The call of a line, or none where the line is blank but for a comment.
pub fn parse<'a>(
    rt: &(impl Files + AllocGlobal),
    line: Line<'a>,
) -> Result<Option<Command<'a>>, Flaw> {
    let words = words(rt.alloc(), uncommented(line.text))?;
    let command = match words.as_slice() {
        [] => return Ok(None),
        ["unit", "grid", depth] => Command::Unit {
            depth: number(depth)?,
        },
        ["mask", hex @ ..] => Command::Mask(hex_bytes(rt.alloc(), hex)?),
        ["scan"] => Command::Scan,
        ["write-file", path] => Command::Call(Call::WriteFile { line, path: *path }),
        call => Command::Call(parse_call(rt, call)?),
    };
    Ok(Some(command))
}

fn parse_call<'a>(rt: &(impl Files + AllocGlobal), words: &[&str]) -> Result<Call<'a>, Flaw> {
    let call = match words {
        ["set", index, value] => Call::Set {
            index: number(index)?,
            value: cell(value)?,
        },
        ["hit", index] => Call::Event {
            index: number(index)?,
            event: Event::Hit,
        },
        ["miss", index] => Call::Event {
            index: number(index)?,
            event: Event::Miss,
        },
        ["read", index] => Call::Read {
            index: number(index)?,
        },
        ["clear"] => Call::Clear,
        ["show"] => Call::Show,
        ["page", words] => Call::Page {
            words: lent_size(words)?,
        },
        ["scan-file", path] => Call::Scan(file_bytes(rt, path)?),
        ["scan-hex", hex @ ..] => Call::Scan(hex_bytes(rt.alloc(), hex)?),
        call => return parse_filing(rt, call),
    };
    Ok(call)
}

// The calls on bodies.
fn parse_filing<'a>(rt: &(impl Files + AllocGlobal), words: &[&str]) -> Result<Call<'a>, Flaw> {
    let call = match words {
        ["load", hex @ ..] => Call::Load(hex_bytes(rt.alloc(), hex)?),
        ["load-file", path] => Call::Load(file_bytes(rt, path)?),
        ["write"] => Call::Write,
        ["room", bytes] => Call::Room {
            bytes: lent_size(bytes)?,
        },
        ["check", depth, hex @ ..] => Call::Check {
            depth: number(depth)?,
            body: hex_bytes(rt.alloc(), hex)?,
        },
        _ => return Err(Flaw::Unreadable),
    };
    Ok(call)
}

// What stands before the first `#`.
fn uncommented(line: &str) -> &str
    ensures { result.now ≡ until_hash line.now }
{
    match line.split_once('#') {
        Some((before, _)) => before,
        None => line,
    }
}

fn words<'a>(heap: Global, text: &'a str) -> Result<Vec<&'a str>, AllocError> {
    text.split([' ', '\t'])
        .filter(|word| !word.is_empty())
        .collect(heap)
}

// A decimal number. Rust's `parse` would take a leading `+` too.
fn number<N: FromStr>(word: &str) -> Result<N, Flaw>
where
    N::Err: Drop,
    ensures { IfOk result (λ n. N.FromStr.from_str_gives word.now (Ok n)) }
{
    if word.starts_with('+') {
        return Err(Flaw::Unreadable);
    }
    word.parse().map_err(|_| Flaw::Unreadable)
}

// The cell that a session writes so. How sessions write cells is no business of `voxels`, so this is no `FromStr`.
fn cell(word: &str) -> Result<Cell, Flaw> {
    match word {
        "unknown" => Ok(Cell::Unknown),
        _ => Ok(Cell::Known(saturated(number(word)?))),
    }
}

// A number beyond 16 bits is beyond a cell's range too, so the store still refuses what it is cut to.
fn saturated(number: i64) -> i16
    ensures { result ≡ saturated number }
{
    number.clamp(i16::MIN.into(), i16::MAX.into()) as i16
}

fn lent_size(word: &str) -> Result<usize, Flaw>
    ensures { IfOk result (λ n. n ≤ 65536) }
{
    let size = number(word)?;
    if size > MOST_LENT {
        return Err(Flaw::Unreadable);
    }
    Ok(size)
}

fn file_bytes(rt: &(impl Files + AllocGlobal), path: &str) -> Result<Vec<u8>, Flaw> {
    fs::read(rt, path).map_err(|_| Flaw::NoFile)
}
