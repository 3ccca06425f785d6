ghost use Rattle.std.specs.Prelude.{◌≡◌, ◌+◌, ◌^◌, ◌≤◌, false};
ghost use Rattle.bodies.specs.Readings.{read_body, read_pair};
ghost use Rattle.bodies.specs.Reads.{AboveVoxels, BodyRead, ReadTo, read_code};

use crate::codes::Pair;
use crate::cubes::Cube;
use voxels::{Reason, Refusal, State};

// The bytes of a body that are still to be read, and the place of the first of them.
#[derive(Clone, Copy)]
pub struct Rest<'b> {
    pub bytes: &'b [u8],
    pub at: u32,
}

// Reads the body of a map of that depth, to which every byte has to belong, and puts the code of each voxel's state into its word. Without a word the body is only judged.
pub fn read_body(words: &mut [u16], depth: u8, body: &[u8]) -> Result<(), Refusal>
    requires some { 1 ≤ depth }
    requires few { depth ≤ 5 }
    ensures { BodyRead (read_body depth body.now) words.old words.new depth result }
{
    let whole = Rest { bytes: body, at: 0 };
    let left = read_pair(words, whole, Cube::root(depth), true)?;
    if left.bytes.is_empty() {
        Ok(())
    } else {
        Err(Reason::TrailingBytes.at(left.at))
    }
}

// Reads the pair of a cube and all that is under it.
#[cycle(read_child_read_pair)]
fn read_pair<'b>(
    words: &mut [u16],
    body: Rest<'b>,
    cube: Cube,
    root: bool,
) -> Result<Rest<'b>, Refusal>
    requires above { 1 ≤ cube.level }
    requires near { body.at + 8 ^ cube.level ≤ 32768 }
    ensures { ReadTo (read_pair cube.level root body.entry.at body.entry.bytes.now) words.old words.new cube.level cube.first result }
{
    let [first, second, rest @ ..] = body.bytes else {
        return Err(Reason::MissingPair.at(body.at));
    };
    let pair = Pair {
        first: *first,
        second: *second,
    };
    if let Some(reason) = pair.fault(cube.level, root) {
        return Err(reason.at(body.at));
    }
    let mut left = Rest {
        bytes: rest,
        at: body.at + 2,
    };
    for child in 0..8 {
        left = read_child(words, left, cube.child(child), pair.state(child))?;
    }
    Ok(left)
}

// Reads a cube by what its parent's pair says of it.
#[cycle(read_child_read_pair)]
fn read_child<'b>(
    words: &mut [u16],
    body: Rest<'b>,
    cube: Cube,
    state: Option<State>,
) -> Result<Rest<'b>, Refusal>
    requires above { AboveVoxels state cube.level }
    requires near { body.at + 8 ^ cube.level ≤ 32768 }
    ensures { ReadTo (read_code (read_pair cube.level false) (8 ^ cube.level) state body.entry.at body.entry.bytes.now) words.old words.new cube.level cube.first result }
{
    match state {
        Some(state) => {
            cube.fill(words, state);
            Ok(body)
        }
        None => read_pair(words, body, cube, false),
    }
}
