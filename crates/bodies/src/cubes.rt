ghost use Rattle.std.specs.Prelude.{◌≡◌, ◌+◌, ◌-◌, ◌^◌, ◌<◌, ◌≤◌, replicate};
ghost use Rattle.bodies.specs.Bodies.{child_first};
ghost use Rattle.bodies.specs.Reads.{Kept};

use voxels::State;

// An aligned cube of a map: the 8 ^ level voxels from index `first` on. It is an index and no part of the words, as a body that is only judged has no words.
#[derive(Clone, Copy)]
pub struct Cube {
    pub level: u8,
    pub first: usize,
    ghost shallow: { level ≤ 5 },
    ghost inside: { first + 8 ^ level ≤ 32768 },
}

impl Cube {
    // The whole map.
    pub fn root(depth: u8) -> Cube
        requires { depth ≤ 5 }
        ensures level { result.level ≡ depth }
        ensures first { result.first ≡ 0 }
    {
        Cube {
            level: depth,
            first: 0,
        }
    }

    // How many voxels it has.
    pub fn size(self) -> usize
        ensures { result ≡ 8 ^ self.level }
    {
        1 << (3 * self.level)
    }

    // The cube of a child, from 0 to 7. Children are numbers and no enum: they are digits of an index.
    pub fn child(self, child: usize) -> Cube
        requires below { 1 ≤ self.level }
        requires one { child < 8 }
        ensures level { result.level ≡ self.level - 1 }
        ensures first { result.first ≡ child_first (self.level - 1) self.first child }
    {
        Cube {
            level: self.level - 1,
            first: self.first + child * (self.size() / 8),
        }
    }

    // Gives its voxels a state, by its number in their words; those without a word are passed over.
    pub fn fill(self, words: &mut [u16], state: State)
        ensures { Kept words.old words.new self.first (replicate (8 ^ self.level) state) }
    {
        let end = (self.first + self.size()).min(words.len());
        let start = self.first.min(end);
        words[start..end].fill(state as u16);
    }
}
