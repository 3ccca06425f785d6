ghost use Rattle.std.specs.Prelude.{◌≡◌, ◌+◌, ◌-◌, ◌^◌, ◌<◌, ◌≤◌, length};
ghost use Rattle.bodies.specs.Bodies.{child_first};
ghost use Rattle.bodies.specs.Codes.{byte_of};
ghost use Rattle.bodies.specs.Writes.{Coded, at_front};

use crate::codes::{MIXED, Pair};
use crate::cubes::Cube;

// A cube above the voxels, with the words that have the codes of the map's states.
#[derive(Clone, Copy)]
pub struct Branch<'w> {
    pub words: &'w [u16],
    pub cube: Cube,
    ghost coded: { Coded words.now },
    ghost long: { cube.first + 8 ^ cube.level ≤ length words.now },
    ghost above: { 1 ≤ cube.level },
}

impl<'w> Branch<'w> {
    ghost use Rattle.bodies.specs.Branch.{branch_body, branch_code};

    // The two bits of a child.
    fn child_bits(self, child: usize) -> u8
        requires { child < 8 }
        ensures code { result ≡ branch_code self.entry child }
        ensures small { result ≤ 3 }
    {
        let cube = self.cube.child(child);
        let words = &self.words[cube.first..cube.first + cube.size()];
        let code = words[0];
        if words.iter().all(|word| *word == code) {
            code as u8
        } else {
            MIXED
        }
    }

    // The byte of four children, the one from `child` on in the lowest bits.
    fn byte_at(self, child: usize) -> u8
        requires { child + 4 ≤ 8 }
        ensures { result ≡ byte_of (λ k. branch_code self.entry (child + k)) }
    {
        self.child_bits(child)
            + 4 * self.child_bits(child + 1)
            + 16 * self.child_bits(child + 2)
            + 64 * self.child_bits(child + 3)
    }

    fn pair(self) -> Pair
        ensures first { result.first ≡ byte_of (branch_code self.entry) }
        ensures second { result.second ≡ byte_of (λ k. branch_code self.entry (4 + k)) }
    {
        Pair {
            first: self.byte_at(0),
            second: self.byte_at(4),
        }
    }

    // A child that has a pair of its own.
    fn child(self, child: usize) -> Branch<'w>
        requires one { child < 8 }
        requires mixed { branch_code self child ≡ 3 }
        ensures words { result.words.now ≡ self.entry.words.now }
        ensures level { result.cube.level ≡ self.entry.cube.level - 1 }
        ensures first { result.cube.first ≡ child_first (self.entry.cube.level - 1) self.entry.cube.first child }
    {
        Branch {
            words: self.words,
            cube: self.cube.child(child),
        }
    }

    // The bytes that its pair and all that is under it take.
    pub fn body_length(self) -> usize
        ensures { result ≡ length (branch_body self.entry) }
    {
        let pair = self.pair();
        let mut length = 2;
        for child in 0..8 {
            if pair.state(child).is_none() {
                length += self.child(child).body_length();
            }
        }
        length
    }

    // Writes its pair and all that is under it to the front of the output, and gives their length.
    pub fn write_pair(self, output: &mut [u8]) -> usize
        requires room { length (branch_body self) ≤ length output.old }
        ensures length { result ≡ length (branch_body self.entry) }
        ensures bytes { output.new ≡ at_front (branch_body self.entry) output.old }
    {
        let pair = self.pair();
        output[0] = pair.first;
        output[1] = pair.second;
        let mut end = 2;
        for child in 0..8 {
            if pair.state(child).is_none() {
                end += self.child(child).write_pair(&mut output[end..]);
            }
        }
        end
    }
}
