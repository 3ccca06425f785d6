ghost use Rattle.std.specs.Prelude.{◌≡◌, ◌<◌, not, ◌&&◌, ◌==◌, nat_eq};
ghost use Rattle.std.specs.Option.{option_map};
ghost use Rattle.bodies.specs.Codes.{child_code};
ghost use Rattle.bodies.specs.Readings.{pair_fault};
ghost use Rattle.bodies.specs.Reads.{code_of};
ghost use Rattle.voxels.specs.Bounded.{all, some};
ghost use Rattle.voxels.specs.Refusals.{number_of};

use voxels::{Reason, State};

// A child's bits where it has a pair of its own.
pub const MIXED: u8 = 3;

// Two bits for each of a cube's eight children.
#[derive(Clone, Copy)]
pub struct Pair {
    pub first: u8,
    pub second: u8,
}

impl Pair {
    // The two bits of a child.
    fn bits(self, child: usize) -> u8
        requires { child < 8 }
        ensures { result ≡ child_code self.first self.second child }
    {
        if child < 4 {
            (self.first >> (2 * child)) % 4
        } else {
            (self.second >> (2 * (child - 4))) % 4
        }
    }

    // The state of all of a child's voxels; none where a pair of its own tells.
    pub fn state(self, child: usize) -> Option<State>
        requires { child < 8 }
        ensures { result ≡ code_of (child_code self.first self.second child) }
    {
        State::try_from(self.bits(child)).ok()
    }

    fn has_mixed(self) -> bool
        ensures { result ≡ some 8 (λ j. nat_eq (child_code self.first self.second j) 3) }
    {
        (0..8).any(|child| self.bits(child) == MIXED)
    }

    // The children make a uniform cube, which has no pair of its own.
    fn is_uniform(self) -> bool
        ensures { result ≡ (not (child_code self.first self.second 0 == 3) && all 8 (λ j. nat_eq (child_code self.first self.second j) (child_code self.first self.second 0))) }
    {
        let bits = self.bits(0);
        bits != MIXED && (0..8).all(|child| self.bits(child) == bits)
    }

    // Why no body has the pair for a cube of that level.
    pub fn fault(self, level: u8, root: bool) -> Option<Reason>
        ensures { option_map number_of result ≡ pair_fault level root (child_code self.first self.second) }
    {
        if level == 1 && self.has_mixed() {
            Some(Reason::PairBelowVoxels)
        } else if !root && self.is_uniform() {
            Some(Reason::UnmergedPair)
        } else {
            None
        }
    }
}
