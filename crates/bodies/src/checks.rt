ghost use Rattle.std.specs.Prelude.{◌≡◌};
ghost use Rattle.bodies.specs.Loads.{check_answer};
ghost use Rattle.bodies.specs.Theorems.{ExactlyMaps, WritesBack};
ghost use Rattle.bodies.specs.Verdicts.{NumbersTold, ZeroForMaps, number_told};
ghost use Rattle.voxels.specs.Refusals.{told};

use crate::reader::read_body;
use voxels::{Reason, Refusal};

// Judges a body for a map of that depth, without a map or a page: refused 1 where no map has the depth, else as a load would call it malformed.
pub fn check(depth: u8, body: &[u8]) -> Result<(), Refusal>
    ensures answer { told result ≡ check_answer depth body.now }
    ensures exact { ExactlyMaps depth body.now (told result) }
    ensures back { WritesBack depth body.now }
{
    if !(1..=5).contains(&depth) {
        return Err(Reason::NoMap.into());
    }
    read_body(&mut [], depth, body)
}

// The check as a number, for callers in C: 0 for a body of a map of that depth, else the number that refuses it.
pub fn verdict(depth: u8, body: &[u8]) -> u8
    ensures answer { result ≡ number_told (check_answer depth body.now) }
    ensures exact { ZeroForMaps depth body.now result }
    ensures numbers { NumbersTold depth result }
{
    match check(depth, body) {
        Ok(()) => 0,
        Err(refusal) => refusal.reason.number(),
    }
}
