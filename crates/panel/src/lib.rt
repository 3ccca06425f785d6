// The front panel's call for C.
#![tactic(auto)]

ghost use Rattle.std.specs.Prelude.{◌≡◌};
ghost use Rattle.bodies.specs.Loads.{check_answer};
ghost use Rattle.bodies.specs.Verdicts.{NumbersTold, ZeroForMaps, number_told};

use bodies::verdict;

// Whether bytes are the body of a map of that depth: 0 where they are, else the number by which they are refused: C has no `Result`.
#[unsafe(no_mangle)]
pub extern "C" fn geltzori_check(depth: u8, body: &[u8]) -> u8
    ensures answer { result ≡ number_told (check_answer depth body.now) }
    ensures exact { ZeroForMaps depth body.now result }
    ensures numbers { NumbersTold depth result }
{
    verdict(depth, body)
}
