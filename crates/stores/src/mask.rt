ghost use Rattle.std.specs.Prelude.{◌≡◌, ℕ, false, List, MatchResult};
ghost use Rattle.std.specs.Option.{option_map};
ghost use Rattle.stores.specs.Masks.{IsMask, RunsRead, closed_by, closed_by_bytes, fill_answer, in_run, pair_run, run_end, run_fault};
ghost use Rattle.stores.specs.declared.mask.Run.{Run};
ghost use Rattle.voxels.specs.Refusals.{number_of, told};

use std::marker::Model;
use voxels::{Reason, Refusal};

const MOST_RUNS: usize = 16;

// No index of a map lies past this.
const LAST_END: u32 = 32768;

// Indices in a row.
#[derive(Clone, Copy)]
pub struct Run {
    pub offset: u16,
    pub length: u16,
}

// Runs of indices that a clamp or a fixture closes, in order with a gap between them. Those that are not used are empty and stand behind the others.
#[derive(Clone, Copy)]
pub struct Mask {
    runs: [Run; MOST_RUNS],
}

impl Model for Mask {
    ghost Value = { List Run };

    ghost view = { λ mask. mask.runs };

    ghost invariant = { λ mask. IsMask mask.runs };

    ghost inverse = { λ runs. record { runs = runs } };
}

impl Run {
    // Holds no index.
    const NONE: Run = Run {
        offset: 0,
        length: 0,
    };

    fn end(self) -> u32
        ensures { result ≡ run_end self }
    {
        u32::from(self.offset) + u32::from(self.length)
    }

    fn holds(self, index: usize) -> bool
        ensures { result ≡ in_run self index }
    {
        usize::from(self.offset) <= index && index < self.end() as usize
    }

    // Why no mask may have the run, where its offset has to be at least `least`.
    fn fault(self, least: u32) -> Option<Reason>
        ensures { option_map number_of result ≡ run_fault self least }
    {
        if self.length == 0 {
            Some(Reason::EmptyRun)
        } else if u32::from(self.offset) < least {
            Some(Reason::RunNotAbove)
        } else if self.end() > LAST_END {
            Some(Reason::RunPastEnd)
        } else {
            None
        }
    }
}

// The run that a pair of numbers says, low byte first.
impl From<[u8; 4]> for Run {
    ghost from_gives = { λ bytes run. run ≡ pair_run bytes 0 };

    fn from(bytes: [u8; 4]) -> Run {
        let [a, b, c, d] = bytes;
        Run {
            offset: u16::from_le_bytes([a, b]),
            length: u16::from_le_bytes([c, d]),
        }
    }
}

impl Mask {
    // Closes nothing.
    pub fn empty() -> Mask
        ensures none { (i : ℕ) → closed_by result i ≡ false }
        ensures mask { IsMask result }
    {
        Mask {
            runs: [Run::NONE; MOST_RUNS],
        }
    }

    // Replaces the runs by those that the bytes say, or refuses them and stays as it was.
    pub fn fill(&mut self, bytes: &[u8]) -> Result<(), Refusal>
        ensures tells { told result ≡ fill_answer bytes.now }
        ensures leaves { MatchResult result (λ _. (i : ℕ) → closed_by self.new i ≡ closed_by_bytes bytes.now i) (λ _. self.new ≡ self.old) }
        ensures mask { IsMask self.new }
    {
        // A mask as it comes is one: so is what a refusal leaves.
        let _ = &self.runs;
        self.runs = read_runs(bytes)?;
        Ok(())
    }

    pub fn closes(&self, index: usize) -> bool
        ensures value { result ≡ closed_by self.now index }
        ensures mask { IsMask self.now }
    {
        // They are in order: the first that ends past the index decides, and behind the first empty one all are empty.
        for run in &self.runs {
            if run.length == 0 {
                return false;
            }
            if index < run.end() as usize {
                return run.holds(index);
            }
        }
        false
    }
}

// The runs of the pairs, from the front; the first wrong one decides.
fn read_runs(bytes: &[u8]) -> Result<[Run; MOST_RUNS], Refusal>
    ensures { RunsRead bytes.now result }
{
    let (pairs, rest) = bytes.as_chunks::<4>();
    if !rest.is_empty() {
        return Err(Reason::RaggedMask.into());
    }
    if pairs.len() > MOST_RUNS {
        return Err(Reason::TooManyRuns.into());
    }
    let mut runs = [Run::NONE; MOST_RUNS];
    let mut least = 0;
    // By number: a refusal tells it too.
    for (at, pair) in pairs.iter().enumerate() {
        let run = Run::from(*pair);
        if let Some(reason) = run.fault(least) {
            return Err(reason.at(4 * at as u32));
        }
        runs[at] = run;
        least = run.end() + 1;
    }
    Ok(runs)
}
