ghost use Rattle.std.specs.Prelude.{◌≡◌, ◌+◌, ◌^◌, ◌<◌, true, false, length, MatchResult};
ghost use Rattle.scans.specs.Lines.{said_by};
ghost use Rattle.scans.specs.Texts.{Progress, nothing, outside};

use crate::lines::{Line, line_of, split_once};
use voxels::{Position, Reason, TICKS, side};

const MOST_RETURNS: u16 = 512;

// Where a scan stood, by its origin line, and how many return lines came since.
#[derive(Clone, Copy)]
pub struct Since {
    pub origin: Position,
    pub returns: u16,
}

// How far a scan is read: what is left of its text, where in the text that begins, and what the lines before it said.
#[derive(Drop)]
pub struct Reader<'t> {
    pub depth: u8,
    pub rest: &'t [u8],
    pub place: usize,
    pub since: Option<Since>,
    ghost fits: { place + length rest.now < 2 ^ 64 },
}

impl<'t> Reader<'t> {
    ghost use Rattle.scans.specs.Steps.{Judged, Stands, Stepped};

    pub fn new(depth: u8, text: &'t [u8]) -> Reader<'t>
        ensures depth { result.depth ≡ depth }
        ensures rest { result.rest.now ≡ text.now }
        ensures place { result.place ≡ 0 }
        ensures stands { Stands result nothing }
    {
        Reader {
            depth,
            rest: text,
            place: 0,
            since: None,
        }
    }

    // Reads the next line, and moves behind it where it is taken.
    pub fn step(&mut self) -> Result<Line, Reason>
        ensures { (progress : Progress) → Stands self.old progress → Stepped self.old self.new progress result }
    {
        let (bytes, rest) = split_once(self.rest, b'\n').ok_or(Reason::NoLineFeed)?;
        let line = line_of(bytes).ok_or(Reason::MalformedLine)?;
        self.since = self.taken(line)?;
        self.rest = rest;
        self.place += bytes.len() + 1;
        Ok(line)
    }

    // What is read with a line more, where it belongs here.
    fn taken(&self, line: Line) -> Result<Option<Since>, Reason>
        ensures { (progress : Progress) → Stands self.now progress → Judged self.now.depth progress (said_by line) result }
    {
        match (self.since, line) {
            (None, Line::Origin(origin)) => {
                self.check_inside(origin)?;
                Ok(Some(Since { origin, returns: 0 }))
            }
            (Some(since), Line::Return { end, .. }) => {
                self.check_inside(end)?;
                if since.returns >= MOST_RETURNS {
                    return Err(Reason::TooManyReturns);
                }
                Ok(Some(Since {
                    returns: since.returns + 1,
                    ..since
                }))
            }
            (Some(since), Line::End) => Ok(Some(since)),
            _ => Err(Reason::MisplacedLine),
        }
    }

    // Refuses a position that lies outside the reader's map.
    fn check_inside(&self, position: Position) -> Result<(), Reason>
        ensures { MatchResult result (λ _. outside self.now.depth position ≡ false) (λ reason. (outside self.now.depth position ≡ true) × (reason ≡ Reason.TickOutside)) }
    {
        let limit = TICKS * side(self.depth);
        if position.x < limit && position.y < limit && position.z < limit {
            Ok(())
        } else {
            Err(Reason::TickOutside)
        }
    }
}
