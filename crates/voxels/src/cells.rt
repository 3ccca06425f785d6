ghost use Rattle.std.specs.Prelude.{◌≡◌, true, Some};
ghost use Rattle.voxels.specs.Cells.{NumberGives, cell_word, change, clamped, in_range, log_odds, state_of, updated, word_cell};
ghost use Rattle.voxels.specs.Texts.{cell_text, event_text};

use std::fmt;

// The log-odds of a voxel in hundredths, once something was seen of it. No `Option<i16>`: a cell has a range, a word and a state, which are methods of its own.
#[derive(Clone, Copy, PartialEq, Eq, Debug)]
pub enum Cell {
    Unknown,
    Known(i16),
}

#[derive(Clone, Copy)]
pub enum Event {
    Hit,
    Miss,
}

#[derive(Clone, Copy, PartialEq, Eq, Debug)]
pub enum State {
    Unknown,
    Free,
    Occupied,
}

// No state has the number.
#[derive(Clone, Copy, PartialEq, Eq, Debug)]
pub struct NoState(pub u8);

const LOWEST: i16 = -200;

const HIGHEST: i16 = 350;

// A known cell's word is this much more than its number.
const WORD_OFFSET: i32 = 201;

const HIT: i32 = 85;

const MISS: i32 = -40;

impl Cell {
    // Unknown, or a number that a map can hold.
    pub fn in_range(self) -> bool
        ensures { result ≡ in_range self }
    {
        match self {
            Cell::Unknown => true,
            Cell::Known(value) => (LOWEST..=HIGHEST).contains(&value),
        }
    }

    // The cell after an event: the sum, cut to the range.
    pub fn updated(self, event: Event) -> Cell
        ensures value { result ≡ updated self event }
        ensures range { in_range result ≡ true }
    {
        Cell::Known(clamp(i32::from(self.log_odds()) + event.change()))
    }

    // An unknown cell counts as 0.
    fn log_odds(self) -> i16
        ensures { result ≡ log_odds self }
    {
        match self {
            Cell::Unknown => 0,
            Cell::Known(value) => value,
        }
    }

    // The cell as a word of lent memory; a name and no `From`, as with a float's bits: a word is one coding of a cell. A number outside the range is kept as unknown is, by 0.
    pub fn word(self) -> u16
        ensures value { result ≡ cell_word self }
        ensures back { in_range self ≡ true → word_cell result ≡ self }
    {
        match self {
            Cell::Known(value) if self.in_range() => (i32::from(value) + WORD_OFFSET) as u16,
            _ => 0,
        }
    }

    // The cell that a word keeps; one that no cell is kept as is unknown.
    pub fn from_word(word: u16) -> Cell
        ensures value { result ≡ word_cell word }
        ensures range { in_range result ≡ true }
    {
        match word {
            1..=551 => Cell::Known((i32::from(word) - WORD_OFFSET) as i16),
            _ => Cell::Unknown,
        }
    }

    // A method and no `From`, since it forgets the number.
    pub fn state(self) -> State
        ensures { result ≡ state_of self }
    {
        match self {
            Cell::Unknown => State::Unknown,
            Cell::Known(value) if value < 0 => State::Free,
            Cell::Known(_) => State::Occupied,
        }
    }
}

impl Event {
    fn change(self) -> i32
        ensures { result ≡ change self }
    {
        match self {
            Event::Hit => HIT,
            Event::Miss => MISS,
        }
    }
}

impl fmt::Display for Cell {
    ghost output = { λ cell. Some (cell_text cell) };

    fn fmt<W: fmt::Write>(&self, f: &mut fmt::Formatter<W>) -> fmt::Result {
        match self {
            Cell::Unknown => f.write_str("unknown"),
            Cell::Known(value) => write!(f, "{value}"),
        }
    }
}

impl fmt::Display for Event {
    ghost output = { λ event. Some (event_text event) };

    fn fmt<W: fmt::Write>(&self, f: &mut fmt::Formatter<W>) -> fmt::Result {
        f.write_str(match self {
            Event::Hit => "hit",
            Event::Miss => "miss",
        })
    }
}

// A state by its number.
impl TryFrom<u8> for State {
    type Error = NoState;

    ghost try_from_gives = { NumberGives };

    fn try_from(number: u8) -> Result<State, NoState> {
        match number {
            0 => Ok(State::Unknown),
            1 => Ok(State::Free),
            2 => Ok(State::Occupied),
            _ => Err(NoState(number)),
        }
    }
}

fn clamp(sum: i32) -> i16
    ensures value { result ≡ clamped sum }
    ensures range { in_range (Cell.Known result) ≡ true }
{
    sum.clamp(LOWEST.into(), HIGHEST.into()) as i16
}
