ghost use Rattle.tables.specs.FullLaws.{full_lawful, full_shape, nothing};

use stores::Store;
use voxels::{Cell, Reason, Refusal};

// A store of depth 2 with room for the root's block alone, so that no cell of it can ever be known: the smallest that refuses by its limit.
#[derive(Clone, Copy)]
pub struct Full;

impl Store for Full {
    ghost shape = { λ _. full_shape };

    ghost cell = { λ _. nothing };

    const LETTER: char = 'N';

    fn depth(&self) -> u8 {
        2
    }

    fn limit(&self) -> u16 {
        1
    }

    fn read(&self, _index: usize) -> Cell {
        Cell::Unknown
    }

    fn open(&self, index: usize) -> bool {
        index < 64
    }

    fn set(&mut self, index: usize, value: Cell) -> Result<(), Refusal> {
        if index >= 64 {
            return Err(Reason::NotOpen.into());
        }
        if !value.in_range() {
            return Err(Reason::OutOfRange.into());
        }
        match value {
            Cell::Unknown => Ok(()),
            Cell::Known(_) => Err(Reason::BlockLimit.at(index as u32)),
        }
    }

    fn clear(&mut self) {}

    ghost laws = { full_lawful };
}
