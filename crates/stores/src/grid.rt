ghost use Rattle.std.specs.Prelude.{◌≡◌, ℕ, ◌≤◌, length};
ghost use Rattle.stores.specs.GridLaws.{grid_lawful};
ghost use Rattle.stores.specs.Grids.{grid_cell, grid_depth, grid_shape};
ghost use Rattle.voxels.specs.Pages.{guarded, wiped};
ghost use Rattle.voxels.specs.Space.{voxel_count};
ghost use Rattle.voxels.specs.declared.cells.Cell.TheVariants.{Unknown};

use crate::store::Store;
use voxels::{Cell, Reason, Refusal, most_blocks, voxel_count, wipe_voxels};

// A store that keeps a word for each voxel in lent memory.
#[derive(Drop)]
pub struct Grid<'a> {
    words: &'a mut [u16],
    depth: u8,
    ghost shallow: { depth ≤ 5 },
    ghost fits: { voxel_count depth ≤ length words.now },
}

impl<'a> Grid<'a> {
    // An empty grid of that depth. A depth outside 1 to 5 or too few words give one of depth 0, which leaves the memory; no `Option`, since a unit without a map still answers every call.
    pub fn new(words: &'a mut [u16], depth: u8) -> Grid<'a>
        ensures depth { result.depth ≡ grid_depth depth (length words.old) }
        ensures memory { result.words.now ≡ wiped (guarded depth words.old) words.old }
        ensures empty { (i : ℕ) → grid_cell result.depth result.words.now i ≡ Unknown }
    {
        wipe_voxels(words, depth);
        let depth = held_depth(depth, words.len());
        Grid { words, depth }
    }
}

impl Store for Grid<'_> {
    ghost shape = { λ g. grid_shape g.depth };

    ghost cell = { λ g. grid_cell g.depth g.words.now };

    ghost laws = { grid_lawful (λ g. g.depth) (λ g. g.words.now) (λ g. g.shallow) };

    const LETTER: char = 'G';

    fn depth(&self) -> u8 {
        self.depth
    }

    fn limit(&self) -> u16 {
        most_blocks(self.depth)
    }

    fn read(&self, index: usize) -> Cell {
        if index >= voxel_count(self.depth) {
            return Cell::Unknown;
        }
        Cell::from_word(self.words[index])
    }

    fn open(&self, index: usize) -> bool {
        index < voxel_count(self.depth)
    }

    fn set(&mut self, index: usize, value: Cell) -> Result<(), Refusal> {
        if index >= voxel_count(self.depth) {
            return Err(Reason::NotOpen.into());
        }
        if !value.in_range() {
            return Err(Reason::OutOfRange.into());
        }
        self.words[index] = value.word();
        Ok(())
    }

    fn clear(&mut self) {
        wipe_voxels(self.words, self.depth);
    }
}

// The depth asked for, where it is one and there is a word for each voxel; else 0 and no error, as a store without a voxel is a store too.
fn held_depth(depth: u8, words: usize) -> u8
    ensures { result ≡ grid_depth depth words }
{
    let count = voxel_count(depth);
    if 1 <= depth && depth <= 5 && count <= words {
        depth
    } else {
        0
    }
}
