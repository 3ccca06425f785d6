ghost use Rattle.std.specs.Prelude.{◌≡◌, ℕ};
ghost use Rattle.stores.specs.Laws.{Lawful};
ghost use Rattle.stores.specs.Sets.{SetDone, is_open};
ghost use Rattle.stores.specs.Shapes.{Shape};
ghost use Rattle.voxels.specs.Refusals.{told};
ghost use Rattle.voxels.specs.declared.cells.Cell.{Cell as CellOf};
ghost use Rattle.voxels.specs.declared.cells.Cell.TheVariants.{Unknown};

use voxels::{Cell, Refusal};

// What keeps a map's cells. A store means a shape and cells; only `set` and `clear` change anything, and that only cells.
pub trait Store {
    ghost shape: { Self → Shape };

    ghost cell: { Self → ℕ → CellOf };

    // Every kind of store has one of its own.
    const LETTER: char;

    // From 1 to 5, or 0 for a store without a voxel.
    fn depth(&self) -> u8
        ensures { result ≡ (shape self.now).depth };

    fn limit(&self) -> u16
        ensures { result ≡ (shape self.now).limit };

    // The cell at an index, unknown outside the map.
    fn read(&self, index: usize) -> Cell
        ensures { result ≡ cell self.now index };

    // Whether the index is inside the map and not closed.
    fn open(&self, index: usize) -> bool
        ensures { result ≡ is_open (shape self.now) index };

    // Puts a cell at an index: refused 13, 14 or 15, with nothing changed, or that cell alone is changed.
    fn set(&mut self, index: usize, value: Cell) -> Result<(), Refusal>
        ensures done { SetDone (shape self.old) (cell self.old) index value (told result) (cell self.new) }
        ensures shape { shape self.new ≡ shape self.old };

    // Makes every cell unknown, closed voxels' too.
    fn clear(&mut self)
        ensures cells { (i : ℕ) → cell self.new i ≡ Unknown }
        ensures shape { shape self.new ≡ shape self.old };

    ghost laws: { Lawful shape cell };
}
