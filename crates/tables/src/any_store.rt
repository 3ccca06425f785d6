ghost use Rattle.std.specs.Prelude.{◌≡◌, ℕ, MatchResult};
ghost use Rattle.voxels.specs.Cells.{put};

use stores::Store;
use voxels::{Cell, Refusal};

// Puts a cell and gives back the one that was there. That nothing else changes, and that a refused one changes nothing, follows from what a store means.
pub fn exchange<S: Store>(store: &mut S, index: usize, value: Cell) -> Result<Cell, Refusal>
    ensures taken { MatchResult result (λ old. (old ≡ S.cell store.old index) × ((i : ℕ) → S.cell store.new i ≡ put (S.cell store.old) index value i)) (λ _. (i : ℕ) → S.cell store.new i ≡ S.cell store.old i) }
    ensures shape { S.shape store.new ≡ S.shape store.old }
{
    let old = store.read(index);
    store.set(index, value)?;
    Ok(old)
}
