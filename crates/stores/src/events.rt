ghost use Rattle.std.specs.Prelude.{◌≡◌};
ghost use Rattle.stores.specs.Sets.{SetDone};
ghost use Rattle.voxels.specs.Cells.{updated};
ghost use Rattle.voxels.specs.Refusals.{told};

use crate::store::Store;
use voxels::{Event, Refusal};

// Lets a cell of any store see a hit or a miss: a set of the updated cell, refused as that set is.
pub fn apply<S: Store>(store: &mut S, index: usize, event: Event) -> Result<(), Refusal>
    ensures done { SetDone (S.shape store.old) (S.cell store.old) index (updated (S.cell store.old index) event) (told result) (S.cell store.new) }
    ensures shape { S.shape store.new ≡ S.shape store.old }
{
    let before = store.read(index);
    store.set(index, before.updated(event))
}
