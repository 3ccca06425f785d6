ghost use Rattle.std.specs.Prelude.{◌≡◌, ℕ, ◌+◌, ◌<◌, ◌≤◌, IfSome, true, None, Option, length, slice_index};
ghost use Rattle.stores.specs.Sweeps.{sweep_answer, swept_cells, wanted_by};
ghost use Rattle.stores.specs.Visits.{OldInRange, TakenBack, VisitDone, set_by, skipped_by, visit_word};
ghost use Rattle.voxels.specs.Cells.{in_range};
ghost use Rattle.voxels.specs.Refusals.{told};
ghost use Rattle.voxels.specs.Space.{voxel_count};
ghost use Rattle.voxels.specs.declared.cells.Cell.{Cell as CellOf};

use crate::store::Store;
use voxels::{Cell, Refusal, voxel_count};

// How many voxels were set, and how many closed ones were skipped.
#[derive(Clone, Copy, PartialEq, Eq, Debug)]
pub struct Swept {
    pub set: u32,
    pub skipped: u32,
}

// What the words of a page say of voxels: a trait and no closure, since a rule owes laws.
pub trait Rule {
    ghost wanted: { ℕ → CellOf → Option CellOf };

    // The cell that a voxel is to get by its word and the cell that it has; none where nothing is said of it.
    fn wanted(word: u16, cell: Cell) -> Option<Cell>
        ensures value { result ≡ wanted word cell }
        ensures range { IfSome result (λ c. in_range c ≡ true) };

    // a word 0 says nothing of its voxel
    ghost silent: { (cell : CellOf) → wanted 0 cell ≡ None };
}

// What a visit of a voxel came to.
#[derive(Clone, Copy)]
enum Visit {
    Nothing,
    Skipped,
    Set { old: Cell },
}

impl Visit {
    // What the page keeps of the voxel, so that its set can be taken back.
    fn word(self) -> u16
        requires { OldInRange self }
        ensures { result ≡ visit_word self }
    {
        match self {
            Visit::Set { old } => old.word() + 1,
            _ => 0,
        }
    }
}

impl Swept {
    fn counting(self, visit: Visit) -> Swept
        requires { (self.set < 32768) × (self.skipped < 32768) }
        ensures set { result.set ≡ self.set + set_by visit }
        ensures skipped { result.skipped ≡ self.skipped + skipped_by visit }
    {
        match visit {
            Visit::Nothing => self,
            Visit::Skipped => Swept {
                skipped: self.skipped + 1,
                ..self
            },
            Visit::Set { .. } => Swept {
                set: self.set + 1,
                ..self
            },
        }
    }
}

// Gives an open voxel the cell that its word says, and skips a closed one.
fn visit_voxel<S: Store, R: Rule>(store: &mut S, index: usize, word: u16) -> Result<Visit, Refusal>
    ensures done { VisitDone (S.shape store.old) (S.cell store.old) (S.cell store.new) index (R.wanted word (S.cell store.old index)) result }
    ensures shape { S.shape store.new ≡ S.shape store.old }
{
    // Says nothing by every rule: the store need not be asked.
    if word == 0 {
        return Ok(Visit::Nothing);
    }
    let old = store.read(index);
    let Some(cell) = R::wanted(word, old) else {
        return Ok(Visit::Nothing);
    };
    if !store.open(index) {
        return Ok(Visit::Skipped);
    }
    store.set(index, cell)?;
    Ok(Visit::Set { old })
}

// Sets the voxels of these words back to the cells that the words keep of them, the last one first: what then stands fitted the limit before, so no set is refused.
fn take_back<S: Store>(store: &mut S, words: &[u16])
    ensures cells { TakenBack (S.shape store.old) (S.cell store.old) (S.cell store.new) words.now }
    ensures shape { S.shape store.new ≡ S.shape store.old }
{
    let mut left = words;
    while let Some((word, front)) = left.split_last() {
        if let Some(kept) = word.checked_sub(1) {
            let _ = store.set(front.len(), Cell::from_word(kept));
        }
        left = front;
    }
}

// Gives every open voxel the cell that its word says, in rising index, and skips closed ones. A refused set refuses the sweep, and all cells go back. Voxels that the page has no word for are left. The words of the others are used up. That those behind the voxels stay is a clause: a guard over the others alone would lose its tie to the page (`WorkPage`).
pub fn sweep<S: Store, R: Rule>(store: &mut S, page: &mut [u16]) -> Result<Swept, Refusal>
    ensures answer { told result ≡ sweep_answer (S.shape store.old) (wanted_by R.wanted page.old (S.cell store.old)) (S.cell store.old) }
    ensures cells { (i : ℕ) → S.cell store.new i ≡ swept_cells (S.shape store.old) (wanted_by R.wanted page.old (S.cell store.old)) (S.cell store.old) (told result) i }
    ensures shape { S.shape store.new ≡ S.shape store.old }
    ensures rest { (k : ℕ) → voxel_count (S.shape store.old).depth ≤ k → slice_index page.new k ≡ slice_index page.old k }
{
    let mut swept = Swept { set: 0, skipped: 0 };
    // By index and not by word: the index names the voxel to the store, and the words before it are handed on to be taken back.
    for index in 0..voxel_count(store.depth()).min(page.len()) {
        match visit_voxel::<S, R>(store, index, page[index]) {
            Ok(visit) => {
                page[index] = visit.word();
                swept = swept.counting(visit);
            }
            Err(refusal) => {
                take_back(store, &page[..index]);
                return Err(refusal);
            }
        }
    }
    Ok(swept)
}
