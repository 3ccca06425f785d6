ghost use Rattle.std.specs.Prelude.{◌≡◌, ℕ, ◌+◌, ◌<◌, ◌≤◌, length, slice_index};
ghost use Rattle.bodies.specs.Loads.{MalformedExactly, PlaceDone, WritesSame, body_answer, is_known, load_answer, load_cells, set_by, skipped_by, word_cell, word_cells};
ghost use Rattle.stores.specs.Sweeps.{sweep_answer, swept_cells};
ghost use Rattle.voxels.specs.Bounded.{some};
ghost use Rattle.voxels.specs.Pages.{guarded, wiped};
ghost use Rattle.voxels.specs.Refusals.{told};
ghost use Rattle.voxels.specs.Space.{voxel_count};
ghost use Rattle.voxels.specs.declared.cells.Cell.TheVariants.{Unknown};

use crate::reader::read_body;
use stores::{Store, Swept};
use voxels::{Cell, Reason, Refusal, WorkPage, check_page, voxel_count};

// Loads a body into the empty map of a store, by way of a lent page. A refused load changes no cell.
pub fn load<S: Store>(store: &mut S, page: &mut [u16], body: &[u8]) -> Result<Swept, Refusal>
    ensures answer { told result ≡ load_answer (S.shape store.old) (S.cell store.old) (length page.old) body.now }
    ensures cells { (i : ℕ) → S.cell store.new i ≡ load_cells (S.shape store.old) (S.cell store.old) (told result) body.now i }
    ensures page { page.new ≡ wiped (guarded (S.shape store.old).depth page.old) page.old }
    ensures exact { MalformedExactly (S.shape store.old).depth (S.cell store.old) (length page.old) body.now (told result) }
    ensures same { WritesSame (S.shape store.old).depth (S.cell store.new) body.now (told result) }
    ensures shape { S.shape store.new ≡ S.shape store.old }
{
    let depth = store.depth();
    check_page(depth, page.len())?;
    let guard = WorkPage { words: page, depth };
    load_over(store, guard.words, body)
}

// The load itself, over a page that its caller wipes. That the words behind the voxels stay is a clause: a guard over a part of the page would lose its tie to the rest (`WorkPage`).
fn load_over<S: Store>(store: &mut S, page: &mut [u16], body: &[u8]) -> Result<Swept, Refusal>
    requires some { 1 ≤ (S.shape store.old).depth }
    requires long { voxel_count (S.shape store.old).depth ≤ length page.old }
    ensures answer { told result ≡ body_answer (S.shape store.old) (S.cell store.old) body.now }
    ensures cells { (i : ℕ) → S.cell store.new i ≡ load_cells (S.shape store.old) (S.cell store.old) (told result) body.now i }
    ensures same { WritesSame (S.shape store.old).depth (S.cell store.new) body.now (told result) }
    ensures rest { (k : ℕ) → voxel_count (S.shape store.old).depth ≤ k → slice_index page.new k ≡ slice_index page.old k }
    ensures shape { S.shape store.new ≡ S.shape store.old }
{
    if any_known(store) {
        return Err(Reason::NotEmpty.into());
    }
    read_body(page, store.depth(), body)?;
    place_states(store, page)
}

fn any_known<S: Store>(store: &S) -> bool
    ensures { result ≡ some (voxel_count (S.shape store.now).depth) (λ i. is_known (S.cell store.now i)) }
{
    (0..voxel_count(store.depth())).any(|index| store.read(index) != Cell::Unknown)
}

// What a load makes of a free voxel. That no cell has a lower number is another rule, and so for occupied ones.
const FREE: i16 = -200;

// What a load makes of an occupied voxel.
const OCCUPIED: i16 = 350;

// The cell that a voxel gets whose word has a state's code; none for unknown. The words are this crate's own codes, so a match says it and no conversion is needed.
fn cell_of(word: u16) -> Option<Cell>
    ensures { result ≡ word_cell word }
{
    match word {
        0 => None,
        1 => Some(Cell::Known(FREE)),
        _ => Some(Cell::Known(OCCUPIED)),
    }
}

// What the placing of a voxel came to.
#[derive(Clone, Copy)]
enum Placed {
    Nothing,
    Skipped,
    Set,
}

// Sets an open voxel to what its word says, and skips a closed one.
fn place_voxel<S: Store>(store: &mut S, index: usize, word: u16) -> Result<Placed, Refusal>
    ensures done { PlaceDone (S.shape store.old) (S.cell store.old) (S.cell store.new) index (word_cell word) result }
    ensures shape { S.shape store.new ≡ S.shape store.old }
{
    let Some(cell) = cell_of(word) else {
        return Ok(Placed::Nothing);
    };
    if !store.open(index) {
        return Ok(Placed::Skipped);
    }
    store.set(index, cell)?;
    Ok(Placed::Set)
}

// A function and no method, as `Swept` is another crate's.
fn counted(loaded: Swept, placed: Placed) -> Swept
    requires { (loaded.set < 32768) × (loaded.skipped < 32768) }
    ensures set { result.set ≡ loaded.set + set_by placed }
    ensures skipped { result.skipped ≡ loaded.skipped + skipped_by placed }
{
    match placed {
        Placed::Nothing => loaded,
        Placed::Skipped => Swept {
            skipped: loaded.skipped + 1,
            ..loaded
        },
        Placed::Set => Swept {
            set: loaded.set + 1,
            ..loaded
        },
    }
}

// Sets every open voxel of an empty map to what its word says, in rising index, and skips closed ones. Where a set is refused a clear takes all back, so that no cell need be read or kept, as a scan's sweep has to: `stores::sweep` took 1.4 times as long, and more.
fn place_states<S: Store>(store: &mut S, words: &[u16]) -> Result<Swept, Refusal>
    requires some { 1 ≤ (S.shape store.old).depth }
    requires long { voxel_count (S.shape store.old).depth ≤ length words.now }
    requires empty { (i : ℕ) → S.cell store.old i ≡ Unknown }
    ensures answer { told result ≡ sweep_answer (S.shape store.old) (word_cells words.now) (S.cell store.old) }
    ensures cells { (i : ℕ) → S.cell store.new i ≡ swept_cells (S.shape store.old) (word_cells words.now) (S.cell store.old) (told result) i }
    ensures shape { S.shape store.new ≡ S.shape store.old }
{
    let mut loaded = Swept { set: 0, skipped: 0 };
    // By index and not by word: the index names the voxel to the store.
    for index in 0..voxel_count(store.depth()) {
        match place_voxel(store, index, words[index]) {
            Ok(placed) => loaded = counted(loaded, placed),
            Err(refusal) => {
                store.clear();
                return Err(refusal);
            }
        }
    }
    Ok(loaded)
}
