ghost use Rattle.std.specs.Prelude.{◌≡◌, EachIndex, ℕ, ◌≤◌, length, slice_index};
ghost use Rattle.bodies.specs.Codes.{state_code};
ghost use Rattle.bodies.specs.Theorems.{OnlyStates, ReadsBack};
ghost use Rattle.bodies.specs.Writes.{room_answer, write_answer, written};
ghost use Rattle.voxels.specs.Cells.{state_of};
ghost use Rattle.voxels.specs.Pages.{guarded, wiped};
ghost use Rattle.voxels.specs.Refusals.{told};
ghost use Rattle.voxels.specs.Space.{voxel_count};

use crate::cubes::Cube;
use crate::writer::Branch;
use stores::Store;
use voxels::{Reason, Refusal, WorkPage, check_page, voxel_count};

// Writes the body of a store's map to the front of the output, by way of a lent page, and gives its length. A refused write leaves the output.
pub fn write<S: Store>(store: &S, page: &mut [u16], output: &mut [u8]) -> Result<usize, Refusal>
    ensures answer { told result ≡ write_answer (S.shape store.now).depth (S.cell store.now) (length page.old) (length output.old) }
    ensures bytes { output.new ≡ written (S.shape store.now).depth (S.cell store.now) output.old (told result) }
    ensures page { page.new ≡ wiped (guarded (S.shape store.now).depth page.old) page.old }
    ensures back { ReadsBack (S.shape store.now).depth (S.cell store.now) }
    ensures only { OnlyStates (S.shape store.now).depth (S.cell store.now) }
{
    let depth = store.depth();
    check_page(depth, page.len())?;
    let guard = WorkPage { words: page, depth };
    write_over(store, guard.words, output)
}

// The write itself, over a page that its caller wipes. That the words behind the voxels stay is a clause: a guard over a part of the page would lose its tie to the rest (`WorkPage`).
fn write_over<S: Store>(store: &S, words: &mut [u16], output: &mut [u8]) -> Result<usize, Refusal>
    requires some { 1 ≤ (S.shape store.now).depth }
    requires long { voxel_count (S.shape store.now).depth ≤ length words.old }
    ensures answer { told result ≡ room_answer (S.shape store.now).depth (S.cell store.now) (length output.old) }
    ensures bytes { output.new ≡ written (S.shape store.now).depth (S.cell store.now) output.old (told result) }
    ensures rest { (k : ℕ) → voxel_count (S.shape store.now).depth ≤ k → slice_index words.new k ≡ slice_index words.old k }
{
    let depth = store.depth();
    let states = &mut words[..voxel_count(depth)];
    keep_states(store, states);
    let root = Branch {
        words: states,
        cube: Cube::root(depth),
    };
    if output.len() < root.body_length() {
        return Err(Reason::ShortOutput.into());
    }
    Ok(root.write_pair(output))
}

// Puts the code of each voxel's state into its word.
fn keep_states<S: Store>(store: &S, words: &mut [u16])
    ensures { EachIndex words.new (λ i. slice_index words.new i ≡ state_code (state_of (S.cell store.now i))) }
{
    for (index, word) in words.iter_mut().enumerate() {
        *word = store.read(index).state() as u16;
    }
}
