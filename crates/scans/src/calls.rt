ghost use Rattle.std.specs.Prelude.{◌≡◌, ℕ, ◌≤◌, length, slice_index};
ghost use Rattle.scans.specs.Alike.{OrderFree};
ghost use Rattle.scans.specs.Scans.{scan_answer, scan_cells, text_answer};
ghost use Rattle.scans.specs.Texts.{read_text};
ghost use Rattle.voxels.specs.Pages.{guarded, wiped};
ghost use Rattle.voxels.specs.Refusals.{told};
ghost use Rattle.voxels.specs.Space.{voxel_count};

use crate::marks::mark_lines;
use crate::rule::ByMark;
use stores::{Store, Swept, sweep};
use voxels::{Refusal, WorkPage, check_page, voxel_count};

// What a scan came to: the bytes used up to and with its end line, the open voxels hit or missed, and the closed ones skipped.
#[derive(Clone, Copy, PartialEq, Eq, Debug)]
pub struct Scanned {
    pub used: usize,
    pub set: u32,
    pub skipped: u32,
}

// Takes a scan's text into the cells of a store, by way of a lent page. A refused scan changes no cell.
pub fn scan<S: Store>(store: &mut S, page: &mut [u16], text: &[u8]) -> Result<Scanned, Refusal>
    ensures answer { told result ≡ scan_answer (S.shape store.old) (S.cell store.old) (length page.old) text.now }
    ensures cells { (i : ℕ) → S.cell store.new i ≡ scan_cells (S.shape store.old) (S.cell store.old) (told result) text.now i }
    ensures page { page.new ≡ wiped (guarded (S.shape store.old).depth page.old) page.old }
    ensures order { OrderFree (S.shape store.old) (S.cell store.old) text.now }
    ensures shape { S.shape store.new ≡ S.shape store.old }
{
    let depth = store.depth();
    check_page(depth, page.len())?;
    let guard = WorkPage { words: page, depth };
    scan_over(store, guard.words, text)
}

// The scan itself, over a page that its caller wipes. That the words behind the voxels stay is a clause: a guard over a part of the page would lose its tie to the rest (`WorkPage`).
fn scan_over<S: Store>(store: &mut S, page: &mut [u16], text: &[u8]) -> Result<Scanned, Refusal>
    requires { voxel_count (S.shape store.old).depth ≤ length page.old }
    ensures answer { told result ≡ text_answer (S.shape store.old) (S.cell store.old) (read_text (S.shape store.old).depth text.now) }
    ensures cells { (i : ℕ) → S.cell store.new i ≡ scan_cells (S.shape store.old) (S.cell store.old) (told result) text.now i }
    ensures shape { S.shape store.new ≡ S.shape store.old }
    ensures rest { (k : ℕ) → voxel_count (S.shape store.old).depth ≤ k → slice_index page.new k ≡ slice_index page.old k }
{
    let depth = store.depth();
    let words = &mut page[..voxel_count(depth)];
    words.fill(0);
    let used = mark_lines(words, depth, text)?;
    let Swept { set, skipped } = sweep::<S, ByMark>(store, words)?;
    Ok(Scanned { used, set, skipped })
}
