ghost use Rattle.std.specs.Prelude.{◌≡◌};
ghost use Rattle.voxels.specs.Pages.{guarded, over_page, wiped};
ghost use Rattle.voxels.specs.Refusals.{taken, told};

use crate::refusals::{Reason, Refusal};
use crate::space::voxel_count;

// A lent work page. It holds the whole page, and what works on the voxels' words says that those behind them stay: of a guard over a part of the page proofs lose the tie to the rest.
// When the guard ends, on whatever way out, it wipes a word for each voxel of a map of its depth; a page with fewer words it leaves.
pub struct WorkPage<'a> {
    pub words: &'a mut [u16],
    pub depth: u8,
}

impl Drop for WorkPage<'_> {
    fn drop(self)
        ensures { self.exit.0.now ≡ wiped (guarded self.entry.depth self.entry.words.now) self.entry.words.now }
    {
        let depth = self.depth;
        wipe_voxels(self.words, depth);
        let WorkPage { words: _, depth: _ } = self;
    }
}

// Zeroes a word for each voxel of a map of that depth; leaves the words where there are fewer.
pub fn wipe_voxels(words: &mut [u16], depth: u8)
    ensures { words.new ≡ wiped (guarded depth words.old) words.old }
{
    let count = voxel_count(depth);
    if count <= words.len() {
        words[..count].fill(0);
    }
}

// Whether a call has a map, and a word of its page for each voxel.
pub fn check_page(depth: u8, words: usize) -> Result<(), Refusal>
    ensures { told result ≡ over_page depth words (taken tt) }
{
    if depth == 0 {
        return Err(Reason::NoMap.into());
    }
    if words < voxel_count(depth) {
        return Err(Reason::ShortPage.into());
    }
    Ok(())
}
