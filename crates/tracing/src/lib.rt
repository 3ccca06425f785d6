// The voxels that a line passes, marked on a work page.
#![tactic(auto)]

ghost use Rattle.std.specs.Prelude.{◌≡◌, ℕ, ◌+◌, ◌≤◌, true, false, length, if◌then◌else◌, slice_index};
ghost use Rattle.voxels.specs.Space.{in_map, voxel_count, voxel_of};
ghost use Rattle.tracing.specs.Lines.{crossings, passes};
ghost use Rattle.tracing.specs.Marks.{ended_word, traceable, traced_word};
ghost use Rattle.tracing.specs.Walks.{marked_word};

mod walks;

use voxels::{Position, Voxel, voxel_count};
use walks::Walk;

// The mark of a voxel that lines only pass.
pub const MISS_MARK: u16 = 1;

// The mark of a voxel that a line ends in.
pub const HIT_MARK: u16 = 2;

// A line of sight, from the range head to where it ends.
#[derive(Clone, Copy)]
pub struct Ray {
    pub origin: Position,
    pub end: Position,
}

// Marks the voxels that the line passes, all but the end voxel's; a voxel that was hit stays so. Returns the steps of the walk.
// Where an end lies outside the map, or the page has too few words, the page is left and 0 returned: the line has no steps there, and no caller needs to know why.
// Page and depth stay two parameters: a struct of both would be made at each call, and would owe a clause more each time, that it still holds the same page.
pub fn trace(page: &mut [u16], depth: u8, ray: Ray) -> usize
    ensures marks { (i : ℕ) → slice_index page.new i ≡ traced_word depth ray.origin ray.end page.old i }
    ensures steps { result ≡ (if traceable depth ray.origin ray.end page.old then crossings ray.origin ray.end 0 + crossings ray.origin ray.end 1 + crossings ray.origin ray.end 2 else 0) }
    ensures inside { traceable depth ray.origin ray.end page.old ≡ true → (v : Voxel) → passes ray.origin ray.end v ≡ true → in_map depth v ≡ true }
    ensures end { passes ray.origin ray.end (voxel_of ray.end) ≡ false }
{
    if !is_traceable(page, depth, ray) {
        return 0;
    }
    let walk = Walk::new(ray);
    let crossings = walk.left();
    for voxel in walk {
        mark_passed(page, depth, voxel);
    }
    crossings
}

// Whether both ends lie in the map and the page has a word for each voxel.
fn is_traceable(page: &[u16], depth: u8, ray: Ray) -> bool
    ensures { result ≡ traceable depth ray.origin ray.end page.now }
{
    in_map(depth, ray.origin.voxel())
        && in_map(depth, ray.end.voxel())
        && voxel_count(depth) <= page.len()
}

fn in_map(depth: u8, voxel: Voxel) -> bool
    ensures { result ≡ in_map depth voxel }
{
    voxel.index(depth).is_some()
}

// Marks one voxel, unless it was hit.
fn mark_passed(page: &mut [u16], depth: u8, voxel: Voxel)
    requires { voxel_count depth ≤ length page.old }
    ensures { (i : ℕ) → slice_index page.new i ≡ marked_word depth voxel page.old i }
{
    if let Some(index) = voxel.index(depth)
        && page[index] != HIT_MARK
    {
        page[index] = MISS_MARK;
    }
}

// Marks the voxel that a position lies in as hit. Where it lies outside the map, or the page has too few words, the page is left.
pub fn mark_end(page: &mut [u16], depth: u8, end: Position)
    ensures { (i : ℕ) → slice_index page.new i ≡ ended_word depth end page.old i }
{
    if voxel_count(depth) <= page.len()
        && let Some(index) = end.voxel().index(depth)
    {
        page[index] = HIT_MARK;
    }
}
