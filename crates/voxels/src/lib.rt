// Voxels and their index, cells and their update, cubes and blocks, refusals, and the guard of a lent work page.
#![tactic(auto)]

mod cells;
mod cubes;
mod pages;
mod refusals;
mod space;

pub use cells::{Cell, Event, NoState, State};
pub use cubes::{cube_at, most_blocks};
pub use pages::{WorkPage, check_page, wipe_voxels};
pub use refusals::{Reason, Refusal};
pub use space::{Axis, Position, TICKS, Voxel, side, voxel_count};
