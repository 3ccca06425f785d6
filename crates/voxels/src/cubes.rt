ghost use Rattle.std.specs.Prelude.{◌≡◌, ◌/◌, ◌^◌};
ghost use Rattle.voxels.specs.Cubes.{OnlyOnPath, most_blocks, WithinMost};

use crate::space::voxel_count;

// As many blocks as a map of that depth can need: a full octree's. 0 where no map has the depth.
pub fn most_blocks(depth: u8) -> u16
    ensures value { result ≡ most_blocks depth }
    ensures enough { WithinMost depth }
{
    (voxel_count(depth).saturating_sub(1) / 7) as u16
}

// The number, among the aligned cubes of that level, of the one that holds the index. Setting the cell there can change no other cube of the level from mixed to uniform or back.
pub fn cube_at(index: usize, level: u8) -> usize
    ensures value { result ≡ index / 8 ^ level }
    ensures path { OnlyOnPath level index result }
{
    index.checked_shr(3 * u32::from(level)).unwrap_or(0)
}
