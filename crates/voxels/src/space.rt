ghost use Rattle.std.specs.Prelude.{◌≡◌, ◌<◌, ◌≤◌, IfSome, Some};
ghost use Rattle.voxels.specs.Space.{axis_number, coordinate, index_in, octant, side, voxel_count, voxel_in, voxel_of};

// A point of the map's space, in ticks from its corner. Its fields are those of a voxel, whose unit is another, so that neither is taken for the other.
#[derive(Clone, Copy)]
pub struct Position {
    pub x: u16,
    pub y: u16,
    pub z: u16,
}

#[derive(Clone, Copy, PartialEq, Eq, Debug)]
pub struct Voxel {
    pub x: u16,
    pub y: u16,
    pub z: u16,
}

// An axis of the map's space.
#[derive(Clone, Copy, PartialEq, Eq, Debug)]
pub enum Axis {
    X,
    Y,
    Z,
}

impl Axis {
    // The bit that a digit of an index has for the axis.
    fn bit(self) -> u8
        ensures { result ≡ axis_number self }
    {
        self as u8
    }
}

// Ticks along the edge of a voxel.
pub const TICKS: u16 = 64;

impl Position {
    // The voxel that the position lies in.
    pub fn voxel(self) -> Voxel
        ensures { result ≡ voxel_of self }
    {
        Voxel {
            x: self.x / TICKS,
            y: self.y / TICKS,
            z: self.z / TICKS,
        }
    }
}

impl Voxel {
    // The voxel's index in a map of that depth, where it lies in one. The digits are summed from the lowest one up, as the index is defined.
    pub fn index(self, depth: u8) -> Option<usize>
        ensures value { result ≡ index_in depth self }
        ensures back { IfSome result (λ i. voxel_in depth i ≡ Some self) }
    {
        let side = side(depth);
        if self.x >= side || self.y >= side || self.z >= side {
            return None;
        }
        let mut index = 0;
        let mut weight = 1;
        for level in 0..depth {
            index += weight * self.octant(level);
            weight *= 8;
        }
        Some(index)
    }

    // The voxel at an index of a map of that depth.
    pub fn at(index: usize, depth: u8) -> Option<Voxel>
        ensures value { result ≡ voxel_in depth index }
        ensures back { IfSome result (λ v. index_in depth v ≡ Some index) }
    {
        if index >= voxel_count(depth) {
            return None;
        }
        Some(Voxel {
            x: coordinate(index, depth, Axis::X),
            y: coordinate(index, depth, Axis::Y),
            z: coordinate(index, depth, Axis::Z),
        })
    }

    // Which child of its cube of the next level its cube of that level is.
    fn octant(self, level: u8) -> usize
        requires { level < 16 }
        ensures { result ≡ octant level self }
    {
        let x = (self.x >> level) % 2;
        let y = (self.y >> level) % 2;
        let z = (self.z >> level) % 2;
        usize::from(x + 2 * y + 4 * z)
    }
}

// Voxels along an axis and in a map, by its depth. Both are asked at each voxel, where a shift or a cube costs more than a look.
const SIDES: [u16; 6] = [0, 2, 4, 8, 16, 32];

const VOXEL_COUNTS: [usize; 6] = [0, 8, 64, 512, 4096, 32768];

// Voxels along an axis of a map of that depth. Where no map has it that is 0, a count and no refusal.
pub fn side(depth: u8) -> u16
    ensures { result ≡ side depth }
{
    SIDES.get(usize::from(depth)).copied().unwrap_or(0)
}

// Voxels in a map of that depth, 0 where no map has it.
pub fn voxel_count(depth: u8) -> usize
    ensures { result ≡ voxel_count depth }
{
    VOXEL_COUNTS.get(usize::from(depth)).copied().unwrap_or(0)
}

// A coordinate from an axis's bits of the digits of an index.
fn coordinate(index: usize, depth: u8, axis: Axis) -> u16
    requires { depth ≤ 5 }
    ensures { result ≡ coordinate (axis_number axis) depth index }
{
    let mut rest = index;
    let mut coordinate = 0;
    let mut weight = 1;
    for _level in 0..depth {
        let digit = (rest % 8) as u16;
        coordinate += weight * ((digit >> axis.bit()) % 2);
        weight *= 2;
        rest /= 8;
    }
    coordinate
}
