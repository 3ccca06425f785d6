ghost use Rattle.std.specs.Iterator.{at_most};
ghost use Rattle.std.specs.Prelude.{◌≡◌, ◌<◌};
ghost use Rattle.tracing.specs.Walks.{AxisHasRoom, HasRoom, StepsOn, axis_at, crossed, crossings_left, current_voxel, leads, next_of, walk_at};

use crate::Ray;
use voxels::{Axis, TICKS, Voxel};

// A walk along one axis: the coordinate that it has come to, the crossings that are left, and the next of them, which comes at the fraction reach / span of the line.
#[derive(Clone, Copy)]
pub struct AxisWalk {
    pub up: bool,
    pub coordinate: u16,
    pub left: u16,
    pub reach: u16,
    pub span: u16,
}

// A walk along a line from voxel to voxel, after Amanatides and Woo (1987), in whole numbers. Its items are the voxels that the line passes.
#[derive(Drop)]
pub struct Walk {
    pub x: AxisWalk,
    pub y: AxisWalk,
    pub z: AxisWalk,
}

impl AxisWalk {
    // At the start of a line from one tick to another. All axes are alike; the contract speaks of x.
    fn new(from: u16, to: u16) -> AxisWalk
        ensures { result ≡ axis_at (record { x = from; y = 0; z = 0 }) (record { x = to; y = 0; z = 0 }) 0 0 }
    {
        let up = from < to;
        let past = from % TICKS;
        AxisWalk {
            up,
            coordinate: from / TICKS,
            left: (from / TICKS).abs_diff(to / TICKS),
            reach: if up { TICKS - past } else { past },
            span: to.abs_diff(from),
        }
    }

    // Whether the next crossing comes no later than the other axis's. The fractions are compared by products.
    fn leads(self, other: AxisWalk) -> bool
        ensures { result ≡ leads self other }
    {
        let own = u32::from(self.reach) * u32::from(other.span);
        let others = u32::from(other.reach) * u32::from(self.span);
        other.left == 0 || (self.left > 0 && own <= others)
    }

    // Over the next plane.
    fn cross(&mut self)
        requires some_left { 0 < self.old.left }
        requires room { AxisHasRoom self.old }
        ensures value { self.new ≡ crossed self.old }
        ensures room { AxisHasRoom self.new }
    {
        if self.up {
            self.coordinate += 1;
        } else {
            self.coordinate -= 1;
        }
        self.left -= 1;
        self.reach += TICKS;
    }
}

impl Walk {
    pub fn new(ray: Ray) -> Walk
        ensures { result ≡ walk_at ray.origin ray.end (λ _. 0) }
    {
        let Ray { origin, end } = ray;
        Walk {
            x: AxisWalk::new(origin.x, end.x),
            y: AxisWalk::new(origin.y, end.y),
            z: AxisWalk::new(origin.z, end.z),
        }
    }

    // Crossings that are left, on all axes.
    pub fn left(&self) -> usize
        ensures { result ≡ crossings_left self.now }
    {
        let x = usize::from(self.x.left);
        let y = usize::from(self.y.left);
        let z = usize::from(self.z.left);
        x + y + z
    }

    // The voxel that the walk is in.
    fn voxel(&self) -> Voxel
        ensures { result ≡ current_voxel self.now }
    {
        Voxel {
            x: self.x.coordinate,
            y: self.y.coordinate,
            z: self.z.coordinate,
        }
    }

    // The axis of the next crossing; of crossings at one point x comes first, then y, then z.
    fn next_axis(&self) -> Axis
        ensures { result ≡ next_of self.now }
    {
        if self.x.leads(self.y) {
            if self.x.leads(self.z) {
                Axis::X
            } else {
                Axis::Z
            }
        } else if self.y.leads(self.z) {
            Axis::Y
        } else {
            Axis::Z
        }
    }
}

impl Iterator for Walk {
    type Item = Voxel;

    ghost can_next = { HasRoom };

    ghost next_gives = { StepsOn };

    ghost remaining = { λ walk. at_most (crossings_left walk) };

    // The voxel that the next crossing leaves.
    fn next(&mut self) -> Option<Voxel> {
        if self.left() == 0 {
            return None;
        }
        let voxel = self.voxel();
        match self.next_axis() {
            Axis::X => self.x.cross(),
            Axis::Y => self.y.cross(),
            Axis::Z => self.z.cross(),
        }
        Some(voxel)
    }
}
