ghost use Rattle.std.specs.Prelude.{◌≡◌, refl};
ghost use Rattle.scans.specs.Sweeps.{marked_cell, mark_event};

use stores::Rule;
use tracing::{HIT_MARK, MISS_MARK};
use voxels::{Cell, Event};

// A mark lets its voxel's cell see a hit or a miss.
pub struct ByMark;

impl Rule for ByMark {
    ghost wanted = { marked_cell };

    fn wanted(mark: u16, cell: Cell) -> Option<Cell> {
        event_of(mark).map(|event| cell.updated(event))
    }

    ghost silent = { λ cell. refl };
}

fn event_of(mark: u16) -> Option<Event>
    ensures { result ≡ mark_event mark }
{
    match mark {
        MISS_MARK => Some(Event::Miss),
        HIT_MARK => Some(Event::Hit),
        _ => None,
    }
}
