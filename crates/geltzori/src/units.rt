// Sets up the unit that a session asks for, under its masks.
ghost use Rattle.std.specs.Prelude.{◌≡◌};

use crate::command::Call;
use crate::faults::{Fault, Flaw};
use crate::replay::{introduce, replay, tell};
use crate::session::{MaskCall, Session};
use std::rt::Files;
use stores::{Grid, Mask, Masked, Store};
use voxels::voxel_count;

// The masks that were laid, the first one lowest. They are cases and no list, as each number of them makes a store of another type.
#[derive(Clone, Copy)]
enum Laid {
    None,
    One(Mask),
    Two(Mask, Mask),
}

impl Laid {
    // The masks with another on top; no more than two fit.
    fn with(self, mask: Mask) -> Laid
        ensures { result ≡ elim self [ Laid.None ↦ Laid.One mask | Laid.One lower ↦ Laid.Two lower mask | Laid.Two lower upper ↦ Laid.Two lower upper ] }
    {
        match self {
            Laid::None => Laid::One(mask),
            Laid::One(lower) => Laid::Two(lower, mask),
            Laid::Two(..) => self,
        }
    }
}

pub fn run(rt: &(impl Print + Files + AllocGlobal), session: &Session<'_>) -> Result<(), Fault> {
    let mut words = vec![in rt.alloc(); 0u16; voxel_count(session.depth)]?;
    let grid = Grid::new(&mut words, session.depth);
    introduce(rt, &grid)?;
    let laid = session
        .masks
        .iter()
        .try_fold(Laid::None, |laid, call| laid_with(rt, laid, call))?;
    replay_under(rt, grid, laid, &session.calls)
}

// Over any store, since a type argument may not yet hold both a `&mut` and a struct with a ghost field, as `Masked<Grid>` does.
fn replay_under<S: Store + Drop>(
    rt: &(impl Print + Files + AllocGlobal),
    mut store: S,
    laid: Laid,
    calls: &[Call<'_>],
) -> Result<(), Fault> {
    match laid {
        Laid::None => replay(rt, &mut store, calls),
        Laid::One(mask) => replay(rt, &mut Masked::new(store, mask), calls),
        Laid::Two(lower, upper) => {
            let masked = Masked::new(store, lower);
            replay(rt, &mut Masked::new(masked, upper), calls)
        }
    }
}

fn laid_with(
    rt: &(impl Print + AllocGlobal),
    laid: Laid,
    call: &MaskCall<'_>,
) -> Result<Laid, Fault> {
    if let Laid::Two(..) = laid {
        return Err(call.line.fault(rt.alloc(), Flaw::ThirdMask));
    }
    let mut mask = Mask::empty();
    let filled = mask.fill(&call.bytes);
    tell(rt, "mask", filled)?;
    if filled.is_err() {
        return Ok(laid);
    }
    Ok(laid.with(mask))
}
