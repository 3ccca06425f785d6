// What a store means, and the stores that need no tree: the flat grid, and a mask over any store.
#![tactic(auto)]

mod events;
mod grid;
mod mask;
mod masked;
mod store;
mod visits;

pub use events::apply;
pub use grid::Grid;
pub use mask::Mask;
pub use masked::Masked;
pub use store::Store;
pub use visits::{Rule, Swept, sweep};
