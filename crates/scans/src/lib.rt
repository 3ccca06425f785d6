// Scans: from the range head's text to the cells of any store.
#![tactic(auto)]

mod calls;
mod lines;
mod marks;
mod reader;
mod rule;

pub use calls::{Scanned, scan};
