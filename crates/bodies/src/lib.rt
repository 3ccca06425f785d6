// Bodies: the two-bit code by which a map is filed.
#![tactic(auto)]

mod checks;
mod codes;
mod cubes;
mod loads;
mod reader;
mod writer;
mod writes;

pub use checks::{check, verdict};
pub use loads::load;
// What a load came to. Its callers need not know that a sweep made it.
pub use stores::Swept as Loaded;
pub use writes::write;
