// Tables of cases with their expected answers, and code that is proved of every store from the trait alone.
#![tactic(auto)]

#[cfg(test)]
mod answers;
mod any_store;
mod fills;
mod full;
mod makes;
mod map_bodies;
mod masks;
mod scan_texts;
mod updates;

pub use any_store::exchange;
pub use full::Full;
