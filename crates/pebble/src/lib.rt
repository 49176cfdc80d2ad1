// The pebble game: bars given to their ends, two slots a joint, and moved on from joint to joint to make room.
#![tactic(auto)]

pub mod board;
pub mod fault;
pub mod item;
pub mod laws;
pub mod outcome;

pub use board::Board;
pub use fault::Fault;
pub use item::Item;
pub use outcome::{Short, Stuck};
