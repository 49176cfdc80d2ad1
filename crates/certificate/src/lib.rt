// Certificates that a person can count through: a list shows that a set of bars is free, and a sheet shows how many bars a free part
// of a set can have. Nothing here allocates, and nothing lent is changed.
#![tactic(auto)]

mod bars;
pub mod checkers;
pub mod laws;
mod list;
mod sheet;
pub mod verdict;

pub use checkers::{check_largest, check_list, check_sheet};
pub use verdict::{GroupId, NotLargest, Overfull, SheetVerdict};
