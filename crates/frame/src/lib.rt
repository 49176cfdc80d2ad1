// Frames of joints and bars, sets of bars, and what is refused. Nothing here allocates: all works on lent slices and words.
// Texts say pin where the code says joint.
#![tactic(auto)]

pub mod laws;
pub mod refusal;
pub mod rows;
pub mod views;

pub use refusal::{Lent, Refusal};
pub use sets::{BarId, Ends, JointId, JointSet};
pub use views::{BarSet, Frame};
