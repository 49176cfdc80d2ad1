// The numbers of joints and of bars, and sets of joints, with the definition of a set and of how many it has.
#![tactic(auto)]

pub mod ids;
pub mod joint_set;
pub mod laws;

pub use ids::{BarId, Ends, JointId};
pub use joint_set::JointSet;
