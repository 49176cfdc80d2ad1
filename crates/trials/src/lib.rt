// Tests of the crates below, in a crate of their own, since a crate with tests is proved twice.
#![tactic(auto)]

#[cfg(test)]
mod certificates;
#[cfg(test)]
mod frames;
#[cfg(test)]
mod joint_sets;
