// Tests of the pebble game, in a crate of their own beside the other tests, so that both are proved at once.
#![tactic(auto)]

#[cfg(test)]
mod boards;
