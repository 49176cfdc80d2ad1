// What the moves on a board come to where they fall short.
use sets::JointSet;

// A joint has no empty slot, and none can be made. These joints were seen: those that were to be kept, and those that are reached from it past none
// of them.
#[derive(Clone, Copy, PartialEq, Eq, Debug)]
pub struct Stuck {
    pub seen: JointSet,
}

// Fewer slots than were wanted are empty at two joints together, and no further one can be emptied: how many, and the joints that are reached from
// the two.
#[derive(Clone, Copy, PartialEq, Eq, Debug)]
pub struct Short {
    pub empty: u64,
    pub reached: JointSet,
}
