// The numbers of joints and of bars, as two types that cannot be mixed, and the two ends of a bar.

// The number of a joint, from 0.
#[derive(Clone, Copy, PartialEq, Eq, Debug)]
pub struct JointId(pub u16);

// The number of a bar, from 0.
#[derive(Clone, Copy, PartialEq, Eq, Debug)]
pub struct BarId(pub u32);

// The joints at the two ends of a bar.
#[derive(Clone, Copy, PartialEq, Eq, Debug)]
pub struct Ends {
    pub one: JointId,
    pub two: JointId,
}
