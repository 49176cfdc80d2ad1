// Why a board turns a call away.
use sets::{BarId, JointId};

// What is wrong with a call. Where several are, the first of these is the answer, and among joints the one that is named first in the call. A
// call that is turned away changes nothing.
#[derive(Clone, Copy, PartialEq, Eq, Debug)]
pub enum Fault {
    // A joint that the board does not have.
    JointPast(JointId),
    // Two joints that should differ.
    EqualJoints(JointId),
    // A bar that lies on the board already.
    Placed(BarId),
    // No slot is empty at either end of the bar.
    NoRoom,
}
