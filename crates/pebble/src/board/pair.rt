// Two joints at which slots are gathered.
ghost use Rattle.pebble.specs.Moves.{TwoJoints};

use sets::JointId;

// Two joints of a board, which differ.
#[derive(Clone, Copy)]
pub(super) struct Pair {
    pub(super) u: JointId,
    pub(super) v: JointId,
    ghost two: { TwoJoints u.0 v.0 },
}
