// A bar as the board knows it: an identity and two ends.
ghost use Rattle.std.specs.Prelude.{◌≡◌};
ghost use Rattle.pebble.specs.Slots.{other};

use sets::{BarId, Ends, JointId};

// A bar with its identity, whole, so that no table of bars is needed to know its ends. It may be a bar of no frame.
#[derive(Clone, Copy, PartialEq, Eq, Debug)]
pub struct Item {
    pub bar: BarId,
    pub ends: Ends,
}

impl Item {
    // The end that is not this joint: the first, unless that is this joint.
    pub fn other_end(&self, joint: JointId) -> JointId
        ensures { result.0 ≡ other self.now joint.0 }
    {
        if self.ends.one == joint {
            self.ends.two
        } else {
            self.ends.one
        }
    }
}
