// The joints from which no empty slot is reached: links backwards, from each joint to the slots whose items lead to it, and a search along them.
ghost use Rattle.std.specs.Prelude.{◌≡◌};
ghost use Rattle.sets.specs.Words.{members};
ghost use Rattle.pebble.specs.Groups.{Unreaching};
ghost use Rattle.pebble.specs.Links.{outlets, Linked, Searchable, Dropped};
ghost use Rattle.pebble.specs.Boards.{joints_of, slots_of};

use crate::board::table::Table;
use crate::board::{Board, SLOTS};
use sets::joint_set::CAPACITY;
use sets::{JointId, JointSet};

// How many joints the table of links has.
const JOINTS: usize = CAPACITY as usize;

// The slots of a board with links backwards: of each joint the last slot whose item leads to it, and of each slot the last one before it that
// leads to the same joint. Two fixed tables, since nothing is allocated.
#[derive(Drop)]
struct Links<'a> {
    table: &'a Table,
    last: [Option<u16>; JOINTS],
    before: [Option<u16>; SLOTS],
}

impl<'a> Links<'a> {
    // The links over the slots of a board. Past the slots of its joints there is nothing to link.
    fn over(board: &'a Board) -> Links<'a>
        ensures same { result.table.now.slots ≡ board.now.table.slots }
        ensures linked { Linked board.now.table.slots 1024 result.last result.before }
    {
        let table = &board.table;
        let mut last = [None; JOINTS];
        let mut before = [None; SLOTS];
        for (slot, held) in table.slots[..2 * board.joints as usize].iter().enumerate() {
            if let Some(item) = held {
                let to = item.other_end(JointId(slot as u16 / 2)).0 as usize;
                before[slot] = last[to];
                last[to] = Some(slot as u16);
            }
        }
        Links {
            table,
            last,
            before,
        }
    }

    // Whether a joint has an empty slot, and is neither u nor v.
    fn is_outlet(&self, joint: JointId, u: JointId, v: JointId) -> bool
        ensures { result ≡ outlets self.now.table.now.slots u.0 v.0 joint.0 }
    {
        joint != u && joint != v && self.table.room_at(joint) > 0
    }

    // Takes out of the set each joint from which an item leads to this joint, and likewise from each that was still in.
    fn drop_behind(&self, rest: &mut JointSet, joint: JointId)
        requires { Searchable self.now.table.now.slots self.now.last self.now.before joint.0 }
        ensures { Dropped self.now.table.now.slots (members rest.old) joint.0 0 (members rest.new) }
    {
        let mut next = self.last[joint.0 as usize];
        // A list whose links lie in two tables, since nothing is allocated: from each slot to the one before it.
        while let Some(slot) = next {
            let from = JointId(slot / 2);
            if rest.remove(from) {
                self.drop_behind(rest, from);
            }
            next = self.before[slot as usize];
        }
    }
}

impl Board {
    // The joints from which no empty slot is reached along items, but at u and v: the largest group that no item leads out of and that is full
    // but for u and v.
    pub fn unreaching(&self, u: JointId, v: JointId) -> JointSet
        ensures { Unreaching (joints_of self.now) (slots_of self.now) u.0 v.0 (members result) }
    {
        let links = Links::over(self);
        let mut rest = JointSet::below(self.joints);
        for joint in (0..self.joints as u16).map(JointId) {
            if links.is_outlet(joint, u, v) && rest.remove(joint) {
                links.drop_behind(&mut rest, joint);
            }
        }
        rest
    }
}
