// What a board tells of the items on it, and how one is put on it and taken out.
ghost use Rattle.std.specs.Prelude.{◌≡◌, ◌+◌, ◌*◌, ◌/◌, ◌<◌, ◌≤◌, false, [], ◌∷◌, IfSome, is_ok, MatchOption, nat_lt};
ghost use Rattle.std.specs.List.{position};
ghost use Rattle.std.specs.Option.{option_map};
ghost use Rattle.std.specs.Bool.{then_some};
ghost use Rattle.frame.specs.Answers.{Judged, Answered};
ghost use Rattle.pebble.specs.Slots.{nothing, slot, room};
ghost use Rattle.pebble.specs.Calls.{named, where_is, joint_row, pair_rows, put_rows, Put, Taken};
ghost use Rattle.pebble.specs.Boards.{joints_of, slots_of};

use crate::board::pair::Pair;
use crate::board::table::Table;
use crate::board::{Board, MOST_JOINTS};
use crate::fault::Fault;
use crate::item::Item;
use sets::{BarId, JointId};

impl Board {
    // The empty board for so many joints, or none for more than 512.
    pub fn new(joints: u64) -> Option<Board>
        ensures { MatchOption result (512 < joints) (λ b. (joints ≤ 512) × (joints_of b ≡ joints) × (slots_of b ≡ nothing)) }
    {
        if joints > MOST_JOINTS {
            return None;
        }
        Some(Board {
            joints,
            table: Table::empty(),
        })
    }

    // How many joints there are.
    pub fn joint_count(&self) -> u64
        ensures { result ≡ joints_of self.now }
    {
        self.joints
    }

    // What the two slots of a joint hold. Past the board there is nothing.
    pub fn items_at(&self, joint: JointId) -> [Option<Item>; 2]
        ensures { result ≡ slot (slots_of self.now) (2 * joint.0) ∷ (slot (slots_of self.now) (2 * joint.0 + 1) ∷ []) }
    {
        self.table.items_at(joint)
    }

    // How many slots of a joint are empty, or none past the board.
    pub fn empty_slots(&self, joint: JointId) -> Option<u64>
        ensures { result ≡ then_some (nat_lt joint.0 (joints_of self.now)) (room (slots_of self.now) joint.0) }
    {
        if joint.0 as u64 >= self.joints {
            return None;
        }
        Some(self.table.room_at(joint))
    }

    // The joint at which a bar lies, if it is placed.
    pub fn locate(&self, bar: BarId) -> Option<JointId>
        ensures { option_map (λ j. j.0) result ≡ option_map (λ s. s / 2) (where_is (slots_of self.now) bar.0) }
    {
        self.find(bar).map(|slot| JointId((slot / 2) as u16))
    }

    // Takes a bar out, and answers it; none where it is not placed.
    pub fn take(&mut self, bar: BarId) -> Option<Item>
        ensures joints { joints_of self.new ≡ joints_of self.old }
        ensures after { Taken (slots_of self.old) (where_is (slots_of self.old) bar.0) result (slots_of self.new) }
    {
        let slot = self.find(bar)?;
        let item = self.table.slots[slot];
        self.table.slots[slot] = None;
        item
    }

    // Puts an item into an empty slot of its first end, or else of its second, and answers which joint that is.
    pub fn put(&mut self, item: Item) -> Result<JointId, Fault>
        ensures joints { joints_of self.new ≡ joints_of self.old }
        ensures after { Answered (λ at. Put (slots_of self.old) item at (slots_of self.new)) result (put_rows (joints_of self.old) (slots_of self.old) item) }
        ensures refused { is_ok result ≡ false → slots_of self.new ≡ slots_of self.old }
    {
        self.judge_pair(item.ends.one, item.ends.two)?;
        if self.find(item.bar).is_some() {
            return Err(Fault::Placed(item.bar));
        }
        let slot = self.table.put_slot(&item).ok_or(Fault::NoRoom)?;
        self.table.slots[slot] = Some(item);
        Ok(JointId((slot / 2) as u16))
    }

    // The slot in which a bar lies, if it is placed.
    fn find(&self, bar: BarId) -> Option<usize>
        ensures value { result ≡ where_is (slots_of self.now) bar.0 }
        ensures below { IfSome result (λ s. s < 1024) }
    {
        first_with(&self.table.slots[..2 * self.joints as usize], bar)
    }

    // The two joints, if they are of the board and differ.
    pub(super) fn judge_pair(&self, u: JointId, v: JointId) -> Result<Pair, Fault>
        ensures { Answered (λ pair. (pair.u ≡ u) × (pair.v ≡ v)) result (pair_rows (joints_of self.now) u.0 v.0) }
    {
        self.judge_joint(u)?;
        self.judge_joint(v)?;
        if u == v {
            return Err(Fault::EqualJoints(u));
        }
        Ok(Pair { u, v })
    }

    // Whether a joint is of the board.
    pub(super) fn judge_joint(&self, joint: JointId) -> Result<(), Fault>
        ensures { Judged result (joint_row (joints_of self.now) joint.0) }
    {
        if joint.0 as u64 >= self.joints {
            return Err(Fault::JointPast(joint));
        }
        Ok(())
    }
}

// The first of some slots in which a bar lies, if it does.
fn first_with(slots: &[Option<Item>], bar: BarId) -> Option<usize>
    ensures { result ≡ position (named bar.0) slots.now }
{
    slots
        .iter()
        .position(|slot| slot.is_some_and(|item| item.bar == bar))
}
