// The moves of items from joint to joint: room is made at a joint, and empty slots are gathered at two.
ghost use Rattle.std.specs.Prelude.{◌≡◌, true, false, [], ◌∷◌, is_ok};
ghost use Rattle.sets.specs.Words.{members};
ghost use Rattle.frame.specs.Answers.{Answered};
ghost use Rattle.pebble.specs.Calls.{joint_row, pair_rows};
ghost use Rattle.pebble.specs.Moves.{MovedOn, FoundRoom, RoomSays, EmptiedOne, GatherSays};
ghost use Rattle.pebble.specs.Boards.{joints_of, slots_of};

use crate::board::Board;
use crate::board::pair::Pair;
use crate::board::table::Table;
use crate::fault::Fault;
use crate::outcome::{Short, Stuck};
use sets::{JointId, JointSet};

impl Board {
    // Makes room at a joint, by moving items on from joint to joint, and leaves the slots of the joints that are to be kept as they are.
    pub fn make_room(&mut self, joint: JointId, kept: &JointSet) -> Result<Result<(), Stuck>, Fault>
        ensures joints { joints_of self.new ≡ joints_of self.old }
        ensures after { Answered (λ room. RoomSays (slots_of self.old) (members kept.now) joint.0 room (slots_of self.new)) result (joint_row (joints_of self.old) joint.0 ∷ []) }
        ensures refused { is_ok result ≡ false → slots_of self.new ≡ slots_of self.old }
    {
        self.judge_joint(joint)?;
        Ok(self.table.room_in(joint, kept))
    }

    // Gathers empty slots at two joints, until so many as are wanted are empty at both together, or no further one can be emptied.
    pub fn gather(
        &mut self,
        u: JointId,
        v: JointId,
        wanted: u64,
    ) -> Result<Result<(), Short>, Fault>
        ensures joints { joints_of self.new ≡ joints_of self.old }
        ensures after { Answered (λ g. GatherSays (joints_of self.old) (slots_of self.old) u.0 v.0 wanted g (slots_of self.new)) result (pair_rows (joints_of self.old) u.0 v.0) }
        ensures refused { is_ok result ≡ false → slots_of self.new ≡ slots_of self.old }
    {
        let pair = self.judge_pair(u, v)?;
        Ok(self.table.gather_in(pair, wanted))
    }
}

impl Table {
    // Makes room at a joint: it has an empty slot, or one of its items is moved on.
    fn room_in(&mut self, joint: JointId, kept: &JointSet) -> Result<(), Stuck>
        ensures { RoomSays self.old.slots (members kept.now) joint.0 result self.new.slots }
    {
        if self.empty_slot(joint).is_some() {
            return Ok(());
        }
        let mut seen = *kept;
        if !seen.insert(joint) {
            return Err(Stuck { seen });
        }
        self.move_on(&mut seen, joint).ok_or(Stuck { seen })?;
        Ok(())
    }

    // Empties one slot after the other at two joints.
    fn gather_in(&mut self, pair: Pair, wanted: u64) -> Result<(), Short>
        ensures { GatherSays 512 self.old.slots pair.u.0 pair.v.0 wanted result self.new.slots }
    {
        for empty in self.room_at(pair.u) + self.room_at(pair.v)..wanted {
            self.empty_one(pair)
                .map_err(|reached| Short { empty, reached })?;
        }
        Ok(())
    }

    // Moves an item of one of two joints on, so that one more slot is empty there; or else the joints that are reached from the two.
    fn empty_one(&mut self, pair: Pair) -> Result<(), JointSet>
        ensures { EmptiedOne self.old.slots pair.u.0 pair.v.0 result self.new.slots }
    {
        let Pair { u, v } = pair;
        let mut seen = JointSet::empty();
        seen.insert(u);
        seen.insert(v);
        if self.move_on(&mut seen, u).is_some() || self.move_on(&mut seen, v).is_some() {
            return Ok(());
        }
        Err(seen)
    }

    // Moves one of the items of a joint on to its other end, if room can be made there, and answers the slot that it leaves.
    #[cycle(find_room_move_on)]
    fn move_on(&mut self, seen: &mut JointSet, joint: JointId) -> Option<usize>
        requires { members seen.old joint.0 ≡ true }
        ensures { MovedOn self.old.slots (members seen.old) joint.0 result self.new.slots (members seen.new) }
    {
        for (k, held) in self.items_at(joint).iter().enumerate() {
            let Some(item) = held else {
                continue;
            };
            let other = item.other_end(joint);
            if !seen.insert(other) {
                continue;
            }
            if let Some(free) = self.find_room(seen, other) {
                let slot = 2 * joint.0 as usize + k;
                self.slots.swap(slot, free);
                return Some(slot);
            }
        }
        None
    }

    // An empty slot of a joint: one that is empty already, or one that an item leaves which is moved on.
    #[cycle(find_room_move_on)]
    fn find_room(&mut self, seen: &mut JointSet, joint: JointId) -> Option<usize>
        requires { members seen.old joint.0 ≡ true }
        ensures { FoundRoom self.old.slots (members seen.old) joint.0 result self.new.slots (members seen.new) }
    {
        // Not `or_else`: its closure would be a third function of the ring, with a contract and a measure of its own.
        match self.empty_slot(joint) {
            Some(slot) => Some(slot),
            None => self.move_on(seen, joint),
        }
    }
}
