// The slots of a board, each empty or with an item.
ghost use Rattle.std.specs.Prelude.{◌≡◌, ◌+◌, ◌*◌, ◌/◌, ◌≤◌, true, [], ◌∷◌, length, IfSome, None, MatchOption};
ghost use Rattle.pebble.specs.Slots.{AtEnds, Apart, Once, nothing, slot, room, is_end};
ghost use Rattle.pebble.specs.Calls.{first_empty, slot_for};

use crate::board::SLOTS;
use crate::item::Item;
use sets::JointId;

// Two slots for each of 512 joints, in a fixed table, since nothing is allocated. Joint j has the slots 2j and 2j + 1. An item lies at one of its
// two ends, which differ, and no identity lies in two slots. Where a slot is turned into its joint, or a joint into its slots, that is written
// out: a function for `slot / 2` would be no plainer.
#[derive(Drop)]
pub(super) struct Table {
    pub(super) slots: [Option<Item>; SLOTS],
    ghost whole: { length slots ≡ 1024 },
    ghost ends: { AtEnds slots },
    ghost apart: { Apart 512 slots },
    ghost once: { Once slots },
}

impl Table {
    // The table with nothing in it.
    pub(super) fn empty() -> Table
        ensures { result.slots ≡ nothing }
    {
        Table {
            slots: [None; SLOTS],
        }
    }

    // What the two slots of a joint hold. Past the table there is nothing.
    pub(super) fn items_at(&self, joint: JointId) -> [Option<Item>; 2]
        ensures { result ≡ slot self.now.slots (2 * joint.0) ∷ (slot self.now.slots (2 * joint.0 + 1) ∷ []) }
    {
        let first = 2 * joint.0 as usize;
        if first >= SLOTS {
            return [None, None];
        }
        [self.slots[first], self.slots[first + 1]]
    }

    // How many slots of a joint are empty; past the table both are.
    pub(super) fn room_at(&self, joint: JointId) -> u64
        ensures value { result ≡ room self.now.slots joint.0 }
        ensures few { result ≤ 2 }
    {
        let [first, second] = self.items_at(joint);
        first.is_none() as u64 + second.is_none() as u64
    }

    // The first empty slot of a joint, or none; past the table the first.
    pub(super) fn empty_slot(&self, joint: JointId) -> Option<usize>
        ensures value { result ≡ first_empty self.now.slots joint.0 }
        ensures says { MatchOption result (room self.now.slots joint.0 ≡ 0) (λ s. (s / 2 ≡ joint.0) × (slot self.now.slots s ≡ None)) }
    {
        self.items_at(joint)
            .iter()
            .position(|slot| slot.is_none())
            .map(|k| 2 * joint.0 as usize + k)
    }

    // The slot into which an item is put: the first empty one of its first end, or else of its second.
    pub(super) fn put_slot(&self, item: &Item) -> Option<usize>
        ensures value { result ≡ slot_for self.now.slots item.now }
        ensures says { IfSome result (λ s. (is_end item.now (s / 2) ≡ true) × (slot self.now.slots s ≡ None)) }
    {
        self.empty_slot(item.ends.one)
            .or_else(|| self.empty_slot(item.ends.two))
    }
}
