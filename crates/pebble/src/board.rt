// The board of the pebble game: two slots for each joint, each empty or with an item.
ghost use Rattle.std.specs.Prelude.{◌≤◌};
ghost use Rattle.pebble.specs.Slots.{Apart};

use sets::joint_set::CAPACITY;
use table::Table;

mod calls;
mod links;
mod moves;
mod pair;
mod table;

// How many slots the table has: two for each of 512 joints.
pub const SLOTS: usize = 2 * CAPACITY as usize;

// The most joints that a board has.
pub const MOST_JOINTS: u64 = CAPACITY as u64;

// A board for so many joints. The two ends of an item are joints of the board.
#[derive(Drop)]
pub struct Board {
    joints: u64,
    table: Table,
    ghost few: { joints ≤ 512 },
    ghost apart: { Apart joints table.slots },
}
