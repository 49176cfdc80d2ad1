// Frames and sets of bars over what the caller lends.
ghost use Rattle.frame.specs.Frame.{Allowed};
ghost use Rattle.frame.specs.Lent.{frame_in};

use sets::joint_set::CAPACITY;

mod bar_sets;
mod frames;

// The fewest joints that a frame has.
pub const LEAST_JOINTS: u64 = 2;

// The most joints that a frame has.
pub const MOST_JOINTS: u64 = CAPACITY as u64;

// The most bars that a frame has.
pub const MOST_BARS: usize = 2048;

// A frame over lent numbers, two joints for each bar. It is sound and within the limits.
#[derive(Clone, Copy)]
pub struct Frame<'a> {
    joints: u64,
    bars: &'a [u16],
    ghost allowed: { Allowed (frame_in joints bars.now) },
}

// A set of bars over lent marks, 1 for each bar that is in it.
#[derive(Clone, Copy)]
pub struct BarSet<'a> {
    marks: &'a [u8],
}
