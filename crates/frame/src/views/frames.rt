// Frames: how one is made of lent numbers, or refused, and its bars.
ghost use Rattle.std.specs.Prelude.{◌≡◌, ◌/◌, ◌≤◌, ◌&&◌, length, nat_lt};
ghost use Rattle.std.specs.Option.{option_map};
ghost use Rattle.sets.specs.Sets.{all};
ghost use Rattle.sets.specs.Words.{members};
ghost use Rattle.frame.specs.Frame.{size, lookup, among};
ghost use Rattle.frame.specs.Answers.{Judged};
ghost use Rattle.frame.specs.Refusals.{joints_row, numbers_row, ends_row, apart_row};
ghost use Rattle.frame.specs.Views.{frame_of, bar_of, Made};

use crate::refusal::Refusal;
use crate::views::{Frame, LEAST_JOINTS, MOST_BARS, MOST_JOINTS};
use sets::{BarId, Ends, JointId, JointSet};

impl<'a> Frame<'a> {
    // The frame of so many joints and of these bars; or the first row that refuses them.
    pub fn new(joints: u64, bars: &'a [u16]) -> Result<Frame<'a>, Refusal>
        ensures { Made result joints bars.now }
    {
        judge_joints(joints)?;
        judge_numbers(bars)?;
        judge_ends(joints, bars)?;
        judge_apart(bars)?;
        Ok(Frame { joints, bars })
    }

    // How many joints there are.
    pub fn joint_count(&self) -> u64
        ensures { result ≡ (frame_of self.now).joints }
    {
        self.joints
    }

    // How many bars there are.
    pub fn bar_count(&self) -> usize
        ensures { result ≡ size (frame_of self.now) }
    {
        self.bars.len() / 2
    }

    // The two ends of a bar, or none past the frame.
    pub fn ends(&self, bar: BarId) -> Option<Ends>
        ensures { option_map bar_of result ≡ lookup (frame_of self.now) bar.0 }
    {
        let k = bar.0 as usize;
        if k >= self.bar_count() {
            return None;
        }
        Some(Ends {
            one: JointId(self.bars[2 * k]),
            two: JointId(self.bars[2 * k + 1]),
        })
    }

    // Whether both ends of a bar are among some joints. A bar past the frame has none.
    pub fn is_among(&self, bar: BarId, joints: &JointSet) -> bool
        ensures { result ≡ (nat_lt bar.0 (size (frame_of self.now)) && among (frame_of self.now) (members joints.now) all bar.0) }
    {
        self.ends(bar)
            .is_some_and(|ends| joints.contains_both(ends))
    }
}

// Row 1: fewer than 2 joints, or more than 512.
fn judge_joints(joints: u64) -> Result<(), Refusal>
    ensures { Judged result (joints_row joints) }
{
    if !(LEAST_JOINTS..=MOST_JOINTS).contains(&joints) {
        return Err(Refusal::JointCount);
    }
    Ok(())
}

// Row 2: an odd count of numbers, which is not two for each bar, or more than 2,048 bars.
fn judge_numbers(bars: &[u16]) -> Result<(), Refusal>
    ensures { Judged result (numbers_row bars.now) }
{
    if bars.len() % 2 == 1 || bars.len() / 2 > MOST_BARS {
        return Err(Refusal::BarNumbers(bars.len()));
    }
    Ok(())
}

// Row 3: a joint past the frame, the first.
fn judge_ends(joints: u64, bars: &[u16]) -> Result<(), Refusal>
    ensures { Judged result (ends_row joints bars.now) }
{
    // A chain with `position` was tried: no proof file could cite what it finds.
    for (k, joint) in bars.iter().enumerate() {
        if *joint as u64 >= joints {
            return Err(Refusal::JointPast(k));
        }
    }
    Ok(())
}

// Row 4: a bar with twice the same joint, the first. Row 2 has been judged, so that the number of each bar is small.
fn judge_apart(bars: &[u16]) -> Result<(), Refusal>
    requires { length bars.now / 2 ≤ 2048 }
    ensures { Judged result (apart_row bars.now) }
{
    let (pairs, _) = bars.as_chunks::<2>();
    // A chain with `position` was tried: no proof file could cite what it finds.
    for (k, ends) in pairs.iter().enumerate() {
        if ends[0] == ends[1] {
            return Err(Refusal::EqualEnds(BarId(k as u32)));
        }
    }
    Ok(())
}
