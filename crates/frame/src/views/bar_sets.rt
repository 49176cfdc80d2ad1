// Sets of bars: how one is made of lent marks, or refused, and how many bars it has.
ghost use Rattle.std.specs.Prelude.{◌≡◌, ◌&&◌, length};
ghost use Rattle.sets.specs.Sets.{count};
ghost use Rattle.sets.specs.Words.{members};
ghost use Rattle.frame.specs.Frame.{induced};
ghost use Rattle.frame.specs.Views.{frame_of, marks_of, set_of, Marked};

use crate::refusal::{Lent, Refusal};
use crate::rows::{IN_SET, judge_length, judge_marks};
use crate::views::{BarSet, Frame};
use sets::{BarId, Ends, JointId, JointSet};

impl<'a> BarSet<'a> {
    // The set of the bars of a frame that are marked; or the first row that refuses the marks.
    pub fn new(frame: &Frame<'_>, marks: &'a [u8]) -> Result<BarSet<'a>, Refusal>
        ensures { Marked result (frame_of frame.now) marks.now }
    {
        judge_length(Lent::Marks, marks.len(), frame.bar_count())?;
        judge_marks(marks)?;
        Ok(BarSet { marks })
    }

    // The set of the bars whose mark is 1, whatever the other marks are: nothing is judged. It is for calls that judge several sets at once, and
    // make them afterwards.
    pub fn from_marks(marks: &'a [u8]) -> BarSet<'a>
        ensures { marks_of result ≡ marks.now }
    {
        Self { marks }
    }

    // Whether a bar is in the set. A bar past the marks is not.
    pub fn contains(&self, bar: BarId) -> bool
        ensures { result ≡ set_of self.now bar.0 }
    {
        self.marks.get(bar.0 as usize) == Some(&IN_SET)
    }

    // How many bars are in the set.
    pub fn len(&self) -> usize
        ensures { result ≡ count (length (marks_of self.now)) (set_of self.now) }
    {
        let mut n: usize = 0;
        // A chain with `filter` and `count` took twice the time, and with `sum` it was not proved that the sum fits.
        for mark in self.marks {
            if *mark == IN_SET {
                n += 1;
            }
        }
        n
    }

    // How many bars of the set are among some joints: both ends are.
    pub fn among(&self, frame: &Frame<'_>, joints: &JointSet) -> usize
        ensures { result ≡ induced (frame_of frame.now) (members joints.now) (set_of self.now) }
    {
        let mut total: usize = 0;
        // A chain of iterators over the numbers of bars was tried: its count could not be proved in the words of sets.
        let (pairs, _) = frame.bars.as_chunks::<2>();
        for (k, pair) in pairs.iter().enumerate() {
            let ends = Ends {
                one: JointId(pair[0]),
                two: JointId(pair[1]),
            };
            if self.has_among(BarId(k as u32), ends, joints) {
                total += 1;
            }
        }
        total
    }

    // Whether a bar is in the set with both its ends among some joints.
    fn has_among(&self, bar: BarId, ends: Ends, joints: &JointSet) -> bool
        ensures { result ≡ (set_of self.now bar.0 && (members joints.now ends.one.0 && members joints.now ends.two.0)) }
    {
        self.contains(bar) && joints.contains_both(ends)
    }
}
