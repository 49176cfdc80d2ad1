// Sheets over what the caller lends, and what they show of a set of bars.
ghost use Rattle.std.specs.Prelude.{◌≡◌, ℕ, ◌/◌, ◌%◌, ◌<◌, ◌≤◌, [], ◌∷◌, false, ◌||◌, length, slice_index_or};
ghost use Rattle.std.specs.Option.{option_map};
ghost use Rattle.sets.specs.Sets.{all, count, first};
ghost use Rattle.sets.specs.Words.{members};
ghost use Rattle.frame.specs.Frame.{size, among};
ghost use Rattle.frame.specs.Answers.{Answered};
ghost use Rattle.frame.specs.Lent.{set_in};
ghost use Rattle.frame.specs.Views.{frame_of, marks_of, set_of};
ghost use Rattle.certificate.specs.Sheets.{sheet_in, left_out};
ghost use Rattle.certificate.specs.Rows.{groups_row};
ghost use Rattle.certificate.specs.Verdicts.{SheetSays};

use crate::bars::first_bar;
use crate::verdict::{GroupId, SheetVerdict};
use frame::rows::IN_SET;
use frame::views::MOST_BARS;
use frame::{BarId, BarSet, Frame, JointId, JointSet, Refusal};

// The fewest joints of a group.
const LEAST_GROUP: u64 = 2;

// The most groups that a sheet has.
pub const MOST_GROUPS: u64 = 1024;

// A sheet for a frame: groups, each a mark for each joint, and the bars that are counted alone.
#[derive(Clone, Copy)]
pub(crate) struct Sheet<'a> {
    frame: Frame<'a>,
    groups: &'a [u8],
    alone: BarSet<'a>,
    ghost whole: { length groups.now % (frame_of frame).joints ≡ 0 },
    ghost few: { length groups.now / (frame_of frame).joints ≤ 1024 },
    ghost marks: { length (marks_of alone) ≡ size (frame_of frame) },
}

impl<'a> Sheet<'a> {
    // The sheet that lent marks are, where those of the bars alone have been judged; or row 8 of the refusals: numbers that are not one mark a joint
    // for each group, or more than 1,024 groups.
    pub(crate) fn new(
        frame: &Frame<'a>,
        groups: &'a [u8],
        alone: &'a [u8],
    ) -> Result<Sheet<'a>, Refusal>
        requires { length alone.now ≡ size (frame_of frame.now) }
        ensures { Answered (λ sheet. (sheet.frame ≡ frame.now) × ((sheet.groups.now ≡ groups.now) × (marks_of sheet.alone ≡ alone.now))) result (groups_row (frame_of frame.now) groups.now ∷ []) }
    {
        let joints = frame.joint_count();
        let marks = groups.len() as u64;
        if marks % joints != 0 || marks / joints > MOST_GROUPS {
            return Err(Refusal::GroupNumbers(groups.len()));
        }
        Ok(Sheet {
            frame: *frame,
            groups,
            alone: BarSet::from_marks(alone),
        })
    }

    // What the sheet shows of a set of bars, group by group, up to the first that is too small.
    pub(crate) fn bounds(&self, set: &BarSet<'_>) -> SheetVerdict
        ensures { SheetSays result (frame_of self.now.frame) (set_of set.now) (sheet_in (frame_of self.now.frame) self.now.groups.now (marks_of self.now.alone)) }
    {
        // As many as the largest frame has, since nothing is allocated.
        let mut bars = [false; MOST_BARS];
        let covered = &mut bars[..self.frame.bar_count()];
        let mut bound = self.alone.len() as u64;
        let width = self.frame.joint_count() as usize;
        for (g, marks) in self.groups.chunks_exact(width).enumerate() {
            let group = read_group(marks);
            let joints = group.len();
            if joints < LEAST_GROUP {
                return SheetVerdict::TooSmall(GroupId(g as u16));
            }
            bound += 2 * joints - 3;
            self.cover(&group, covered);
        }
        match self.first_uncovered(set, covered) {
            Some(bar) => SheetVerdict::Uncovered(bar),
            None => SheetVerdict::Bound(bound),
        }
    }

    // Adds the bars among the joints of a group to those that are marked.
    fn cover(&self, group: &JointSet, covered: &mut [bool])
        requires { length covered.old ≡ size (frame_of self.now.frame) }
        ensures { (k : ℕ) → k < size (frame_of self.now.frame) → slice_index_or covered.new k false ≡ (slice_index_or covered.old k false || among (frame_of self.now.frame) (members group.now) all k) }
    {
        for (k, mark) in covered.iter_mut().enumerate() {
            *mark |= self.frame.is_among(BarId(k as u32), group);
        }
    }

    // The first bar of a set that is not counted alone and is among no group, if there is one.
    fn first_uncovered(&self, set: &BarSet<'_>, covered: &[bool]) -> Option<BarId>
        ensures { option_map (λ k. k.0) result ≡ first (size (frame_of self.now.frame)) (left_out (set_of set.now) (set_of self.now.alone) covered.now) }
    {
        first_bar(
            &self.frame,
            |bar| set.contains(bar)
                && !self.alone.contains(bar)
                && covered.get(bar.0 as usize) != Some(&true),
        )
    }
}

// A group of joints, read from its marks.
fn read_group(marks: &[u8]) -> JointSet
    requires { length marks.now ≤ 512 }
    ensures { members result ≡ set_in marks.now }
{
    let mut group = JointSet::empty();
    for (j, mark) in marks.iter().enumerate() {
        if *mark == IN_SET {
            group.insert(JointId(j as u16));
        }
    }
    group
}
