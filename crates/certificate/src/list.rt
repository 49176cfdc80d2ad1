// Lists over what the caller lends, and what their rows show of a set of bars.
ghost use Rattle.std.specs.Prelude.{◌≡◌, ℕ, ◌*◌, ◌<◌, [], ◌∷◌, length, slice_index};
ghost use Rattle.std.specs.Option.{option_map};
ghost use Rattle.std.specs.Bool.{then_some};
ghost use Rattle.sets.specs.Sets.{first};
ghost use Rattle.frame.specs.Frame.{size, bar_at};
ghost use Rattle.frame.specs.Answers.{Answered};
ghost use Rattle.frame.specs.Views.{frame_of, set_of, bar_of};
ghost use Rattle.certificate.specs.Lists.{width, item, given, crowded, end_of, row_in, list_in};
ghost use Rattle.certificate.specs.Rows.{list_row};
ghost use Rattle.certificate.specs.Verdicts.{ListSays};

use crate::verdict::Overfull;
use frame::rows::first_no_mark;
use frame::views::MOST_JOINTS;
use frame::{BarId, BarSet, Ends, Frame, JointId, Refusal};

// How many further copies of its own bar a row of a list gives to joints.
pub const COPIES: usize = 3;

// The number of a list for the first end of a bar; that for the second is 1. It is a number, as lists are lent.
pub const FIRST_END: u8 = 0;

// The most items that a row may give to one joint.
const MOST_GIVEN: u16 = 2;

// How many joints a table of counts is for. The table is fixed, since nothing is allocated.
const TABLE: usize = MOST_JOINTS as usize;

// A list for a frame: a row for each bar, of a number for each item.
#[derive(Clone, Copy)]
pub(crate) struct List<'a> {
    frame: Frame<'a>,
    numbers: &'a [u8],
    ghost whole: { length numbers.now ≡ size (frame_of frame) * width (frame_of frame) },
}

// A row of a list: its own bar, and the number of each item.
#[derive(Clone, Copy)]
struct Row<'a> {
    frame: Frame<'a>,
    own: BarId,
    numbers: &'a [u8],
    ghost bar: { own.0 < size (frame_of frame) },
    ghost whole: { length numbers.now ≡ width (frame_of frame) },
}

impl<'a> List<'a> {
    // The list that lent numbers are; or row 7 of the refusals: another length than a row for each bar, or else a number above 1, the first.
    pub(crate) fn new(frame: &Frame<'a>, numbers: &'a [u8]) -> Result<List<'a>, Refusal>
        ensures { Answered (λ list. (list.frame ≡ frame.now) × (list.numbers.now ≡ numbers.now)) result (list_row (frame_of frame.now) numbers.now ∷ []) }
    {
        let bars = frame.bar_count();
        if numbers.len() != bars * (bars + COPIES) {
            return Err(Refusal::ListNumbers(numbers.len()));
        }
        // Not `ok_or`: what is found is the error.
        match first_no_mark(numbers) {
            Some(k) => Err(Refusal::ListNumbers(k)),
            None => Ok(List {
                frame: *frame,
                numbers,
            }),
        }
    }

    // What the rows show of a set of bars, one after the other, up to the first that is wrong.
    pub(crate) fn shows_free(&self, set: &BarSet<'_>) -> Result<(), Overfull>
        ensures { ListSays result (frame_of self.now.frame) (set_of set.now) (list_in (frame_of self.now.frame) self.now.numbers.now) }
    {
        let width = self.frame.bar_count() + COPIES;
        // Left by its label at the first row that is wrong, and the loop below at the first joint, by a rule of the project.
        let mut verdict = Ok(());
        'rows: for (k, numbers) in self.numbers.chunks_exact(width).enumerate() {
            let own = BarId(k as u32);
            if !set.contains(own) {
                continue 'rows;
            }
            let row = Row {
                frame: self.frame,
                own,
                numbers,
            };
            if let Some(joint) = row.overfull_joint(set) {
                verdict = Err(Overfull { row: own, joint });
                break 'rows;
            }
        }
        verdict
    }
}

impl<'a> Row<'a> {
    // The first joint to which the row gives more than two items of a set, if there is one.
    fn overfull_joint(&self, set: &BarSet<'_>) -> Option<JointId>
        ensures { option_map (λ j. j.0) result ≡ first (frame_of self.now.frame).joints (crowded (frame_of self.now.frame) (set_of set.now) self.now.own.0 (row_in (frame_of self.now.frame) self.now.own.0 self.now.numbers.now)) }
    {
        let counts = self.tally(set);
        let mut found = None;
        let joints = self.frame.joint_count() as usize;
        'joints: for (joint, given) in counts[..joints].iter().enumerate() {
            if *given > MOST_GIVEN {
                found = Some(JointId(joint as u16));
                break 'joints;
            }
        }
        found
    }

    // How many items of a set each joint is given, counted in one pass over the row.
    fn tally(&self, set: &BarSet<'_>) -> [u16; TABLE]
        ensures { (j : ℕ) → j < 512 → slice_index result j ≡ given (frame_of self.now.frame) (set_of set.now) self.now.own.0 (row_in (frame_of self.now.frame) self.now.own.0 self.now.numbers.now) j }
    {
        let mut counts = [0; TABLE];
        for (i, number) in self.numbers.iter().enumerate() {
            if let Some(joint) = self.given_to(set, i, *number) {
                counts[joint.0 as usize] += 1;
            }
        }
        counts
    }

    // The joint that item i is given to by its number, if its bar is in a set.
    fn given_to(&self, set: &BarSet<'_>, i: usize, number: u8) -> Option<JointId>
        ensures { option_map (λ j. j.0) result ≡ then_some (set_of set.now (item (frame_of self.now.frame) self.now.own.0 i)) (end_of (bar_at (frame_of self.now.frame) (item (frame_of self.now.frame) self.now.own.0 i)) number) }
    {
        let bar = if i < self.frame.bar_count() {
            BarId(i as u32)
        } else {
            self.own
        };
        if !set.contains(bar) {
            return None;
        }
        let ends = self.frame.ends(bar)?;
        Some(end_at(ends, number))
    }
}

// The end of a bar that a number of a list names.
fn end_at(ends: Ends, number: u8) -> JointId
    ensures { result.0 ≡ end_of (bar_of ends) number }
{
    if number == FIRST_END {
        ends.one
    } else {
        ends.two
    }
}
