// The rows that judge marks and room, each a function of its own, for any call that is lent some. `?` joins rows: the first that
// applies is the answer. The rows that judge a frame stand beside `Frame::new`, which alone judges them.
ghost use Rattle.std.specs.Prelude.{◌≡◌, length};
ghost use Rattle.sets.specs.Sets.{first};
ghost use Rattle.frame.specs.Answers.{Judged};
ghost use Rattle.frame.specs.Refusals.{length_row, no_mark, marks_row};

use crate::refusal::{Lent, Refusal};

// The mark of a bar that is in the set; that of any other is 0. It is a number, as marks are lent.
pub const IN_SET: u8 = 1;

// Row 5: marks or room of another length than they should have.
pub fn judge_length(lent: Lent, has: usize, wanted: usize) -> Result<(), Refusal>
    ensures { Judged result (length_row lent has wanted) }
{
    if has != wanted {
        return Err(Refusal::Length(lent));
    }
    Ok(())
}

// Row 6: a mark that is neither 0 nor 1, the first.
pub fn judge_marks(marks: &[u8]) -> Result<(), Refusal>
    ensures { Judged result (marks_row marks.now) }
{
    // Not `ok_or`: what is found is the error.
    match first_no_mark(marks) {
        Some(k) => Err(Refusal::Mark(k)),
        None => Ok(()),
    }
}

// The place of the first number that is neither 0 nor 1, if there is one.
pub fn first_no_mark(numbers: &[u8]) -> Option<usize>
    ensures { result ≡ first (length numbers.now) (no_mark numbers.now) }
{
    // A chain with `position` was tried: no proof file could cite what it finds.
    for (k, number) in numbers.iter().enumerate() {
        if *number > IN_SET {
            return Some(k);
        }
    }
    None
}
