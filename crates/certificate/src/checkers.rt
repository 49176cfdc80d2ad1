// The checkers of lists and sheets. Each call judges what is lent first, by the rows of refusals in their order, and then counts. What is lent stays
// numbers, one parameter each, as calls are made with lent numbers.
ghost use Rattle.std.specs.Prelude.{◌≡◌, length};
ghost use Rattle.std.specs.Option.{option_map};
ghost use Rattle.sets.specs.Sets.{first};
ghost use Rattle.frame.specs.Frame.{size};
ghost use Rattle.frame.specs.Views.{frame_of, marks_of, set_of};
ghost use Rattle.certificate.specs.Lists.{list_in};
ghost use Rattle.certificate.specs.Sheets.{sheet_in};
ghost use Rattle.certificate.specs.Verdicts.{ListChecked, SheetChecked, outside, LargestSays, LargestChecked};

use crate::bars::first_bar;
use crate::list::List;
pub use crate::list::{COPIES, FIRST_END};
pub use crate::sheet::MOST_GROUPS;
use crate::sheet::Sheet;
use crate::verdict::{NotLargest, Overfull, SheetVerdict};
use frame::rows::{judge_length, judge_marks};
use frame::{BarId, BarSet, Frame, Lent, Refusal};

// Whether a list shows that a set of bars is free: for each bar of the set, its row gives every bar of the set, and three further copies of
// its own bar, to ends of theirs, so that no joint is given more than two.
pub fn check_list(
    joints: u64,
    bars: &[u16],
    chosen: &[u8],
    list: &[u8],
) -> Result<Result<(), Overfull>, Refusal>
    ensures { ListChecked result joints bars.now chosen.now list.now }
{
    let frame = Frame::new(joints, bars)?;
    let set = BarSet::new(&frame, chosen)?;
    let rows = List::new(&frame, list)?;
    Ok(rows.shows_free(&set))
}

// What a sheet shows for a set of bars: how many bars a free part of the set can have, where each group has two joints at least, and each bar
// of the set is counted alone or is among the joints of some group.
pub fn check_sheet(
    joints: u64,
    bars: &[u16],
    chosen: &[u8],
    groups: &[u8],
    alone: &[u8],
) -> Result<SheetVerdict, Refusal>
    ensures { SheetChecked result joints bars.now chosen.now groups.now alone.now }
{
    let frame = Frame::new(joints, bars)?;
    let wanted = frame.bar_count();
    judge_length(Lent::Marks, chosen.len(), wanted)?;
    judge_length(Lent::Marks, alone.len(), wanted)?;
    judge_marks(chosen)?;
    judge_marks(alone)?;
    judge_marks(groups)?;
    let set = BarSet::from_marks(chosen);
    Ok(Sheet::new(&frame, groups, alone)?.bounds(&set))
}

// Whether a list and a sheet show together that a part of a set of bars is a largest free part of it: the part lies in the set, the list shows
// that it is free, and the sheet bounds the free parts of the set by just its size.
pub fn check_largest(
    joints: u64,
    bars: &[u16],
    chosen: &[u8],
    part: &[u8],
    list: &[u8],
    groups: &[u8],
    alone: &[u8],
) -> Result<Result<u64, NotLargest>, Refusal>
    ensures { LargestChecked result joints bars.now chosen.now part.now list.now groups.now alone.now }
{
    let frame = Frame::new(joints, bars)?;
    let wanted = frame.bar_count();
    judge_length(Lent::Marks, chosen.len(), wanted)?;
    judge_length(Lent::Marks, part.len(), wanted)?;
    judge_length(Lent::Marks, alone.len(), wanted)?;
    judge_marks(chosen)?;
    judge_marks(part)?;
    judge_marks(alone)?;
    judge_marks(groups)?;
    let list = List::new(&frame, list)?;
    let sheet = Sheet::new(&frame, groups, alone)?;
    let set = BarSet::from_marks(chosen);
    let part = BarSet::from_marks(part);
    Ok(largest_verdict(&frame, &set, &part, &list, &sheet))
}

// The first bar of a part that is not in the set, if there is one.
fn first_outside(frame: &Frame<'_>, set: &BarSet<'_>, part: &BarSet<'_>) -> Option<BarId>
    ensures { option_map (λ k. k.0) result ≡ first (size (frame_of frame.now)) (outside (set_of set.now) (set_of part.now)) }
{
    first_bar(frame, |bar| part.contains(bar) && !set.contains(bar))
}

// How many bars a part of a set has, if a list and a sheet show that it is a largest free part; or what is wrong first.
fn largest_verdict(
    frame: &Frame<'_>,
    set: &BarSet<'_>,
    part: &BarSet<'_>,
    list: &List<'_>,
    sheet: &Sheet<'_>,
) -> Result<u64, NotLargest>
    requires list { list.now.frame ≡ frame.now }
    requires sheet { sheet.now.frame ≡ frame.now }
    requires marks { length (marks_of part.now) ≡ size (frame_of frame.now) }
    ensures { LargestSays result (frame_of frame.now) (set_of set.now) (set_of part.now) (list_in (frame_of frame.now) list.now.numbers.now) (sheet_in (frame_of frame.now) sheet.now.groups.now (marks_of sheet.now.alone)) }
{
    // Not `ok_or`: what is found is the error. Not `map_err` for the list: it was tried, and its proof did not close.
    if let Some(bar) = first_outside(frame, set, part) {
        return Err(NotLargest::Outside(bar));
    }
    if let Err(wrong) = list.shows_free(part) {
        return Err(NotLargest::ListFails(wrong));
    }
    let size = part.len() as u64;
    let shown = sheet.bounds(set);
    if let SheetVerdict::Bound(bound) = shown {
        if bound == size {
            return Ok(size);
        }
    }
    Err(NotLargest::SheetFails(shown))
}
