// Why lent numbers are turned away.
ghost use Rattle.std.specs.Prelude.{◌≡◌};
ghost use Rattle.frame.specs.Refusals.{number, place};

use sets::BarId;
use std::error::Error;
use std::fmt;

// What has the wrong length: marks that are read, or room that is written to.
#[derive(Clone, Copy, PartialEq, Eq, Debug)]
pub enum Lent {
    Marks,
    Room,
}

// A refusal. Its cases are the rows of a list: each has a number, says when it applies, and names a place, which may be a place in
// what is lent, a length or a bar. The rows are judged in the order of their numbers. Rows 7 to 10 are for calls over lists, groups and
// single bars; no call of this crate answers them.
#[derive(Clone, Copy, PartialEq, Eq, Debug)]
pub enum Refusal {
    // 1: fewer than 2 joints, or more than 512.
    JointCount,
    // 2: an odd count of numbers, which is not two for each bar, or more than 2,048 bars; the length.
    BarNumbers(usize),
    // 3: a joint past the frame; its place.
    JointPast(usize),
    // 4: a bar with twice the same joint; the bar.
    EqualEnds(BarId),
    // 5: marks or room of another length than they should have; 0 for marks, 1 for room.
    Length(Lent),
    // 6: a mark that is neither 0 nor 1; its place.
    Mark(usize),
    // 7: a list of another length, or with a number above 1; its length, or the place.
    ListNumbers(usize),
    // 8: more than 1,024 groups, or numbers that are not one mark a joint for each; their length.
    GroupNumbers(usize),
    // 9: a bar asked for that is past the frame or not in the set; the bar.
    NoSuchBar(BarId),
    // 10: a group to ask for with fewer than two joints.
    SmallGroup,
}

impl Refusal {
    // The number of the row.
    pub fn number(&self) -> u64
        ensures { result ≡ number self.now }
    {
        match self {
            Refusal::JointCount => 1,
            Refusal::BarNumbers(_) => 2,
            Refusal::JointPast(_) => 3,
            Refusal::EqualEnds(_) => 4,
            Refusal::Length(_) => 5,
            Refusal::Mark(_) => 6,
            Refusal::ListNumbers(_) => 7,
            Refusal::GroupNumbers(_) => 8,
            Refusal::NoSuchBar(_) => 9,
            Refusal::SmallGroup => 10,
        }
    }

    // The place that the row names, as said at each case.
    pub fn place(&self) -> u64
        ensures { result ≡ place self.now }
    {
        match *self {
            Refusal::JointCount | Refusal::SmallGroup | Refusal::Length(Lent::Marks) => 0,
            Refusal::Length(Lent::Room) => 1,
            Refusal::EqualEnds(bar) | Refusal::NoSuchBar(bar) => bar.0 as u64,
            Refusal::BarNumbers(at)
            | Refusal::JointPast(at)
            | Refusal::Mark(at)
            | Refusal::ListNumbers(at)
            | Refusal::GroupNumbers(at) => at as u64,
        }
    }
}

impl fmt::Display for Refusal {
    ghost use Rattle.std.specs.Prelude.{Some};
    ghost use Rattle.frame.specs.Texts.{refusal_text};

    ghost output = { λ refusal. Some (refusal_text refusal) };

    fn fmt<W: fmt::Write>(&self, f: &mut fmt::Formatter<W>) -> fmt::Result {
        write!(f, "turned away by {} at {}", self.number(), self.place())
    }
}

impl Error for Refusal {}
