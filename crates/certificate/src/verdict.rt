// What the checkers say of lists and sheets.
use frame::{BarId, JointId};
use std::error::Error;
use std::fmt;

// The number of a group of a sheet, from 0.
#[derive(Clone, Copy, PartialEq, Eq, Debug)]
pub struct GroupId(pub u16);

// A row of a list, by its own bar, and a joint to which it gives three items or more.
#[derive(Clone, Copy, PartialEq, Eq, Debug)]
pub struct Overfull {
    pub row: BarId,
    pub joint: JointId,
}

impl fmt::Display for Overfull {
    ghost use Rattle.std.specs.Prelude.{Some};
    ghost use Rattle.certificate.specs.Texts.{overfull_text};

    ghost output = { λ wrong. Some (overfull_text wrong) };

    fn fmt<W: fmt::Write>(&self, f: &mut fmt::Formatter<W>) -> fmt::Result {
        write!(f, "row {} pin {} is given three", self.row.0, self.joint.0)
    }
}

impl Error for Overfull {}

// What a sheet shows. An enum, by a rule of the project: its cases hold a bound, a group or a bar.
#[derive(Clone, Copy, PartialEq, Eq, Debug)]
pub enum SheetVerdict {
    // The sheet keeps its rules: a free part of the set has at most so many bars.
    Bound(u64),
    // The first group with fewer than two joints.
    TooSmall(GroupId),
    // No group is too small, and this is the first bar of the set that is in no group and not alone.
    Uncovered(BarId),
}

impl fmt::Display for SheetVerdict {
    ghost use Rattle.std.specs.Prelude.{Some};
    ghost use Rattle.certificate.specs.Texts.{sheet_text};

    ghost output = { λ verdict. Some (sheet_text verdict) };

    fn fmt<W: fmt::Write>(&self, f: &mut fmt::Formatter<W>) -> fmt::Result {
        match self {
            SheetVerdict::Bound(bound) => write!(f, "at most {bound}"),
            SheetVerdict::TooSmall(group) => write!(f, "group {} has less than two pins", group.0),
            SheetVerdict::Uncovered(bar) => write!(f, "bar {} is in no group and not alone", bar.0),
        }
    }
}

// Why a list and a sheet do not show that a part of a set of bars is a largest free part of it.
#[derive(Clone, Copy, PartialEq, Eq, Debug)]
pub enum NotLargest {
    // The first bar of the part that is not in the set.
    Outside(BarId),
    // The part lies in the set; this is what is wrong with the list.
    ListFails(Overfull),
    // The list shows that the part is free; this is what the sheet shows, which is not the size of the part as a bound.
    SheetFails(SheetVerdict),
}
