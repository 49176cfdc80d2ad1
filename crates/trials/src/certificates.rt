// Lists and sheets: right ones for small frames, for each rule some that break it, and what is refused.
use certificate::verdict::*;
use certificate::{check_largest, check_list, check_sheet};
use frame::{BarId, JointId, Lent, Refusal};
use std::alloc::{AllocError, Global};
use std::test::Fail;

// A frame, by lent numbers. The trials of boards have the same frames by pairs of joints, as a board is given bars.
#[derive(Clone, Copy)]
struct Shape<'a> {
    joints: u64,
    bars: &'a [u16],
}

const TRIANGLE: Shape<'static> = Shape {
    joints: 3,
    bars: &[0, 1, 1, 2, 0, 2],
};

const SQUARE: Shape<'static> = Shape {
    joints: 4,
    bars: &[0, 1, 1, 2, 2, 3, 3, 0],
};

const BRACED: Shape<'static> = Shape {
    joints: 4,
    bars: &[0, 1, 1, 2, 2, 3, 3, 0, 0, 2],
};

const CROSSED: Shape<'static> = Shape {
    joints: 4,
    bars: &[0, 1, 1, 2, 2, 3, 3, 0, 0, 2, 1, 3],
};

const PRISM: Shape<'static> = Shape {
    joints: 6,
    bars: &[0, 1, 1, 2, 0, 2, 3, 4, 4, 5, 3, 5, 0, 3, 1, 4, 2, 5],
};

const DOUBLE: Shape<'static> = Shape {
    joints: 2,
    bars: &[0, 1, 0, 1],
};

const NO_BARS: Shape<'static> = Shape {
    joints: 2,
    bars: &[],
};

// Lists, row by row; the last three digits of a row are for the copies of its own bar.
const TRIANGLE_LIST: &str = "011011 000011 100011";

const SQUARE_LIST: &str = "0100011 0010011 0001011 1000011";

const BRACED_LIST: &str = "01101011 00100011 10010011 10001011 10100011";

const CROSSED_LIST: &str = "011010011 001000011 100100011 100010011 101000011 111111111";

const PRISM_LIST: &str =
    "011001111011 000001111011 100001111011 001011000011 001000000011 001100000011 101111010011 010011100011 000100100011";

const NINE: &str = "111111111";

const PRISM_GROUPS: &str = "111000 000111";

const NO_MATTER: &str = "111111 111111 111111";

// A frame, a set of its bars, a part of that, a list for the part and a sheet for the set.
#[derive(Clone, Copy)]
struct Example<'a> {
    shape: Shape<'a>,
    chosen: &'a str,
    part: &'a str,
    list: &'a str,
    groups: &'a str,
    alone: &'a str,
}

// The numbers that digits mean, one each; blanks are for the reader. The program `check` has the same line, and a crate below both for it would be longer.
fn digits(heap: Global, text: &str) -> Result<Vec<u8>, AllocError> {
    text.bytes()
        .filter_map(|byte| byte.checked_sub(b'0'))
        .collect(heap)
}

impl<'a> Example<'a> {
    // What the list shows of the part.
    fn list(&self, heap: Global) -> Result<Result<Result<(), Overfull>, Refusal>, AllocError> {
        let part = digits(heap, self.part)?;
        let list = digits(heap, self.list)?;
        Ok(check_list(self.shape.joints, self.shape.bars, &part, &list))
    }

    // What the sheet shows of the set.
    fn sheet(&self, heap: Global) -> Result<Result<SheetVerdict, Refusal>, AllocError> {
        let chosen = digits(heap, self.chosen)?;
        let groups = digits(heap, self.groups)?;
        let alone = digits(heap, self.alone)?;
        Ok(check_sheet(self.shape.joints, self.shape.bars, &chosen, &groups, &alone))
    }

    // What both show together.
    fn both(&self, heap: Global) -> Result<Result<Result<u64, NotLargest>, Refusal>, AllocError> {
        let chosen = digits(heap, self.chosen)?;
        let part = digits(heap, self.part)?;
        let list = digits(heap, self.list)?;
        let groups = digits(heap, self.groups)?;
        let alone = digits(heap, self.alone)?;
        Ok(check_largest(
            self.shape.joints,
            self.shape.bars,
            &chosen,
            &part,
            &list,
            &groups,
            &alone,
        ))
    }
}

// A list for a part, and a sheet for all bars.
const fn right<'a>(
    shape: Shape<'a>,
    chosen: &'a str,
    part: &'a str,
    list: &'a str,
    groups: &'a str,
    alone: &'a str,
) -> Example<'a> {
    Example {
        shape,
        chosen,
        part,
        list,
        groups,
        alone,
    }
}

// Right ones: the list is accepted, and the sheet bounds the set by the size of the part.
#[test]
fn right_ones(rt: HostRuntime) -> Result<(), Fail> {
    let cases = [
        (
            right(TRIANGLE, "111", "111", TRIANGLE_LIST, "111", "000"),
            3,
        ),
        (right(SQUARE, "1111", "1111", SQUARE_LIST, "", "1111"), 4),
        (
            right(BRACED, "11111", "11111", BRACED_LIST, "1111", "00000"),
            5,
        ),
        (
            right(CROSSED, "111111", "111110", CROSSED_LIST, "1111", "000000"),
            5,
        ),
        (
            right(PRISM, NINE, NINE, PRISM_LIST, PRISM_GROUPS, "000000111"),
            9,
        ),
        (right(DOUBLE, "11", "10", "00011 11111", "11", "00"), 1),
        // No bars at all, and a set with none.
        (right(NO_BARS, "", "", "", "", ""), 0),
        (right(TRIANGLE, "000", "000", NO_MATTER, "", "000"), 0),
    ];
    for (example, size) in cases {
        assert_eq!(rt; example.list(rt.alloc())?, Ok(Ok(())));
        assert_eq!(rt; example.sheet(rt.alloc())?, Ok(SheetVerdict::Bound(size)));
        assert_eq!(rt; example.both(rt.alloc())?, Ok(Ok(size)));
    }
    Ok(())
}

// A list for a part of a frame.
const fn list<'a>(shape: Shape<'a>, part: &'a str, list: &'a str) -> Example<'a> {
    right(shape, "", part, list, "", "")
}

const fn wrong(row: u32, joint: u16) -> Result<Result<(), Overfull>, Refusal> {
    Ok(Err(Overfull {
        row: BarId(row),
        joint: JointId(joint),
    }))
}

#[test]
fn lists_that_are_wrong(rt: HostRuntime) -> Result<(), Fail> {
    let cases = [
        // One joint is given three, in the first row and in the last.
        (list(TRIANGLE, "111", "011111 000011 100011"), wrong(0, 1)),
        (list(TRIANGLE, "111", "011011 000011 100001"), wrong(2, 0)),
        // Two rows are wrong, and two joints of a row.
        (list(TRIANGLE, "111", "011111 000011 100000"), wrong(0, 1)),
        (list(TRIANGLE, "111", "000011 000011 100011"), wrong(0, 0)),
        // Without the copies these would do.
        (list(DOUBLE, "11", "01011 01011"), wrong(0, 1)),
        (list(DOUBLE, "11", "01001 01011"), wrong(0, 0)),
        // Right for the part without the other diagonal, and not for all bars.
        (list(CROSSED, "111111", CROSSED_LIST), wrong(0, 1)),
        // The row of a bar that is not in the part would be wrong, and so would rows that counted its number: both are no matter.
        (
            list(
                BRACED,
                "01111",
                "01001111 00100011 10010011 10001011 10100011",
            ),
            Ok(Ok(())),
        ),
        (list(TRIANGLE, "011", "111111 100011 000011"), Ok(Ok(()))),
    ];
    for (example, verdict) in cases {
        assert_eq!(rt; example.list(rt.alloc())?, verdict);
    }
    Ok(())
}

#[test]
fn lists_that_are_refused(rt: HostRuntime) -> Result<(), Fail> {
    let cases = [
        // Numbers above 1, also where 0 and 1 are no matter.
        (
            list(TRIANGLE, "111", "011011 000011 100012"),
            Refusal::ListNumbers(17),
        ),
        (
            list(TRIANGLE, "011", "222222 000011 100011"),
            Refusal::ListNumbers(0),
        ),
        (
            list(TRIANGLE, "011", "111111 300011 100012"),
            Refusal::ListNumbers(6),
        ),
        // Another length, also where a number is wrong.
        (
            list(TRIANGLE, "111", "011011 000011 10001"),
            Refusal::ListNumbers(17),
        ),
        (
            list(TRIANGLE, "111", "211011 000011 1000110"),
            Refusal::ListNumbers(19),
        ),
        (list(NO_BARS, "", "0"), Refusal::ListNumbers(1)),
        // Earlier rows come first.
        (list(TRIANGLE, "112", "2"), Refusal::Mark(2)),
        (list(TRIANGLE, "1122", "2"), Refusal::Length(Lent::Marks)),
        (
            list(
                Shape {
                    joints: 2,
                    ..TRIANGLE
                },
                "112",
                "2",
            ),
            Refusal::JointPast(3),
        ),
        (
            list(
                Shape {
                    joints: 1,
                    ..TRIANGLE
                },
                "112",
                "2",
            ),
            Refusal::JointCount,
        ),
    ];
    for (example, refusal) in cases {
        assert_eq!(rt; example.list(rt.alloc())?, Err(refusal));
    }
    Ok(())
}

// A sheet for a set of bars of a frame.
const fn sheet<'a>(
    shape: Shape<'a>,
    chosen: &'a str,
    groups: &'a str,
    alone: &'a str,
) -> Example<'a> {
    right(shape, chosen, "", "", groups, alone)
}

#[test]
fn sheets_that_are_counted(rt: HostRuntime) -> Result<(), Fail> {
    let cases = [
        // What a sheet counts: groups, bars alone, and all marks of bars alone.
        (
            sheet(TRIANGLE, "111", "110 011", "001"),
            SheetVerdict::Bound(3),
        ),
        (sheet(TRIANGLE, "111", "", "111"), SheetVerdict::Bound(3)),
        (
            sheet(TRIANGLE, "111", "111 111", "111"),
            SheetVerdict::Bound(9),
        ),
        (
            sheet(TRIANGLE, "110", "110 011", "000"),
            SheetVerdict::Bound(2),
        ),
        (
            sheet(TRIANGLE, "110", "110 011", "001"),
            SheetVerdict::Bound(3),
        ),
        // A group with one joint or none, the first; also where a bar is forgotten.
        (
            sheet(TRIANGLE, "111", "111 100 000", "000"),
            SheetVerdict::TooSmall(GroupId(1)),
        ),
        (
            sheet(TRIANGLE, "111", "000", "000"),
            SheetVerdict::TooSmall(GroupId(0)),
        ),
        // A bar is forgotten: it has one end in each of two groups, or one end in a group, or there is no group.
        (
            sheet(TRIANGLE, "111", "110 011", "000"),
            SheetVerdict::Uncovered(BarId(2)),
        ),
        (
            sheet(CROSSED, "111111", "1110", "000000"),
            SheetVerdict::Uncovered(BarId(2)),
        ),
        (
            sheet(TRIANGLE, "011", "", "010"),
            SheetVerdict::Uncovered(BarId(2)),
        ),
    ];
    for (example, verdict) in cases {
        assert_eq!(rt; example.sheet(rt.alloc())?, Ok(verdict));
    }
    Ok(())
}

#[test]
fn sheets_that_are_refused(rt: HostRuntime) -> Result<(), Fail> {
    let cases = [
        // Marks are judged in the order of the set, the bars alone and the groups, and before the shape of the groups.
        (sheet(TRIANGLE, "121", "112", "003"), Refusal::Mark(1)),
        (sheet(TRIANGLE, "111", "112", "300"), Refusal::Mark(0)),
        (sheet(TRIANGLE, "111", "112", "000"), Refusal::Mark(2)),
        (sheet(TRIANGLE, "111", "1112", "000"), Refusal::Mark(3)),
        (
            sheet(TRIANGLE, "111", "1111", "000"),
            Refusal::GroupNumbers(4),
        ),
        // All lengths come before all marks, and the frame before them.
        (
            sheet(TRIANGLE, "222", "111", "0000"),
            Refusal::Length(Lent::Marks),
        ),
        (
            sheet(TRIANGLE, "1111", "111", "222"),
            Refusal::Length(Lent::Marks),
        ),
        (
            sheet(
                Shape {
                    joints: 1,
                    ..TRIANGLE
                },
                "2",
                "2",
                "2",
            ),
            Refusal::JointCount,
        ),
    ];
    for (example, refusal) in cases {
        assert_eq!(rt; example.sheet(rt.alloc())?, Err(refusal));
    }
    Ok(())
}

// A part of a triangle with a list for it, and a sheet for a set.
const fn both<'a>(
    chosen: &'a str,
    part: &'a str,
    list: &'a str,
    groups: &'a str,
    alone: &'a str,
) -> Example<'a> {
    right(TRIANGLE, chosen, part, list, groups, alone)
}

const WRONG: &str = "011011 000011 100000";

const OVERFULL: Overfull = Overfull {
    row: BarId(2),
    joint: JointId(0),
};

#[test]
fn parts_that_are_not_largest(rt: HostRuntime) -> Result<(), Fail> {
    let small = SheetVerdict::TooSmall(GroupId(0));
    let uncovered = SheetVerdict::Uncovered(BarId(2));
    let cases = [
        // A bar outside the set, the first; also where the list and the sheet are wrong.
        (
            both("010", "111", WRONG, "100", "000"),
            NotLargest::Outside(BarId(0)),
        ),
        (
            both("110", "111", TRIANGLE_LIST, "111", "000"),
            NotLargest::Outside(BarId(2)),
        ),
        // The list is wrong; also where the sheet is.
        (
            both("111", "111", WRONG, "100", "000"),
            NotLargest::ListFails(OVERFULL),
        ),
        // The sheet is wrong, or bounds the set by another number.
        (
            both("111", "111", TRIANGLE_LIST, "100", "111"),
            NotLargest::SheetFails(small),
        ),
        (
            both("111", "111", TRIANGLE_LIST, "110 011", "000"),
            NotLargest::SheetFails(uncovered),
        ),
        (
            both("111", "111", TRIANGLE_LIST, "111", "001"),
            NotLargest::SheetFails(SheetVerdict::Bound(4)),
        ),
        // The sheet is right for the part, and forgets a bar of the set.
        (
            both("111", "110", "010011 000011 000000", "", "110"),
            NotLargest::SheetFails(uncovered),
        ),
        // A part that is free, and not the largest.
        (
            both("111", "110", "010011 000011 000000", "111", "000"),
            NotLargest::SheetFails(SheetVerdict::Bound(3)),
        ),
    ];
    for (example, wrong) in cases {
        assert_eq!(rt; example.both(rt.alloc())?, Ok(Err(wrong)));
    }
    Ok(())
}

#[test]
fn parts_that_are_refused(rt: HostRuntime) -> Result<(), Fail> {
    let cases = [
        // The marks of the set come before those of the part, these before those alone, the marks of groups before the list, and that before the groups' shape.
        (both("121", "211", "2", "2", "020"), Refusal::Mark(1)),
        (both("111", "211", "2", "12", "020"), Refusal::Mark(0)),
        (both("111", "111", "2", "2", "020"), Refusal::Mark(1)),
        (both("111", "111", "2", "12", "000"), Refusal::Mark(1)),
        (
            both("111", "111", "2", "11", "000"),
            Refusal::ListNumbers(1),
        ),
        (
            both("111", "111", TRIANGLE_LIST, "11", "000"),
            Refusal::GroupNumbers(2),
        ),
        (
            both("111", "1", "2", "2", "222"),
            Refusal::Length(Lent::Marks),
        ),
    ];
    for (example, refusal) in cases {
        assert_eq!(rt; example.both(rt.alloc())?, Err(refusal));
    }
    Ok(())
}

// As many groups as there can be, and one more.
#[test]
fn most_groups(rt: HostRuntime) -> Result<(), Fail> {
    let mut groups = vec![in rt.alloc(); 1; 2048]?;
    let most = check_sheet(DOUBLE.joints, DOUBLE.bars, &[1, 1], &groups, &[0, 0]);
    assert_eq!(rt; most, Ok(SheetVerdict::Bound(1024)));
    groups.push(1)?;
    groups.push(1)?;
    let more = check_sheet(DOUBLE.joints, DOUBLE.bars, &[1, 1], &groups, &[0, 0]);
    assert_eq!(rt; more, Err(Refusal::GroupNumbers(2050)));
    Ok(())
}
