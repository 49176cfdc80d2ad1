// What a frame and a set of bars refuse, each row at its edge, and the order of the rows.
use frame::rows::judge_length;
use frame::{BarId, BarSet, Ends, Frame, JointId, JointSet, Lent, Refusal};
use std::alloc::{AllocError, Global};
use std::test::Fail;

// The refusal of a frame, if it is refused.
fn refusal(joints: u64, bars: &[u16]) -> Option<Refusal> {
    Frame::new(joints, bars).err()
}

// The numbers of so many bars between joints 0 and 1.
fn bars(heap: Global, n: usize) -> Result<Vec<u16>, AllocError> {
    [0, 1].repeat(heap, n)
}

// A frame, and the refusal that it is answered with.
#[derive(Clone, Copy)]
struct Example<'a> {
    joints: u64,
    bars: &'a [u16],
    refusal: Option<Refusal>,
}

const fn case(joints: u64, bars: &[u16], refusal: Option<Refusal>) -> Example<'_> {
    Example {
        joints,
        bars,
        refusal,
    }
}

#[test]
fn rows_at_their_edges(rt: HostRuntime) {
    let cases = [
        case(0, &[], Some(Refusal::JointCount)),
        case(1, &[], Some(Refusal::JointCount)),
        case(2, &[], None),
        case(512, &[0, 511], None),
        case(513, &[], Some(Refusal::JointCount)),
        case(u64::MAX, &[], Some(Refusal::JointCount)),
        case(2, &[0], Some(Refusal::BarNumbers(1))),
        case(2, &[0, 1, 0], Some(Refusal::BarNumbers(3))),
        case(3, &[0, 1, 1, 2, 0, 3], Some(Refusal::JointPast(5))),
        case(3, &[0, 1, 2, 2], Some(Refusal::EqualEnds(BarId(1)))),
        // The first of several faults of one row.
        case(3, &[0, 1, 3, 2, 0, 65535], Some(Refusal::JointPast(2))),
        case(3, &[0, 1, 2, 2, 1, 1], Some(Refusal::EqualEnds(BarId(1)))),
        // A fault of a later row stands before one of an earlier row: the earlier row is the answer.
        case(3, &[1, 1, 0, 3], Some(Refusal::JointPast(3))),
        case(3, &[1, 1, 0, 3, 0], Some(Refusal::BarNumbers(5))),
        case(1, &[1, 1, 0], Some(Refusal::JointCount)),
    ];
    for case in cases {
        assert_eq!(rt; refusal(case.joints, case.bars), case.refusal);
    }
}

#[test]
fn most_bars(rt: HostRuntime) -> Result<(), Fail> {
    assert_eq!(rt; refusal(2, &bars(rt.alloc(), 2048)?), None);
    assert_eq!(rt;
        refusal(2, &bars(rt.alloc(), 2049)?),
        Some(Refusal::BarNumbers(4098))
    );
    Ok(())
}

#[test]
fn numbers_and_places(rt: HostRuntime) {
    let all = [
        (Refusal::JointCount, 1, 0),
        (Refusal::BarNumbers(3), 2, 3),
        (Refusal::JointPast(5), 3, 5),
        (Refusal::EqualEnds(BarId(1)), 4, 1),
        (Refusal::Length(Lent::Marks), 5, 0),
        (Refusal::Length(Lent::Room), 5, 1),
        (Refusal::Mark(7), 6, 7),
        (Refusal::ListNumbers(8), 7, 8),
        (Refusal::GroupNumbers(9), 8, 9),
        (Refusal::NoSuchBar(BarId(4)), 9, 4),
        (Refusal::SmallGroup, 10, 0),
    ];
    for (refusal, number, place) in all {
        assert_eq!(rt; refusal.number(), number);
        assert_eq!(rt; refusal.place(), place);
    }
}

#[test]
fn ends_of_bars(rt: HostRuntime) -> Result<(), Fail> {
    let frame = Frame::new(3, &[0, 1, 2, 1])?;
    assert_eq!(rt; frame.joint_count(), 3);
    assert_eq!(rt; frame.bar_count(), 2);
    let ends = Ends {
        one: JointId(2),
        two: JointId(1),
    };
    assert_eq!(rt; frame.ends(BarId(1)), Some(ends));
    assert_eq!(rt; frame.ends(BarId(2)), None);
    assert_eq!(rt; frame.ends(BarId(u32::MAX)), None);
    Ok(())
}

#[test]
fn marks_of_bars(rt: HostRuntime) -> Result<(), Fail> {
    let frame = Frame::new(4, &[0, 1, 1, 2, 2, 3, 3, 0])?;
    let set = BarSet::new(&frame, &[1, 0, 1, 1])?;
    assert!(rt; set.contains(BarId(0)) && !set.contains(BarId(1)) && !set.contains(BarId(4)));
    assert_eq!(rt; set.len(), 3);
    assert_eq!(rt; set.among(&frame, &JointSet::below(3)), 1);
    assert_eq!(rt; set.among(&frame, &JointSet::below(4)), 3);
    assert_eq!(rt;
        BarSet::new(&frame, &[1, 0, 1]).err(),
        Some(Refusal::Length(Lent::Marks))
    );
    assert_eq!(rt;
        BarSet::new(&frame, &[1, 0, 1, 1, 2]).err(),
        Some(Refusal::Length(Lent::Marks))
    );
    assert_eq!(rt;
        BarSet::new(&frame, &[1, 2, 1, 3]).err(),
        Some(Refusal::Mark(1))
    );
    Ok(())
}
