// Bars on a board: how they are placed, moved on and taken out, and what is refused.
use pebble::{Board, Fault, Item, Short, Stuck};
use sets::{BarId, Ends, JointId, JointSet};
use std::process::Abort;
use std::test::Fail;

// A frame.
#[derive(Clone, Copy)]
struct Shape<'a> {
    joints: u64,
    bars: &'a [(u16, u16)],
}

const TRIANGLE: Shape<'static> = Shape {
    joints: 3,
    bars: &[(0, 1), (1, 2), (0, 2)],
};

const SQUARE: Shape<'static> = Shape {
    joints: 4,
    bars: &[(0, 1), (1, 2), (2, 3), (3, 0)],
};

const BRACED: Shape<'static> = Shape {
    joints: 4,
    bars: &[(0, 1), (1, 2), (2, 3), (3, 0), (0, 2)],
};

const CROSSED: Shape<'static> = Shape {
    joints: 4,
    bars: &[(0, 1), (1, 2), (2, 3), (3, 0), (0, 2), (1, 3)],
};

const PRISM: Shape<'static> = Shape {
    joints: 6,
    bars: &[
        (0, 1),
        (1, 2),
        (0, 2),
        (3, 4),
        (4, 5),
        (3, 5),
        (0, 3),
        (1, 4),
        (2, 5),
    ],
};

// Each of three joints joined to each of three others.
const THREES: Shape<'static> = Shape {
    joints: 6,
    bars: &[
        (0, 3),
        (0, 4),
        (0, 5),
        (1, 3),
        (1, 4),
        (1, 5),
        (2, 3),
        (2, 4),
        (2, 5),
    ],
};

const DOUBLE: Shape<'static> = Shape {
    joints: 2,
    bars: &[(0, 1), (0, 1)],
};

// A crossed square and a triangle that share a joint.
const HINGED: Shape<'static> = Shape {
    joints: 6,
    bars: &[
        (0, 1),
        (0, 2),
        (0, 3),
        (1, 2),
        (1, 3),
        (2, 3),
        (3, 4),
        (4, 5),
        (5, 3),
    ],
};

// A bar, with the end first that it is put at where there is room.
const fn bar(number: u32, one: u16, two: u16) -> Item {
    Item {
        bar: BarId(number),
        ends: Ends {
            one: JointId(one),
            two: JointId(two),
        },
    }
}

impl<'a> Shape<'a> {
    fn item(&self, k: usize) -> Option<Item> {
        let (one, two) = self.bars.get(k)?;
        Some(bar(u32::try_from(k).ok()?, *one, *two))
    }

    // The board with no bar on it.
    fn board(&self) -> Result<Board, Fail> {
        Board::new(self.joints).ok_or_else(|| Fail::new("too many joints"))
    }

    // The board with all bars, each at its first end.
    fn full(&self, rt: &impl Abort) -> Result<Board, Fail> {
        let mut board = self.board()?;
        for (k, (one, two)) in self.bars.iter().enumerate() {
            let item = bar(u32::try_from(k)?, *one, *two);
            assert_eq!(rt; board.put(item), Ok(item.ends.one));
        }
        Ok(board)
    }

    // Every slot is as on the board with all bars.
    fn check_full(&self, rt: &impl Abort, board: &Board) -> Result<(), Fail> {
        let full = self.full(rt)?;
        for joint in (0..512).map(JointId) {
            assert_eq!(rt; board.items_at(joint), full.items_at(joint));
        }
        Ok(())
    }

    // The board with as many bars as can be placed, tried in an order, and how many these are.
    fn place(&self, rt: &impl Abort, board: &mut Board, order: &[usize]) -> Result<u64, Fail> {
        let mut n: u64 = 0;
        for k in order {
            if let Some(item) = self.item(*k) {
                if place(rt, board, item)? {
                    n = n.saturating_add(1);
                }
            }
        }
        Ok(n)
    }
}

// Places a bar if four slots can be emptied at its ends, and answers whether it is placed.
fn place(rt: &impl Abort, board: &mut Board, item: Item) -> Result<bool, Fail> {
    match board.gather(item.ends.one, item.ends.two, 4)? {
        Ok(()) => {
            assert_eq!(rt; board.put(item), Ok(item.ends.one));
            Ok(true)
        }
        Err(Short { empty, reached }) => {
            assert_eq!(rt; empty, 3);
            assert!(rt; reached.contains_both(item.ends));
            Ok(false)
        }
    }
}

// The orders in which bars are tried: as they are given, the last first, and every other one first.
const ORDERS: [[usize; 9]; 3] = [
    [0, 1, 2, 3, 4, 5, 6, 7, 8],
    [8, 7, 6, 5, 4, 3, 2, 1, 0],
    [1, 3, 5, 7, 0, 2, 4, 6, 8],
];

#[test]
fn as_many_in_each_order(rt: HostRuntime) -> Result<(), Fail> {
    let cases = [
        (TRIANGLE, 3),
        (BRACED, 5),
        (CROSSED, 5),
        (PRISM, 9),
        (THREES, 9),
        (DOUBLE, 1),
        (HINGED, 8),
    ];
    for (shape, most) in cases {
        for order in ORDERS {
            assert_eq!(rt; shape.place(&rt, &mut shape.board()?, &order)?, most);
        }
    }
    Ok(())
}

// A set has these joints, and no other.
fn check_just(rt: &impl Abort, set: JointSet, joints: &[u16]) -> Result<(), Fail> {
    for joint in joints {
        assert!(rt; set.contains(JointId(*joint)));
    }
    assert_eq!(rt; set.len(), joints.len() as u64);
    Ok(())
}

// Gathers three empty slots at the ends of a bar, and answers the joints that reach no other.
fn group_around(rt: &impl Abort, shape: Shape, u: JointId, v: JointId) -> Result<JointSet, Fail> {
    let mut board = shape.board()?;
    shape.place(rt, &mut board, &ORDERS[0])?;
    board.gather(u, v, 3)??;
    Ok(board.unreaching(u, v))
}

#[test]
fn groups_around_bars(rt: HostRuntime) -> Result<(), Fail> {
    let cases: [(Shape, u16, u16, &[u16]); 8] = [
        (TRIANGLE, 2, 0, &[0, 1, 2]),
        (SQUARE, 0, 1, &[0, 1]),
        (SQUARE, 2, 3, &[2, 3]),
        (BRACED, 2, 3, &[0, 1, 2, 3]),
        (HINGED, 0, 1, &[0, 1, 2, 3]),
        (HINGED, 3, 2, &[0, 1, 2, 3]),
        (HINGED, 3, 4, &[3, 4, 5]),
        (HINGED, 4, 5, &[3, 4, 5]),
    ];
    for (shape, u, v, group) in cases {
        check_just(
            &rt,
            group_around(&rt, shape, JointId(u), JointId(v))?,
            group,
        )?;
    }
    Ok(())
}

// Room is made at a joint, and one slot is then empty there.
fn check_room(rt: &impl Abort, board: &mut Board, joint: JointId) -> Result<(), Fail> {
    assert!(rt; board.make_room(joint, &JointSet::empty())?.is_ok());
    assert_eq!(rt; board.empty_slots(joint), Some(1));
    Ok(())
}

// Where bars 0, 1 and so on lie.
fn check_joints(rt: &impl Abort, board: &Board, joints: &[u16]) -> Result<(), Fail> {
    for (k, joint) in joints.iter().enumerate() {
        assert_eq!(rt;
            board.locate(BarId(u32::try_from(k)?)),
            Some(JointId(*joint))
        );
    }
    Ok(())
}

// From joint 0 there is a dead end at 4, and there are ways back to joints that were seen; what is left is the way by 1 and 2 to 3.
#[test]
fn three_steps(rt: HostRuntime) -> Result<(), Fail> {
    let shape = Shape {
        joints: 5,
        bars: &[
            (0, 4),
            (0, 1),
            (4, 0),
            (4, 0),
            (1, 0),
            (1, 2),
            (2, 4),
            (2, 3),
            (3, 0),
        ],
    };
    let mut board = shape.full(&rt)?;
    check_joints(&rt, &board, &[0, 0, 4, 4, 1, 1, 2, 2, 3])?;
    // The second time there is room already, and nothing moves.
    for _ in 0..2 {
        check_room(&rt, &mut board, JointId(0))?;
        check_joints(&rt, &board, &[0, 1, 4, 4, 1, 2, 2, 3, 3])?;
        assert_eq!(rt; board.empty_slots(JointId(3)), Some(0));
    }
    assert_eq!(rt;
        board.items_at(JointId(3)),
        [Some(bar(8, 3, 0)), Some(bar(7, 2, 3))]
    );
    Ok(())
}

// Two ways from joint 0 to 2, one by 1 and one by 3.
const TWO_WAYS: Shape<'static> = Shape {
    joints: 4,
    bars: &[(0, 1), (0, 3), (1, 2), (1, 2), (3, 2), (3, 2)],
};

// Three joints full of bars among them, a bar that leads there, and a joint with nothing.
const CLOSED: Shape<'static> = Shape {
    joints: 5,
    bars: &[(0, 1), (1, 2), (1, 0), (0, 2), (2, 1), (2, 0), (3, 0)],
};

// Makes room at joint 0 and keeps some joints, and answers the joints that were seen where there is no way; nothing is moved then.
fn seen(rt: &impl Abort, shape: Shape, kept: &[u16]) -> Result<Option<JointSet>, Fail> {
    let mut board = shape.full(rt)?;
    let mut set = JointSet::empty();
    for joint in kept {
        set.insert(JointId(*joint));
    }
    match board.make_room(JointId(0), &set)? {
        Ok(()) => {
            assert_eq!(rt; board.empty_slots(JointId(0)), Some(1));
            Ok(None)
        }
        Err(Stuck { seen }) => {
            shape.check_full(rt, &board)?;
            Ok(Some(seen))
        }
    }
}

#[test]
fn dead_ends(rt: HostRuntime) -> Result<(), Fail> {
    let cases: [(Shape, &[u16], &[u16]); 7] = [
        (CLOSED, &[], &[0, 1, 2]),
        (CLOSED, &[1], &[0, 1, 2]),
        (CLOSED, &[1, 2], &[0, 1, 2]),
        (CLOSED, &[4], &[0, 1, 2, 4]),
        (TWO_WAYS, &[1, 3], &[0, 1, 3]),
        (TWO_WAYS, &[2], &[0, 1, 2, 3]),
        (TWO_WAYS, &[0], &[0]),
    ];
    for (shape, kept, all) in cases {
        check_just(&rt, seen(&rt, shape, kept)?.ok_or("a way")?, all)?;
    }
    // One of the two ways is left.
    assert!(rt;
        seen(&rt, TWO_WAYS, &[])?.is_none()
            && seen(&rt, TWO_WAYS, &[1])?.is_none()
            && seen(&rt, TWO_WAYS, &[3])?.is_none()
    );
    Ok(())
}

// Joints 0 and 1 are full, and 2 is not.
const FILLED: Shape<'static> = Shape {
    joints: 3,
    bars: &[(0, 1), (0, 1), (1, 0), (1, 2), (2, 0)],
};

#[test]
fn refused_bars(rt: HostRuntime) -> Result<(), Fail> {
    let mut board = FILLED.full(&rt)?;
    let cases = [
        (9, 3, 0, Fault::JointPast(JointId(3))),
        (9, 0, 3, Fault::JointPast(JointId(3))),
        (9, 512, 65535, Fault::JointPast(JointId(512))),
        (9, 65535, 65535, Fault::JointPast(JointId(65535))),
        (9, 2, 2, Fault::EqualJoints(JointId(2))),
        (0, 2, 1, Fault::Placed(BarId(0))),
        (9, 0, 1, Fault::NoRoom),
        // Of two faults the first.
        (0, 3, 3, Fault::JointPast(JointId(3))),
        (0, 1, 1, Fault::EqualJoints(JointId(1))),
        (0, 0, 1, Fault::Placed(BarId(0))),
    ];
    for (number, one, two, fault) in cases {
        assert_eq!(rt; board.put(bar(number, one, two)), Err(fault));
        FILLED.check_full(&rt, &board)?;
    }
    Ok(())
}

// There is no such joint for any call.
fn check_past(rt: &impl Abort, board: &mut Board, joint: JointId) -> Result<(), Fail> {
    assert_eq!(rt;
        board.make_room(joint, &JointSet::empty()),
        Err(Fault::JointPast(joint))
    );
    assert_eq!(rt; board.empty_slots(joint), None);
    assert_eq!(rt; board.items_at(joint), [None, None]);
    Ok(())
}

#[test]
fn refused_moves(rt: HostRuntime) -> Result<(), Fail> {
    let mut board = FILLED.full(&rt)?;
    let cases = [
        (3, 0, Fault::JointPast(JointId(3))),
        (0, 512, Fault::JointPast(JointId(512))),
        (65535, 65535, Fault::JointPast(JointId(65535))),
        (1, 1, Fault::EqualJoints(JointId(1))),
    ];
    for (one, two, fault) in cases {
        assert_eq!(rt; board.gather(JointId(one), JointId(two), 4), Err(fault));
    }
    for joint in [3, 512, 65535] {
        check_past(&rt, &mut board, JointId(joint))?;
    }
    FILLED.check_full(&rt, &board)
}

// A bar is taken out of where it lies, and put back.
fn check_taken(rt: &impl Abort, board: &mut Board, item: Item, joint: JointId) -> Result<(), Fail> {
    assert_eq!(rt; board.locate(item.bar), Some(joint));
    assert_eq!(rt; board.take(item.bar), Some(item));
    assert_eq!(rt; board.locate(item.bar), None);
    assert_eq!(rt; board.take(item.bar), None);
    assert_eq!(rt; board.put(item), Ok(item.ends.one));
    Ok(())
}

#[test]
fn taken_out_and_put_back(rt: HostRuntime) -> Result<(), Fail> {
    let mut board = FILLED.full(&rt)?;
    check_room(&rt, &mut board, JointId(1))?;
    // One that lies where it was put, and one that has moved on.
    check_taken(&rt, &mut board, bar(0, 0, 1), JointId(0))?;
    check_taken(&rt, &mut board, bar(3, 1, 2), JointId(2))?;
    FILLED.check_full(&rt, &board)
}

// Two bars from a joint to the next. The next of the last number is itself.
fn steps(joint: u16) -> [Item; 2] {
    let next = joint.saturating_add(1);
    let first = 2 * joint as u32;
    [bar(first, joint, next), bar(first + 1, joint, next)]
}

// Two bars from each joint of the largest board to the next, and a move from the first joint to the last.
#[test]
fn largest_board(rt: HostRuntime) -> Result<(), Fail> {
    assert!(rt; Board::new(0).is_some() && Board::new(513).is_none());
    let mut board = Shape {
        joints: 512,
        bars: &[],
    }
    .board()?;
    for item in (0..511).flat_map(steps) {
        assert_eq!(rt; board.put(item), Ok(item.ends.one));
    }
    check_just(&rt, board.unreaching(JointId(0), JointId(1)), &[])?;
    check_room(&rt, &mut board, JointId(0))?;
    // By number, so that what is expected is not taken from `steps`.
    for joint in 0..511 {
        assert_eq!(rt;
            board.locate(BarId(2 * joint as u32)),
            Some(JointId(joint + 1))
        );
    }
    assert_eq!(rt; board.empty_slots(JointId(511)), Some(1));
    Ok(())
}
