// What a board says of the bars that lie on it, each as the contract of a function, so that the check asks for its proof.
ghost use Rattle.pebble.specs.Laws.{NothingOriented, MovesOrient, PutOrients, TakeOrients, RoomBounds, RoomCounts, ThreeGather, ReachedTight, FourFree, ThreeAlways, FourthFails, FourthFrees, FourthSpoils, UnreachingTight};

// Moves leave the same bars on a board, to put a bar adds just that one, to take one out takes just that one; and none lies on an empty board.
pub fn calls_orient()
    ensures { NothingOriented × MovesOrient × PutOrients × TakeOrients }
{}

// Bars among some joints and empty slots there are at most twice the joints, and just that where no item leads out.
pub fn slots_are_counted()
    ensures { RoomBounds × RoomCounts }
{}

// Where no further slot can be emptied at two joints of a free set, three are empty at least; where just three are, the joints that are reached are
// the least tight group with both; and where the two ends of a bar have four, it keeps the set free.
pub fn empty_slots_decide()
    ensures { ThreeGather × ReachedTight × FourFree }
{}

// The same of what gathering answers: three can always be gathered, and whether four can tells whether a bar keeps the set free.
pub fn gathering_decides()
    ensures { ThreeAlways × FourthFails × FourthFrees × FourthSpoils }
{}

// With three gathered, the joints that reach no other empty slot are the largest tight group with both joints, if there is one.
pub fn unreaching_is_largest()
    ensures { UnreachingTight }
{}
