// Laws of frames and of free sets, each as the contract of a function, so that the check asks for its proof.
ghost use Rattle.frame.specs.Laws.{Supermodular, Bounded, EmptyFree, Appending, SmallFrames};

// The bars among joints are supermodular.
pub fn induced_is_supermodular()
    ensures { Supermodular }
{}

// A free set has at most twice as many bars as there are joints, less 3; and a set with no bar is free.
pub fn free_is_bounded()
    ensures { Bounded × EmptyFree }
{}

// Bars appended to a frame change nothing for sets of the bars that it had.
pub fn appending_changes_nothing()
    ensures { Appending }
{}

// What the definitions say of a triangle, a square and a square with both diagonals.
pub fn small_frames_stand()
    ensures { SmallFrames }
{}
