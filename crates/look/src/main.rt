// Looks at a frame and prints what can be said of it. Frames are not read from files yet, so it looks at one that is built in.
#![tactic(auto)]

ghost use Rattle.sets.specs.Words.{members};
ghost use Rattle.look.specs.Tallied.{Tallied};

use anyhow::anyhow;
use frame::{BarSet, Frame, JointSet, Refusal};

// The hoarding of frames/hoarding.frame: its pins, and the two pins of each bar.
const PINS: u64 = 21;

const BARS: [u16; 80] = [
    // Bay 1, both fields crossed.
    0, 1, 1, 2, 0, 3, 1, 4, 2, 5, 3, 4, 4, 5, 0, 4, 1, 3, 1, 5, 2, 4,
    // Bay 2.
    3, 6, 4, 7, 5, 8, 6, 7, 7, 8, 3, 7,
    // Bay 3.
    6, 9, 7, 10, 8, 11, 9, 10, 10, 11, 7, 11,
    // Bay 4, with no diagonal.
    9, 12, 10, 13, 11, 14, 12, 13, 13, 14,
    // Bay 5.
    12, 15, 13, 16, 14, 17, 15, 16, 16, 17, 12, 16,
    // Bay 6.
    15, 18, 16, 19, 17, 20, 18, 19, 19, 20, 16, 20,
];

// The pins of the corner in which bars are crowded are those below this one.
const CORNER: u64 = 6;

// How many bars a set has, in all and among some joints.
#[derive(Clone, Copy)]
struct Tally {
    all: usize,
    among: usize,
}

// What is lent stays numbers, one parameter each, as calls are made with lent numbers.
fn tally_up(joints: u64, bars: &[u16], chosen: &[u8], group: &JointSet) -> Result<Tally, Refusal>
    ensures { Tallied result joints bars.now chosen.now (members group.now) }
{
    let frame = Frame::new(joints, bars)?;
    let set = BarSet::new(&frame, chosen)?;
    Ok(Tally {
        all: set.len(),
        among: set.among(&frame, group),
    })
}

fn main(rt: HostRuntime) -> anyhow::Result<()> {
    println!(rt; "frames are not read from files yet: this is the hoarding that is built in")?;
    match tally_up(PINS, &BARS, &[1; 40], &JointSet::below(CORNER)) {
        Ok(Tally { all, among }) => {
            println!(rt;
                "all {PINS} pins: {all} bars, of which at most {} do their share",
                2 * PINS - 3
            )?;
            println!(rt;
                "the {CORNER} pins of one corner: {among} bars, of which at most {} do their share",
                2 * CORNER - 3
            )?;
            Ok(())
        }
        Err(refusal) => {
            println!(rt; "{refusal}")?;
            Err(anyhow!("the frame is turned away"))
        }
    }
}
