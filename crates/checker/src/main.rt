// Checks lists and sheets, and prints what they show. They are not read from files yet, so it checks some that are built in.
#![tactic(auto)]

use certificate::{check_largest, check_list, check_sheet};
use std::alloc::{AllocError, Global};

// A frame, a set of its bars, a part of that with a list for it, and a sheet for the set.
#[derive(Clone, Copy)]
struct Example<'a> {
    name: &'a str,
    pins: u64,
    bars: &'a [u16],
    set: &'a [u8],
    part: &'a [u8],
    list: &'a [u8],
    groups: &'a [u8],
    alone: &'a [u8],
}

// Prints what the list shows of the part, the sheet of the set, and, where the part is largest, its size.
fn check_one(rt: HostRuntime, e: Example<'_>) -> anyhow::Result<()> {
    println!(rt; "{}", e.name)?;
    match check_list(e.pins, e.bars, e.part, e.list) {
        Ok(Ok(())) => println!(rt; "list free")?,
        Ok(Err(wrong)) => println!(rt; "list {wrong}")?,
        Err(refusal) => println!(rt; "{refusal}")?,
    }
    match check_sheet(e.pins, e.bars, e.set, e.groups, e.alone) {
        Ok(shown) => println!(rt; "sheet {shown}")?,
        Err(refusal) => println!(rt; "{refusal}")?,
    }
    if let Ok(Ok(size)) = check_largest(e.pins, e.bars, e.set, e.part, e.list, e.groups, e.alone) {
        println!(rt; "largest {size}")?;
    }
    Ok(())
}

// The numbers that digits mean, one each; blanks are for the reader. The trials of certificates have the same line, and a crate below both for it
// would be longer.
fn digits(heap: Global, text: &str) -> Result<Vec<u8>, AllocError> {
    text.bytes()
        .filter_map(|byte| byte.checked_sub(b'0'))
        .collect(heap)
}

// A square with both diagonals: the part without the last bar, which is free, and all pins as one group; then a list that gives every bar to its
// first end, and a sheet that forgets a bar.
fn check_crossed(rt: HostRuntime) -> anyhow::Result<()> {
    // A row for each bar, of a number for each bar and three for the further copies of the row's own bar. The last row is for the other
    // diagonal, which is not in the part.
    let list = "011010011 001000011 100100011 100010011 101000011 000000000";
    let list = digits(rt.alloc(), list)?;
    let right = Example {
        name: "a square with both diagonals",
        pins: 4,
        bars: &[0, 1, 1, 2, 2, 3, 3, 0, 0, 2, 1, 3],
        set: &[1; 6],
        part: &[1, 1, 1, 1, 1, 0],
        list: &list,
        groups: &[1; 4],
        alone: &[0; 6],
    };
    check_one(rt, right)?;
    check_one(
        rt,
        Example {
            name: "the same, with every bar given to its first end",
            list: &[0; 54],
            ..right
        },
    )?;
    check_one(
        rt,
        Example {
            name: "the same, with two triangles as the groups",
            groups: &[1, 1, 1, 0, 1, 0, 1, 1],
            ..right
        },
    )?;
    Ok(())
}

// The largest frame: a strip of triangles over 512 pins, in which pin i has bars to i + 1 and to i + 2, and further bars beside those up to
// 2,048. The strip is free and holds.

// How many pins the strip has.
const STRIP_PINS: u16 = 512;

// How many bars go from a pin to the next.
const SHORT: usize = 511;

// How many bars the strip has; all further ones lie beside a short one.
const STRIP_BARS: usize = 1021;

// How many bars the frame has.
const ALL_BARS: usize = 2048;

// The two pins of a bar: bar k starts at pin k % 511.
fn strip_pins(bar: usize) -> [u16; 2] {
    let from = (bar % SHORT) as u16;
    let is_long = (SHORT..STRIP_BARS).contains(&bar);
    [from, from + if is_long { 2 } else { 1 }]
}

// The numbers of the bars.
fn strip_numbers(heap: Global) -> Result<Vec<u16>, AllocError> {
    (0..ALL_BARS).flat_map(strip_pins).collect(heap)
}

// A mark for each bar, 1 for those below n.
fn first_bars(heap: Global, n: usize) -> Result<Vec<u8>, AllocError> {
    (0..ALL_BARS).map(|bar| (bar < n) as u8).collect(heap)
}

// A group of all pins, so many times.
fn whole_groups(heap: Global, n: usize) -> Result<Vec<u8>, AllocError> {
    vec![in heap; 1; n.saturating_mul(STRIP_PINS as usize)]
}

// The end that a bar of the strip is given to in a row of the list. The row's own bar, and the bars that start before it, go to their first
// ends, and the others to their second ends; but where the own bar is a long one, both short bars beneath it go to the pin between its ends.
fn strip_end(own: usize, bar: usize) -> u8 {
    let here = own % SHORT;
    let there = bar % SHORT;
    let beneath = own >= SHORT && bar < SHORT && there == here + 1;
    if bar == own || there < here || beneath {
        0
    } else {
        1
    }
}

// Appends the row of a bar.
fn push_row(list: &mut Vec<u8>, own: usize) -> Result<(), AllocError> {
    list.extend((0..ALL_BARS).map(|bar| {
        if own < STRIP_BARS && bar < STRIP_BARS {
            strip_end(own, bar)
        } else {
            0
        }
    }))?;
    list.extend_from_slice(&[0, 1, 1])
}

// A list that shows that the strip is free.
fn strip_list(heap: Global) -> Result<Vec<u8>, AllocError> {
    let mut list = Vec::new(heap);
    (0..ALL_BARS).try_for_each(|own| push_row(&mut list, own))?;
    Ok(list)
}

// The part is the strip, and all pins are one group; then as many groups as there can be.
fn check_strip(rt: HostRuntime) -> anyhow::Result<()> {
    let bars = strip_numbers(rt.alloc())?;
    let part = first_bars(rt.alloc(), STRIP_BARS)?;
    let set = first_bars(rt.alloc(), ALL_BARS)?;
    let alone = first_bars(rt.alloc(), 0)?;
    let list = strip_list(rt.alloc())?;
    let groups = whole_groups(rt.alloc(), 1)?;
    let right = Example {
        name: "a strip of triangles, 512 pins and 2,048 bars",
        pins: STRIP_PINS as u64,
        bars: &bars,
        set: &set,
        part: &part,
        list: &list,
        groups: &groups,
        alone: &alone,
    };
    check_one(rt, right)?;
    let groups = whole_groups(rt.alloc(), 1024)?;
    check_one(
        rt,
        Example {
            name: "the same, with 1,024 groups",
            groups: &groups,
            ..right
        },
    )?;
    Ok(())
}

fn main(rt: HostRuntime) -> anyhow::Result<()> {
    println!(rt; "lists and sheets are not read from files yet: these are built in")?;
    check_crossed(rt)?;
    check_strip(rt)
}
